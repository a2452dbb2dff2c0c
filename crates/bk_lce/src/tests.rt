ghost use Rattle.std.specs.Prelude.{◌≡◌};
ghost use Rattle.bk_msg.specs.Within.{IsWithin};
ghost use Rattle.bk_lce.specs.Policies.{IsPolicy};

use super::*;
use bk_base::{Addr, Coh, Config, Done, Op};
use bk_msg::Message;
use std::test::Fail;

fn at(value: u64) -> Result<Addr, Fail> {
    Ok(Addr::make(value).ok_or("the address is one")?)
}

fn view(state: Coh, age: u8) -> WayView {
    WayView { state, age }
}

/// Takes what may move between threads.
fn moves<T: Send + Drop>(moved: T) {
    let _moved = moved;
}

/// The request that an operation sends.
fn request<F: Fn(&[WayView]) -> u8 + Copy + Send>(cache: &mut Cache<F>, op: Op) -> Option<Message>
    requires { IsPolicy F.Fn cache.old.victim.pick }
    ensures config { cache.new.arrays.config ≡ cache.old.arrays.config }
    ensures victim { cache.new.victim ≡ cache.old.victim }
{
    match cache.issue(op) {
        Ok(step) => step.sent,
        Err(Busy) => None,
    }
}

/// The answer of an operation that has completed.
fn answer(done: &Option<Done>) -> Option<u64> {
    match done {
        Some(done) => Some(done.answer),
        None => None,
    }
}

/// The answer of the operation that a command completes, and what the cache sends.
fn commanded<F: Fn(&[WayView]) -> u8 + Copy + Send>(
    cache: &mut Cache<F>,
    message: &Message,
) -> Option<(Option<u64>, Option<Message>)>
    requires { IsWithin cache.old.arrays.config message.now }
    ensures config { cache.new.arrays.config ≡ cache.old.arrays.config }
    ensures victim { cache.new.victim ≡ cache.old.victim }
{
    match cache.command(message) {
        Ok(step) => Some((answer(&step.done), step.sent)),
        Err(Foreign) => None,
    }
}

#[test]
fn the_oldest_way(rt: HostRuntime) {
    let one = [view(Coh::M, 0)];
    let stale = [view(Coh::S, 1), view(Coh::M, 2), view(Coh::E, 0)];
    let tied = [
        view(Coh::S, 1),
        view(Coh::O, 3),
        view(Coh::F, 3),
        view(Coh::E, 3),
    ];
    let invalid = [
        view(Coh::S, 3),
        view(Coh::E, 2),
        view(Coh::I, 0),
        view(Coh::I, 1),
    ];
    assert_eq!(rt; oldest(&one), 0);
    assert_eq!(rt; oldest(&stale), 1);
    assert_eq!(rt; oldest(&tied), 1);
    assert_eq!(rt; oldest(&invalid), 2);
}

#[test]
fn a_policy_that_keeps_its_way(rt: HostRuntime) -> Result<(), Fail> {
    let config = Config {
        caches: 1,
        sets: 1,
        ways: 2,
    };
    let way = 1u8;
    let victim = Victim::store(move |views: &[WayView]| -> u8 {
        if (way as usize) < views.len() { way } else { 0 }
    });
    let addr = at(0x40)?;
    let mut cache = Cache::make(rt.alloc(), config, 0, victim)?;
    assert_eq!(rt; cache.choose(0), 1);
    assert_eq!(rt;
        request(&mut cache, Op::Load(addr)),
        Some(Message::rd(0, 1, addr))
    );
    moves(cache);
    Ok(())
}

#[test]
fn a_store_after_a_load(rt: HostRuntime) -> Result<(), Fail> {
    let config = Config {
        caches: 2,
        sets: 1,
        ways: 2,
    };
    let addr = at(0x48)?;
    let blk = Message::blk(1, 0, Coh::E, addr, [5, 6, 7, 8, 0, 0, 0, 0]);
    let mut cache = Cache::make(rt.alloc(), config, 1, Victim::store(oldest))?;
    assert_eq!(rt;
        request(&mut cache, Op::Load(addr)),
        Some(Message::rd(1, 0, addr))
    );
    assert!(rt; cache.busy());
    assert_eq!(rt; request(&mut cache, Op::Evict(addr)), None);
    assert!(rt; cache.has_row(&blk));
    assert_eq!(rt;
        commanded(&mut cache, &blk),
        Some((Some(6), Some(Message::coh_ack(1, addr))))
    );
    assert_eq!(rt; commanded(&mut cache, &blk), None);
    assert_eq!(rt; request(&mut cache, Op::Store(addr, 9)), None);
    assert_eq!(rt; cache.line(0, 0).words[1], 9);
    let st_wb = Message::st_wb(1, Coh::I, addr);
    let wb = Message::wb(1, addr, [5, 9, 7, 8, 0, 0, 0, 0]);
    assert_eq!(rt; commanded(&mut cache, &st_wb), Some((None, Some(wb))));
    Ok(())
}

#[test]
fn a_pinned_way(rt: HostRuntime) -> Result<(), Fail> {
    let config = Config {
        caches: 1,
        sets: 1,
        ways: 4,
    };
    let two = [view(Coh::M, 0), view(Coh::S, 1)];
    assert_eq!(rt; pinned(&two, 1), 1);
    assert_eq!(rt; pinned(&two, 2), 0);
    let way = 3u8;
    let victim = Victim::store(move |views: &[WayView]| -> u8 { pinned(views, way) });
    let cache = Cache::make(rt.alloc(), config, 0, victim)?;
    assert_eq!(rt; cache.choose(0), 3);
    Ok(())
}

#[test]
fn the_word_of_a_recency_list(rt: HostRuntime) -> Result<(), Fail> {
    let config = Config {
        caches: 1,
        sets: 1,
        ways: 4,
    };
    let way = 2u8;
    let victim = Victim::store(move |views: &[WayView]| -> u8 { pinned(views, way) });
    let addr = at(0x40)?;
    let blk = Message::blk(0, way, Coh::E, addr, [7, 0, 0, 0, 0, 0, 0, 0]);
    let mut cache = Cache::make(rt.alloc(), config, 0, victim)?;
    assert_eq!(rt; cache.recency(0), 0x688);
    assert_eq!(rt;
        request(&mut cache, Op::Load(addr)),
        Some(Message::rd(0, way, addr))
    );
    assert_eq!(rt; cache.recency(0), 0x688);
    assert_eq!(rt;
        commanded(&mut cache, &blk),
        Some((Some(7), Some(Message::coh_ack(0, addr))))
    );
    assert_eq!(rt; cache.recency(0), 0x642);
    Ok(())
}
