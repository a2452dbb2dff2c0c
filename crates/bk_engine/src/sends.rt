ghost use Rattle.std.specs.Prelude.{◌≡◌, ◌<◌, ◌≤◌, [], true, IfSome};
ghost use Rattle.bk_msg.specs.Within.{IsWay};
ghost use Rattle.bk_dir.specs.Directories.{contents_of};
ghost use Rattle.bk_engine.specs.Engine.{engine_of};
ghost use Rattle.bk_engine.specs.Heads.{IsSound};
ghost use Rattle.bk_engine.specs.Summed.{Tells, IsSummed};
ghost use Rattle.bk_engine.specs.Sends.{HasStates, is_owner, is_invalidated, invs, flush_to, victim_address, flushes, transfer_to, grants, answers_word, writes_back, sends_for, sends_held, sends};
ghost use Rattle.bk_msg.specs.Table.{holds};
ghost use Rattle.bk_msg.specs.declared.table.States.TheVariants.{Lowered, Left, Received, Granted};

use crate::parts::{Core, DirtyBlock, Held};
use crate::reads::summary_for;
use arrayvec::ArrayVec;
use bk_base::{Addr, Coh, Config, MOST_CACHES, MOST_WAYS, group_of, word_of};
use bk_dir::{Directory, Summary};
use bk_isa::Form;
use bk_isa::operand::{WHOSE_OWN, WHOSE_OWNER, WITH_OWNER};
use bk_msg::Message;

/// The messages of an instruction: `inv` alone may send more than one, one for each cache at most. So eight would do; the list
/// of a caller has room for sixteen.
pub(crate) type Sent = ArrayVec<Message, 16>;

fn is_owner(at: Option<(u8, u8)>, cache: u8) -> bool
    ensures { result ≡ is_owner at cache }
{
    match at {
        None => false,
        Some((owner, _)) => cache == owner,
    }
}

/// Whether a cache is sent an invalidation: one of the others, and the owner where it is asked for.
pub(crate) fn is_invalidated(with_owner: bool, summary: &Summary, cache: u8) -> bool
    requires { cache < MOST_CACHES }
    ensures { result ≡ is_invalidated with_owner summary.now cache }
{
    let is_other = (summary.others >> cache) % 2 == 1;
    is_other || (with_owner && is_owner(summary.owner, cache))
}

/// An invalidation to each cache that is sent one, by cache.
fn invs(config: Config, held: &Held, with_owner: bool, summary: &Summary, sent: &mut Sent)
    requires few { config.caches ≤ MOST_CACHES }
    requires empty { sent.old.items ≡ [] }
    ensures { sent.new.items ≡ invs config held.now with_owner summary.now }
{
    for cache in 0..config.caches {
        if is_invalidated(with_owner, summary, cache) {
            sent.push(Message::inv(cache, held.addr));
        }
    }
}

fn flush_to(at: Option<(u8, u8)>, state: Coh, addr: Addr, sent: &mut Sent)
    requires at { IfSome at (λ a. a.0 < MOST_CACHES) }
    requires state { holds Lowered state ≡ true }
    requires empty { sent.old.items ≡ [] }
    ensures { sent.new.items ≡ flush_to at state addr }
{
    match at {
        None => (),
        Some((cache, _)) => sent.push(Message::st_wb(cache, state, addr)),
    }
}

/// The address of the block that stands where the request's is to be placed: its tag is the entry's.
fn victim_address(config: Config, directory: &Directory, held: &Held) -> Addr
    requires config { directory.now.config ≡ config }
    requires way { IsWay config held.now.source held.now.way }
    ensures { result ≡ victim_address config (contents_of directory.now) held.now }
{
    let group = group_of(config, held.addr);
    let tag = directory.entry(held.source, group, held.way).tag;
    Addr::of_block(config, group, tag)
}

/// A flush of an entry: the requester's own, the owner's, or the victim.
fn flushes(
    config: Config,
    directory: &Directory,
    held: &Held,
    summed: &Option<Summary>,
    who: u8,
    state: Coh,
    sent: &mut Sent,
)
    requires config { directory.now.config ≡ config }
    requires summed { Tells config (contents_of directory.now) held.now summed.now }
    requires few { config.caches ≤ MOST_CACHES }
    requires way { IsWay config held.now.source held.now.way }
    requires state { holds Lowered state ≡ true }
    requires empty { sent.old.items ≡ [] }
    ensures { sent.new.items ≡ flushes config (contents_of directory.now) held.now who state }
{
    match who {
        WHOSE_OWN => sent.push(Message::st_wb(held.source, state, held.addr)),
        WHOSE_OWNER => {
            let owner = summary_for(config, directory, held, summed).owner;
            flush_to(owner, state, held.addr, sent)
        }
        _ => {
            let addr = victim_address(config, directory, held);
            sent.push(Message::st_wb(held.source, state, addr))
        }
    }
}

fn transfer_to(held: &Held, at: Option<(u8, u8)>, owner_state: Coh, state: Coh, sent: &mut Sent)
    requires at { IfSome at (λ a. a.0 < MOST_CACHES) }
    requires peer { held.now.source < MOST_CACHES }
    requires way { held.now.way < MOST_WAYS }
    requires owner_state { holds Left owner_state ≡ true }
    requires state { holds Received state ≡ true }
    requires empty { sent.old.items ≡ [] }
    ensures { sent.new.items ≡ transfer_to held.now at owner_state state }
{
    match at {
        None => (),
        Some((cache, _)) => sent.push(Message::st_tr(
            cache,
            owner_state,
            held.source,
            held.way,
            state,
            held.addr,
        )),
    }
}

fn grants(held: &Held, state: Coh, got: &Option<[u64; 8]>, sent: &mut Sent)
    requires source { held.now.source < MOST_CACHES }
    requires way { held.now.way < MOST_WAYS }
    requires state { holds Granted state ≡ true }
    requires empty { sent.old.items ≡ [] }
    ensures { sent.new.items ≡ grants held.now state got.now }
{
    match got {
        None => (),
        Some(words) => sent.push(Message::blk(held.source, held.way, state, held.addr, *words)),
    }
}

fn answers_word(held: &Held, got: &Option<[u64; 8]>, sent: &mut Sent)
    requires source { held.now.source < MOST_CACHES }
    requires empty { sent.old.items ≡ [] }
    ensures { sent.new.items ≡ answers_word held.now got.now }
{
    match got {
        None => (),
        Some(words) => {
            let word = words[word_of(held.addr) as usize];
            sent.push(Message::uc_blk(held.source, held.addr, word))
        }
    }
}

fn writes_back(dirty: &Option<DirtyBlock>, sent: &mut Sent)
    requires empty { sent.old.items ≡ [] }
    ensures { sent.new.items ≡ writes_back dirty.now }
{
    match dirty {
        None => (),
        Some(kept) => sent.push(Message::write(kept.addr, kept.words)),
    }
}

/// The messages that an instruction sends for the held request.
fn sends_for(
    config: Config,
    core: &Core,
    directory: &Directory,
    held: &Held,
    summed: &Option<Summary>,
    form: Form,
    sent: &mut Sent,
)
    requires config { directory.now.config ≡ config }
    requires summed { Tells config (contents_of directory.now) held.now summed.now }
    requires few { config.caches ≤ MOST_CACHES }
    requires few_ways { config.ways ≤ 8 }
    requires way { IsWay config held.now.source held.now.way }
    requires states { HasStates form }
    requires empty { sent.old.items ≡ [] }
    ensures { sent.new.items ≡ sends_for config (engine_of core.now directory.now) held.now form }
{
    match form {
        Form::Inv { a } => invs(
            config,
            held,
            a == WITH_OWNER,
            &summary_for(config, directory, held, summed),
            sent,
        ),
        Form::Stwb { a, b } => flushes(config, directory, held, summed, a, b, sent),
        Form::Tr { a, b } => {
            let owner = summary_for(config, directory, held, summed).owner;
            transfer_to(held, owner, a, b, sent)
        }
        Form::Blk { a } => grants(held, a, &core.got, sent),
        Form::Wake => sent.push(Message::st_wake(held.source, held.way, held.addr)),
        Form::Ucblk => answers_word(held, &core.got, sent),
        Form::Ucdone => sent.push(Message::uc_done(held.source, held.addr)),
        Form::Done => sent.push(Message::done(held.source, held.addr)),
        Form::Memrd => sent.push(Message::read(held.addr)),
        Form::Memww => sent.push(Message::write_word(held.addr, held.value)),
        _ => (),
    }
}

fn sends_held(
    config: Config,
    core: &Core,
    directory: &Directory,
    summed: &Option<Summary>,
    form: Form,
    sent: &mut Sent,
)
    requires config { directory.now.config ≡ config }
    requires sound { IsSound config core.now }
    requires summed { IsSummed config (contents_of directory.now) core.now.held summed.now }
    requires states { HasStates form }
    requires empty { sent.old.items ≡ [] }
    ensures { sent.new.items ≡ sends_held config (engine_of core.now directory.now) core.now.held form }
{
    match &core.held {
        None => (),
        Some(held) => sends_for(config, core, directory, held, summed, form, sent),
    }
}

/// The messages that an instruction sends, in order, where it runs.
pub(crate) fn sends(
    config: Config,
    core: &Core,
    directory: &Directory,
    summed: &Option<Summary>,
    form: Form,
    sent: &mut Sent,
)
    requires config { directory.now.config ≡ config }
    requires sound { IsSound config core.now }
    requires summed { IsSummed config (contents_of directory.now) core.now.held summed.now }
    requires states { HasStates form }
    requires empty { sent.old.items ≡ [] }
    ensures { sent.new.items ≡ sends config (engine_of core.now directory.now) form }
{
    match form {
        Form::Memwb => writes_back(&core.dirty, sent),
        _ => sends_held(config, core, directory, summed, form, sent),
    }
}
