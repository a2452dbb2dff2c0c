ghost use Rattle.std.specs.Prelude.{◌≡◌, ◌<◌, ◌≤◌};
ghost use Rattle.bk_base.specs.Places.{tag_limit};

use crate::directory::Directory;
use crate::entry::{Entry, Query, Summary};
use bk_base::{Coh, Config};
use std::test::Fail;

fn entry(tag: u64, state: Coh) -> Entry
    ensures { result.tag ≡ tag }
{
    Entry { tag, state }
}

#[test]
fn a_new_directory_holds_nothing(rt: HostRuntime) -> Result<(), Fail> {
    let config = Config::make(8, 64, 8)?;
    let directory = Directory::make(rt.alloc(), config)?;
    assert_eq!(rt; directory.config.sets, 64);
    assert_eq!(rt; directory.config.caches, 8);
    assert_eq!(rt; directory.config.ways, 8);
    assert_eq!(rt; directory.entry(7, 63, 7), entry(0, Coh::I));
    assert_eq!(rt; directory.find(7, 63, 0), None);
    assert!(rt; !directory.pending(63));
    Ok(())
}

#[test]
fn a_summary_of_four_caches(rt: HostRuntime) -> Result<(), Fail> {
    let mut directory = Directory::make(rt.alloc(), Config::make(4, 2, 2)?)?;
    // The same tag in the other set, and the tag in I, are no copies of the block.
    directory.write_entry(0, 0, 0, entry(9, Coh::M));
    directory.write_entry(1, 1, 0, entry(9, Coh::I));
    directory.write_entry(0, 1, 0, entry(7, Coh::E));
    directory.write_entry(0, 1, 1, entry(9, Coh::S));
    directory.write_entry(1, 1, 1, entry(9, Coh::S));
    directory.write_entry(2, 1, 1, entry(9, Coh::M));
    directory.write_state(2, 1, 1, Coh::O);
    directory.write_entry(3, 1, 0, entry(9, Coh::S));
    let query = Query {
        cache: 0,
        set: 1,
        tag: 9,
        way: 0,
        placed: true,
    };
    let summary = Summary {
        own: Coh::S,
        own_way: 1,
        owner: Some((2, 1)),
        owner_state: Coh::O,
        others: 0b1010,
        victim: Coh::E,
    };
    assert_eq!(rt; directory.summary(query), summary);
    directory.write_state(0, 1, 1, Coh::I);
    let renewed = Summary {
        own: Coh::I,
        own_way: 0,
        ..summary
    };
    assert_eq!(rt; directory.renewed(query, &summary), renewed);
    Ok(())
}

#[test]
fn a_large_tag_stays_within_its_way(rt: HostRuntime) -> Result<(), Fail> {
    let mut directory = Directory::make(rt.alloc(), Config::make(1, 1, 8)?)?;
    directory.write_entry(0, 0, 1, entry(0x3_ffff_ffff, Coh::M));
    let field = 0x3_ffff_ffff << 3 | u128::from(Coh::M.code());
    let words = [0xffff_ffc0_0000_0000, 0x3ff, 0, 0, 0];
    assert_eq!(rt;
        u128::from(words[0]) | u128::from(words[1]) << 64,
        field << 37
    );
    assert_eq!(rt; directory.segment(0, 0), words);
    assert_eq!(rt; directory.entry(0, 0, 0), entry(0, Coh::I));
    assert_eq!(rt; directory.entry(0, 0, 1), entry(0x3_ffff_ffff, Coh::M));
    assert_eq!(rt; directory.entry(0, 0, 2), entry(0, Coh::I));
    Ok(())
}

/// A state for each way, so that neighbours differ.
fn state_for(way: u8) -> Coh {
    match way {
        0 | 5 => Coh::S,
        1 | 6 => Coh::O,
        2 | 7 => Coh::M,
        3 => Coh::E,
        _ => Coh::F,
    }
}

/// Writes each way of cache 1 and set 1 with a tag and a state of its own.
fn write_ways(directory: &mut Directory, top: u64)
    requires caches { 1 < directory.old.config.caches }
    requires sets { 1 < directory.old.config.sets }
    requires ways { directory.old.config.ways ≡ 8 }
    requires below { 7 ≤ top }
    requires above { top < tag_limit directory.old.config }
    ensures { directory.new.config ≡ directory.old.config }
{
    for way in 0..8 {
        directory.write_entry(1, 1, way, entry(top - u64::from(way), state_for(way)));
    }
}

/// Whether each way of cache 1 and set 1 is as `write_ways` wrote it.
fn has_ways(directory: &Directory, top: u64) -> bool
    requires caches { 1 < directory.now.config.caches }
    requires sets { 1 < directory.now.config.sets }
    requires ways { directory.now.config.ways ≡ 8 }
    requires below { 7 ≤ top }
{
    for way in 0..8 {
        if directory.entry(1, 1, way) != entry(top - u64::from(way), state_for(way)) {
            return false;
        }
    }
    true
}

#[test]
fn eight_ways_of_a_segment(rt: HostRuntime) -> Result<(), Fail> {
    let mut directory = Directory::make(rt.alloc(), Config::make(2, 2, 8)?)?;
    write_ways(&mut directory, 0x1_ffff_ffff);
    assert!(rt; has_ways(&directory, 0x1_ffff_ffff));
    let words = [
        0xffff_feef_ffff_fff9,
        0xfff1_3fff_ffff_b9ff,
        0xa2ff_ffff_fdb7_ffff,
        0xffff_fff3_dfff_ffff,
        0x7f_ffff_fe33,
    ];
    assert_eq!(rt; directory.segment(1, 1), words);
    write_ways(&mut directory, 0x1_5555_5555);
    assert!(rt; has_ways(&directory, 0x1_5555_5555));
    let words = [
        0x5555_54ea_aaaa_aaa9,
        0x5549_2aaa_aaaa_7955,
        0x2aa_aaaa_a8b5_5555,
        0xaaaa_aa9f_d555_5555,
        0x55_5555_53b2,
    ];
    assert_eq!(rt; directory.segment(1, 1), words);
    assert_eq!(rt; directory.segment(0, 1), [0; 5]);
    assert_eq!(rt; directory.segment(1, 0), [0; 5]);
    Ok(())
}

#[test]
fn pending_bits(rt: HostRuntime) -> Result<(), Fail> {
    let mut directory = Directory::make(rt.alloc(), Config::make(1, 64, 1)?)?;
    assert_eq!(rt; directory.pending_word(), 0);
    directory.set_pending(0);
    directory.set_pending(5);
    directory.set_pending(63);
    directory.set_pending(5);
    assert_eq!(rt; directory.pending_word(), 0x8000_0000_0000_0021);
    assert!(rt; directory.pending(5));
    assert!(rt; !directory.pending(6));
    directory.clear_pending(5);
    directory.clear_pending(6);
    assert_eq!(rt; directory.pending_word(), 0x8000_0000_0000_0001);
    assert!(rt; directory.pending(63));
    assert!(rt; !directory.pending(5));
    Ok(())
}
