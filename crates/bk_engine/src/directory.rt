ghost use Rattle.std.specs.Prelude.{◌≡◌, ◌<◌, ◌≤◌, ◌^◌, IfSome};
ghost use Rattle.bk_base.specs.Places.{group_of, tag_at, tag_limit};
ghost use Rattle.bk_msg.specs.Within.{IsWay};
ghost use Rattle.bk_dir.specs.Contents.{with_entry};
ghost use Rattle.bk_dir.specs.Directories.{contents_of};
ghost use Rattle.bk_engine.specs.Heads.{head_number, IsSound};
ghost use Rattle.bk_engine.specs.Engine.{engine_of};
ghost use Rattle.bk_engine.specs.Summed.{summary_for, Tells, IsSummed};
ghost use Rattle.bk_engine.specs.Changes.{wiped_entry, with_invalid_block, with_state_at, with_named_state, directory_for, directory_for_held, with_message_mark, with_head_mark, directory_after, with_wiped_ways};

use crate::heads::{HEAD_INV_ACK, HEAD_NULL_WB, HEAD_REQUEST, head_number};
use crate::parts::{Core, Head, Held};
use crate::reads::{query_of, summary_for};
use crate::sends::is_invalidated;
use crate::summed::unshared;
use bk_base::{Coh, Config, MOST_CACHES, group_of, tag_at};
use bk_dir::{Directory, Entry, Summary};
use bk_isa::Form;
use bk_isa::operand::{WHOSE_OWN, WHOSE_OWNER, WITH_MARK, WITH_OWNER};
use bk_msg::Row;

/// An entry in state `I`, where it holds the block with a tag.
fn wiped_entry(tag: u64, entry: Entry) -> Entry
    ensures value { result ≡ wiped_entry tag entry }
    ensures tag { result.tag ≡ entry.tag }
{
    if entry.state.readable() && entry.tag == tag {
        Entry {
            state: Coh::I,
            ..entry
        }
    } else {
        entry
    }
}

/// Puts each entry of a block of a cache into state `I`.
fn wipe_ways(config: Config, directory: &mut Directory, cache: u8, set: u8, tag: u64)
    requires config { directory.old.config ≡ config }
    requires cache { cache < config.caches }
    requires set { set < config.sets }
    ensures state { contents_of directory.new ≡ with_wiped_ways config (contents_of directory.old) cache set tag }
    ensures config { directory.new.config ≡ config }
{
    for way in 0..config.ways {
        let entry = directory.entry(cache, set, way);
        directory.write_entry(cache, set, way, wiped_entry(tag, entry));
    }
}

/// Puts each entry of the request's block into state `I`, of each cache that is sent an invalidation.
fn invalidate(
    config: Config,
    directory: &mut Directory,
    held: &Held,
    with_owner: bool,
    summary: &Summary,
)
    requires config { directory.old.config ≡ config }
    requires few { config.caches ≤ MOST_CACHES }
    requires others { summary.now.others < 2 ^ config.caches }
    requires owner { IfSome summary.now.owner (λ at. at.0 < config.caches) }
    ensures state { contents_of directory.new ≡ with_invalid_block config (contents_of directory.old) held.now with_owner summary.now }
    ensures config { directory.new.config ≡ config }
{
    let group = group_of(config, held.addr);
    let tag = tag_at(config, held.addr);
    for cache in 0..config.caches {
        if is_invalidated(with_owner, summary, cache) {
            wipe_ways(config, directory, cache, group, tag);
        }
    }
}

fn write_state(directory: &mut Directory, set: u8, at: Option<(u8, u8)>, state: Coh)
    requires set { set < directory.old.config.sets }
    requires at { IfSome at (λ a. (a.0 < directory.old.config.caches) × (a.1 < directory.old.config.ways)) }
    ensures state { contents_of directory.new ≡ with_state_at (contents_of directory.old) set at state }
    ensures config { directory.new.config ≡ directory.old.config }
{
    match at {
        None => (),
        Some((cache, way)) => directory.write_state(cache, set, way, state),
    }
}

/// Writes the state of an entry: the requester's own, the owner's, or the victim's.
fn write_named(
    config: Config,
    directory: &mut Directory,
    held: &Held,
    summed: &Option<Summary>,
    who: u8,
    state: Coh,
)
    requires config { directory.old.config ≡ config }
    requires way { IsWay config held.now.source held.now.way }
    requires summed { Tells config (contents_of directory.old) held.now summed.now }
    ensures state { contents_of directory.new ≡ with_named_state config (contents_of directory.old) held.now who state }
    ensures config { directory.new.config ≡ config }
{
    let group = group_of(config, held.addr);
    match who {
        WHOSE_OWN => {
            let way = summary_for(config, directory, held, summed).own_way;
            directory.write_state(held.source, group, way, state);
        }
        WHOSE_OWNER => {
            let owner = summary_for(config, directory, held, summed).owner;
            write_state(directory, group, owner, state);
        }
        _ => directory.write_state(held.source, group, held.way, state),
    }
}

/// Wipes the entries of the block in the caches that are sent an invalidation. What is kept of the directory is renewed without a
/// look at it, or dropped.
fn wipe_others(
    config: Config,
    directory: &mut Directory,
    held: &Held,
    summed: &mut Option<Summary>,
    with_owner: bool,
)
    requires config { directory.old.config ≡ config }
    requires few { config.caches ≤ MOST_CACHES }
    requires way { IsWay config held.now.source held.now.way }
    requires summed { Tells config (contents_of directory.old) held.now summed.old }
    ensures state { let d = contents_of directory.old in
        contents_of directory.new ≡ with_invalid_block config d held.now with_owner (summary_for config d held.now) }
    ensures summed { Tells config (contents_of directory.new) held.now summed.new }
    ensures config { directory.new.config ≡ config }
{
    let summary = summary_for(config, directory, held, summed);
    invalidate(config, directory, held, with_owner, &summary);
    *summed = unshared(with_owner, summary);
}

/// Writes the state of an entry that is asked to be written back. Where it is one of the requester's own, what is kept of the other
/// caches stands, and the rest is read anew.
fn write_flushed(
    config: Config,
    directory: &mut Directory,
    held: &Held,
    summed: &mut Option<Summary>,
    who: u8,
    state: Coh,
)
    requires config { directory.old.config ≡ config }
    requires way { IsWay config held.now.source held.now.way }
    requires summed { Tells config (contents_of directory.old) held.now summed.old }
    ensures state { contents_of directory.new ≡ with_named_state config (contents_of directory.old) held.now who state }
    ensures summed { Tells config (contents_of directory.new) held.now summed.new }
    ensures config { directory.new.config ≡ config }
{
    write_named(config, directory, held, summed, who, state);
    *summed = match summed {
        Some(kept) if who != WHOSE_OWNER => {
            Some(directory.renewed(query_of(config, held), kept))
        }
        _ => None,
    };
}

fn write_own(config: Config, directory: &mut Directory, held: &Held, state: Coh)
    requires config { directory.old.config ≡ config }
    requires way { IsWay config held.now.source held.now.way }
    ensures state { contents_of directory.new
        ≡ with_entry (contents_of directory.old) held.now.source (group_of config held.now.addr) held.now.way
        (record { tag = tag_at config held.now.addr; state = state }) }
    ensures config { directory.new.config ≡ config }
{
    let group = group_of(config, held.addr);
    let tag = tag_at(config, held.addr);
    directory.write_entry(held.source, group, held.way, Entry { tag, state });
}

fn change_for(
    config: Config,
    directory: &mut Directory,
    held: &Held,
    summed: &mut Option<Summary>,
    form: Form,
)
    requires config { directory.old.config ≡ config }
    requires few { config.caches ≤ MOST_CACHES }
    requires way { IsWay config held.now.source held.now.way }
    requires summed { Tells config (contents_of directory.old) held.now summed.old }
    ensures state { contents_of directory.new ≡ directory_for config (contents_of directory.old) held.now form }
    ensures summed { Tells config (contents_of directory.new) held.now summed.new }
    ensures config { directory.new.config ≡ config }
{
    match form {
        Form::Wde { a } => {
            write_own(config, directory, held, a);
            *summed = None;
        }
        Form::Wds { a, b } => {
            write_named(config, directory, held, summed, a, b);
            *summed = None;
        }
        Form::Inv { a } => wipe_others(config, directory, held, summed, a == WITH_OWNER),
        Form::Stwb { a, b } => write_flushed(config, directory, held, summed, a, b),
        _ => (),
    }
}

fn change_held(
    config: Config,
    core: &Core,
    directory: &mut Directory,
    summed: &mut Option<Summary>,
    form: Form,
)
    requires config { directory.old.config ≡ config }
    requires sound { IsSound config core.now }
    requires summed { IsSummed config (contents_of directory.old) core.now.held summed.old }
    ensures state { contents_of directory.new ≡ directory_for_held config (contents_of directory.old) core.now.held form }
    ensures summed { IsSummed config (contents_of directory.new) core.now.held summed.new }
    ensures config { directory.new.config ≡ config }
{
    match &core.held {
        None => (),
        Some(held) => change_for(config, directory, held, summed, form),
    }
}

/// Marks the group of a message that is popped: as pending by a request, as pending no more by an answer of a cache.
fn mark_message(config: Config, directory: &mut Directory, message: &Row)
    requires { directory.old.config ≡ config }
    ensures state { contents_of directory.new
        ≡ with_message_mark config (contents_of directory.old) (head_number message.now) message.now }
    ensures config { directory.new.config ≡ config }
{
    let group = group_of(config, message.address());
    match head_number(message) {
        HEAD_REQUEST => directory.set_pending(group),
        HEAD_INV_ACK..=HEAD_NULL_WB => directory.clear_pending(group),
        _ => (),
    }
}

fn mark_head(config: Config, directory: &mut Directory, head: &Option<Head>)
    requires { directory.old.config ≡ config }
    ensures state { contents_of directory.new ≡ with_head_mark config (contents_of directory.old) head.now }
    ensures config { directory.new.config ≡ config }
{
    match head {
        None => (),
        Some(head) => mark_message(config, directory, &head.message.row()),
    }
}

/// What an instruction that runs changes in the directory, and what stands of what is kept of it. `core` is the engine before it.
#[tactic(auto, using(crate::proofs::Kept::marked_stands))]
pub(crate) fn change_directory(
    config: Config,
    core: &Core,
    directory: &mut Directory,
    summed: &mut Option<Summary>,
    form: Form,
)
    requires config { directory.old.config ≡ config }
    requires sound { IsSound config core.now }
    requires summed { IsSummed config (contents_of directory.old) core.now.held summed.old }
    ensures state { contents_of directory.new ≡ directory_after config (engine_of core.now directory.old) form }
    ensures summed { IsSummed config (contents_of directory.new) core.now.held summed.new }
    ensures config { directory.new.config ≡ config }
{
    match form {
        Form::Popq { a } => {
            if a == WITH_MARK {
                mark_head(config, directory, &core.head);
            }
        }
        _ => change_held(config, core, directory, summed, form),
    }
}
