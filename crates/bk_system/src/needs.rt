ghost use Rattle.std.specs.Prelude.{◌≡◌, slice_get};
ghost use Rattle.bk_system.specs.Needs.{need_of, need_with};

use crate::heads::{may_choose, names_none};
use bk_base::MOST_CACHES;
use bk_engine::Choice;
use bk_isa::{Form, Instr};

/// How many invalidations an instruction sends at the most: one to each of the caches.
pub const MOST_INVALIDATIONS: usize = MOST_CACHES as usize;

/// What an instruction may do outside of the engine, for which room is made before it runs. Most do nothing.
#[derive(Clone, Copy, Debug, PartialEq, Eq)]
pub enum Need {
    Nothing,
    /// It sends a message to a cache.
    Command,
    /// It sends messages to several caches, one to each at the most.
    Invalidations,
    /// It sends a message to the memory.
    Memory,
    /// It takes a head off its channel, and its origin may be noted.
    Origin,
}

/// What an instruction of a form may do outside of the engine.
pub(crate) fn need_of(form: Form) -> Need
    ensures { result ≡ need_of form }
{
    match form {
        Form::Popq { .. } => Need::Origin,
        Form::Inv { .. } => Need::Invalidations,
        Form::Stwb { .. } => Need::Command,
        Form::Blk { .. } => Need::Command,
        Form::Wake => Need::Command,
        Form::Tr { .. } => Need::Command,
        Form::Ucblk => Need::Command,
        Form::Ucdone => Need::Command,
        Form::Done => Need::Command,
        Form::Memrd => Need::Memory,
        Form::Memwb => Need::Memory,
        Form::Memww => Need::Memory,
        _ => Need::Nothing,
    }
}

/// What the instruction at a place may do outside of the engine, where it may be run with a choice. Nothing, where there is none.
pub(crate) fn need_with(program: &[Instr], place: u32, choice: Choice) -> Option<Need>
    ensures { result ≡ need_with (slice_get program.now place) choice }
{
    match program.get(place as usize) {
        None => names_none(choice).then_some(Need::Nothing),
        Some(instr) => {
            let form = instr.form();
            may_choose(form, choice).then_some(need_of(form))
        }
    }
}
