ghost use Rattle.std.specs.Prelude.{◌≡◌, ◌<◌, length};
ghost use Rattle.std.specs.Option.{option_copied};
ghost use Rattle.bk_isa.specs.Operands.{Operands};
ghost use Rattle.bk_dir.specs.Directories.{contents_of};
ghost use Rattle.bk_engine.specs.Engine.{engine_of};
ghost use Rattle.bk_engine.specs.Heads.{IsSound};
ghost use Rattle.bk_engine.specs.Summed.{IsSummed};
ghost use Rattle.bk_engine.specs.Stops.{halts_unless, wait_stop, pop_stop, branch_stop, entry_stop, named_entry, block_stop, request_stop, push_stop, directory_stop, form_stop, stop_of};

use crate::heads::{
    HEAD_BLOCK, HEAD_INV_ACK, HEAD_OTHER, HEAD_REQUEST, HEAD_WB, head_number, head_value,
    names_class,
};
use crate::parts::{Choice, Core, Head, NOT_READ, ROW_READ};
use crate::reads::{has_own, has_owner, has_victim};
use bk_base::Config;
use bk_dir::{Directory, Summary};
use bk_isa::operand::{
    FIELD_GP, FIELD_KIND, FIELD_OTHERS, FIELD_OWN, FIELD_OWNER, FIELD_VICTIM, WHOSE_OWN,
    WHOSE_OWNER,
};
use bk_isa::{Form, Instr};
use bk_msg::Message;

/// Why an engine halts. An engine that halts changes nothing, and never runs again.
#[derive(Clone, Copy, Debug, PartialEq, Eq)]
pub enum Halt {
    /// There is no instruction at the place.
    NoInstruction,
    /// The head is missing, of the wrong kind, or already held.
    Head,
    /// The request is missing, or one is already held.
    Request,
    /// The directory isn't read far enough for the request.
    Summary,
    /// There is no such entry to act on.
    Target,
    /// A block is missing, or one is already kept.
    Block,
    /// No acknowledgement is to come.
    Acks,
}

/// Why an instruction doesn't run.
#[derive(Clone, Copy, Debug, PartialEq, Eq)]
pub enum Stop {
    /// A `wfq` of these classes has no head offered of one of them.
    Waits(u8),
    Halts(Halt),
}

fn halts_unless(met: bool, reason: Halt, later: Option<Stop>) -> Option<Stop>
    ensures { result ≡ halts_unless met reason later }
{
    if met {
        later
    } else {
        Some(Stop::Halts(reason))
    }
}

fn wait_stop(
    head: &Option<Head>,
    classes: u8,
    choice: Choice,
    message: Option<&Message>,
) -> Option<Stop>
    ensures { result ≡ wait_stop head.now classes choice (option_copied message.entry) }
{
    if head.is_some() {
        return Some(Stop::Halts(Halt::Head));
    }
    match message {
        None => Some(Stop::Waits(classes)),
        Some(_) => {
            if names_class(classes, choice.class) {
                None
            } else {
                Some(Stop::Waits(classes))
            }
        }
    }
}

fn pop_stop(core: &Core) -> Option<Stop>
    ensures { result ≡ pop_stop core.now core.now.head }
{
    let Some(head) = &core.head else {
        return Some(Stop::Halts(Halt::Head));
    };
    match head_number(&head.message.row()) {
        HEAD_REQUEST => halts_unless(core.held.is_none(), Halt::Request, None),
        HEAD_INV_ACK => halts_unless(0 < core.acks, Halt::Acks, None),
        HEAD_WB => halts_unless(core.dirty.is_none(), Halt::Block, None),
        HEAD_OTHER => Some(Stop::Halts(Halt::Head)),
        _ => None,
    }
}

/// Why a `bk` of a field doesn't run, or none where it does.
pub(crate) fn branch_stop(core: &Core, field: u8) -> Option<Stop>
    ensures { result ≡ branch_stop core.now field }
{
    match field {
        FIELD_GP => halts_unless(head_value(&core.head) == HEAD_REQUEST, Halt::Head, None),
        FIELD_KIND => halts_unless(core.held.is_some(), Halt::Request, None),
        FIELD_OWN | FIELD_OWNER | FIELD_OTHERS | FIELD_VICTIM => halts_unless(
            ROW_READ < core.summ,
            Halt::Summary,
            None,
        ),
        _ => None,
    }
}

/// Whether there is such an entry: the requester's own, the owner's, or the victim.
fn named_entry(
    config: Config,
    core: &Core,
    directory: &Directory,
    summed: &Option<Summary>,
    who: u8,
) -> bool
    requires config { directory.now.config ≡ config }
    requires sound { IsSound config core.now }
    requires summed { IsSummed config (contents_of directory.now) core.now.held summed.now }
    ensures { result ≡ named_entry config (contents_of directory.now) core.now.held who }
{
    match who {
        WHOSE_OWN => has_own(config, core, directory, summed),
        WHOSE_OWNER => has_owner(config, core, directory, summed),
        _ => has_victim(config, core, directory, summed),
    }
}

/// The directory is looked at only where it was summed up for the request.
fn entry_stop(
    config: Config,
    core: &Core,
    directory: &Directory,
    summed: &Option<Summary>,
    who: u8,
) -> Option<Stop>
    requires config { directory.now.config ≡ config }
    requires sound { IsSound config core.now }
    requires summed { IsSummed config (contents_of directory.now) core.now.held summed.now }
    ensures { result ≡ entry_stop core.now (named_entry config (contents_of directory.now) core.now.held who) }
{
    if ROW_READ < core.summ {
        let is_there = named_entry(config, core, directory, summed, who);
        halts_unless(is_there, Halt::Target, None)
    } else {
        Some(Stop::Halts(Halt::Summary))
    }
}

fn block_stop(core: &Core) -> Option<Stop>
    ensures { result ≡ block_stop core.now }
{
    let block = halts_unless(core.got.is_some(), Halt::Block, None);
    halts_unless(core.held.is_some(), Halt::Request, block)
}

fn request_stop(core: &Core) -> Option<Stop>
    ensures { result ≡ request_stop core.now }
{
    halts_unless(core.held.is_some(), Halt::Request, None)
}

fn push_stop(core: &Core, form: Form) -> Option<Stop>
    ensures { result ≡ push_stop core.now form }
{
    match form {
        Form::Blk { .. } => block_stop(core),
        Form::Ucblk => block_stop(core),
        Form::Wake => request_stop(core),
        Form::Ucdone => request_stop(core),
        Form::Done => request_stop(core),
        Form::Memrd => request_stop(core),
        Form::Memww => request_stop(core),
        Form::Memwb => halts_unless(core.dirty.is_some(), Halt::Block, None),
        _ => None,
    }
}

fn directory_stop(
    config: Config,
    core: &Core,
    directory: &Directory,
    summed: &Option<Summary>,
    form: Form,
) -> Option<Stop>
    requires config { directory.now.config ≡ config }
    requires sound { IsSound config core.now }
    requires summed { IsSummed config (contents_of directory.now) core.now.held summed.now }
    ensures { result ≡ directory_stop config (engine_of core.now directory.now) form }
{
    match form {
        Form::Rdw => request_stop(core),
        Form::Gad => halts_unless(NOT_READ < core.summ, Halt::Summary, None),
        Form::Wde { .. } => request_stop(core),
        Form::Wds { a, .. } => entry_stop(config, core, directory, summed, a),
        Form::Fin => request_stop(core),
        Form::Inv { .. } => halts_unless(ROW_READ < core.summ, Halt::Summary, None),
        Form::Stwb { a, .. } => entry_stop(config, core, directory, summed, a),
        Form::Tr { .. } => entry_stop(config, core, directory, summed, WHOSE_OWNER),
        _ => push_stop(core, form),
    }
}

/// Why an instruction doesn't run, or none where it does, as `stop_of` says.
pub(crate) fn form_stop(
    config: Config,
    core: &Core,
    directory: &Directory,
    summed: &Option<Summary>,
    form: Form,
    choice: Choice,
    message: Option<&Message>,
) -> Option<Stop>
    requires config { directory.now.config ≡ config }
    requires sound { IsSound config core.now }
    requires summed { IsSummed config (contents_of directory.now) core.now.held summed.now }
    ensures { result ≡ form_stop config (engine_of core.now directory.now) form choice (option_copied message.entry) }
{
    match form {
        Form::Mova { .. } => request_stop(core),
        Form::Movs { .. } => request_stop(core),
        Form::Movw { .. } => request_stop(core),
        Form::Bk { a, .. } => branch_stop(core, a),
        Form::Wfq { a } => wait_stop(&core.head, a, choice, message),
        Form::Popq { .. } => pop_stop(core),
        Form::Defer => halts_unless(head_value(&core.head) == HEAD_REQUEST, Halt::Head, None),
        _ => directory_stop(config, core, directory, summed, form),
    }
}

/// Why the instruction at the engine's place doesn't run, or none where it does. `message` is the head of
/// the channel that the choice names, if it has one; it is looked at by `wfq` alone.
/// Of several reasons to halt the least is answered, in the order of `Halt`.
pub(crate) fn stop_of(
    config: Config,
    core: &Core,
    directory: &Directory,
    summed: &Option<Summary>,
    program: &[Instr],
    choice: Choice,
    message: Option<&Message>,
) -> Option<Stop>
    requires config { directory.now.config ≡ config }
    requires sound { IsSound config core.now }
    requires summed { IsSummed config (contents_of directory.now) core.now.held summed.now }
    ensures { result ≡ stop_of config (engine_of core.now directory.now) program.now choice (option_copied message.entry) }
{
    match program.get(core.place as usize) {
        None => Some(Stop::Halts(Halt::NoInstruction)),
        Some(instr) => form_stop(
            config,
            core,
            directory,
            summed,
            instr.form(),
            choice,
            message,
        ),
    }
}
