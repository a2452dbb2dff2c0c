ghost use Rattle.std.specs.Prelude.{◌≡◌, ◌<◌, false};
ghost use Rattle.std.specs.Option.{option_copied};
ghost use Rattle.bk_isa.specs.Operands.{Operands};
ghost use Rattle.bk_engine.specs.Step.{is_plain};
ghost use Rattle.bk_engine.specs.Changes.{after_take, after_pop, after_wait, after_service, core_but_place};

use crate::heads::request_of;
use crate::parts::{Choice, Core, DirtyBlock, Head, Held, NOT_READ, ROW_READ, SUMMED_UP};
use crate::registers::reads_request;
use bk_isa::Form;
use bk_msg::{Message, Row};

/// Keeps or counts what was popped.
fn take(core: &mut Core, request: Option<Held>, message: &Row)
    ensures { core.new ≡ after_take core.old request message.now }
{
    if let Some(held) = request {
        core.held = Some(held);
        return;
    }
    match message {
        Row::InvAck { .. } => core.acks = core.acks.saturating_sub(1),
        Row::Wb { addr, words, .. } => {
            core.dirty = Some(DirtyBlock {
                addr: *addr,
                words: *words,
            })
        }
        Row::Block { words, .. } => core.got = Some(*words),
        _ => (),
    }
}

fn pop(core: &mut Core)
    ensures { core.new ≡ after_pop core.old core.old.head }
{
    let Some(head) = core.head.take() else {
        return;
    };
    let message = head.message.row();
    let request = request_of(head.choice.source, &message);
    take(core, request, &message);
}

fn wait(core: &mut Core, choice: Choice, message: Option<&Message>)
    ensures { core.new ≡ after_wait core.old choice (option_copied message.entry) }
{
    if let Some(message) = message {
        core.head = Some(Head {
            choice,
            message: *message,
        });
    }
}

/// What the instructions on the request do.
fn serve(core: &mut Core, sent: usize, form: Form)
    requires form { Operands form }
    requires plain { is_plain form ≡ false }
    ensures { core.new ≡ after_service core.old sent form }
{
    match form {
        Form::Rdw => core.summ = ROW_READ,
        Form::Gad => core.summ = SUMMED_UP,
        Form::Fin => {
            core.held = None;
            core.summ = NOT_READ;
            core.got = None;
        }
        Form::Inv { .. } => core.acks = core.acks.wrapping_add(sent as u64),
        Form::Memwb => core.dirty = None,
        Form::Mova { .. } => reads_request(core, form),
        Form::Movs { .. } => reads_request(core, form),
        Form::Movw { .. } => reads_request(core, form),
        _ => (),
    }
}

/// What an instruction that isn't plain changes in the engine where it runs, but for the place. `sent` is how many messages it sends.
pub(crate) fn change_core(
    core: &mut Core,
    sent: usize,
    form: Form,
    choice: Choice,
    message: Option<&Message>,
)
    requires form { Operands form }
    requires plain { is_plain form ≡ false }
    ensures { core.new ≡ core_but_place core.old sent form choice (option_copied message.entry) }
{
    match form {
        Form::Wfq { .. } => wait(core, choice, message),
        Form::Popq { .. } => pop(core),
        Form::Defer => core.head = None,
        _ => serve(core, sent, form),
    }
}
