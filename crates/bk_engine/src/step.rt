ghost use Rattle.std.specs.Prelude.{◌≡◌, ◌<◌, Some, None, [], true, false, All, IfSome};
ghost use Rattle.std.specs.Option.{option_copied};
ghost use Rattle.bk_isa.specs.Operands.{Operands};
ghost use Rattle.bk_msg.specs.declared.row.Row.{Row};
ghost use Rattle.bk_msg.specs.Within.{IsWithin};
ghost use Rattle.bk_dir.specs.Contents.{Contents};
ghost use Rattle.bk_dir.specs.Directories.{contents_of};
ghost use Rattle.bk_engine.specs.Changes.{next_place};
ghost use Rattle.bk_engine.specs.Engine.{engine_of};
ghost use Rattle.bk_engine.specs.Heads.{IsSound};
ghost use Rattle.bk_engine.specs.Sends.{HasStates};
ghost use Rattle.bk_engine.specs.Step.{IsOutward, choice_of, pops, ran, is_plain, next_plain, after_plain, branch_runs};
ghost use Rattle.bk_engine.specs.Stops.{form_stop};
ghost use Rattle.bk_engine.specs.Summed.{IsSummed};

use crate::changes::change_core;
use crate::directory::change_directory;
use crate::heads::has_value;
use crate::parts::{Choice, Core, Head};
use crate::reads::{compares, field_value, target};
use crate::registers::flags_set;
use crate::sends::{Sent, sends};
use crate::stop::branch_stop;
use crate::summed::drop_summary;
use bk_base::Config;
use bk_dir::{Directory, Summary};
use bk_isa::Form;
use bk_msg::Message;

fn choice_of(head: &Option<Head>) -> Option<Choice>
    ensures { result ≡ choice_of head.now }
{
    match head {
        None => None,
        Some(head) => Some(head.choice),
    }
}

/// The head that an instruction takes off its channel.
fn pops(core: &Core, form: Form) -> Option<Choice>
    ensures { (d : Contents) → result ≡ pops (record { core = core.now; directory = d }) form }
{
    match form {
        Form::Popq { .. } => choice_of(&core.head),
        _ => None,
    }
}

/// Whether an instruction is on registers and flags alone, or a branch on registers. Such a one always runs.
pub(crate) fn is_plain(form: Form) -> bool
    ensures { result ≡ is_plain form }
{
    match form {
        Form::Mova { .. } => false,
        Form::Movs { .. } => false,
        Form::Movw { .. } => false,
        Form::Bk { .. } => false,
        Form::Rdw => false,
        Form::Gad => false,
        Form::Wde { .. } => false,
        Form::Wds { .. } => false,
        Form::Fin => false,
        Form::Wfq { .. } => false,
        Form::Popq { .. } => false,
        Form::Defer => false,
        Form::Inv { .. } => false,
        Form::Stwb { .. } => false,
        Form::Blk { .. } => false,
        Form::Wake => false,
        Form::Tr { .. } => false,
        Form::Ucblk => false,
        Form::Ucdone => false,
        Form::Done => false,
        Form::Memrd => false,
        Form::Memwb => false,
        Form::Memww => false,
        _ => true,
    }
}

fn next_plain(core: &Core, form: Form) -> u32
    requires form { Operands form }
    requires place { core.now.place < 256 }
    ensures { result ≡ next_plain core.now form }
{
    if compares(core, form) {
        target(form)
    } else {
        core.place + 1
    }
}

/// Runs a plain instruction. Most instructions are plain: they are spared the ways of all the others.
pub(crate) fn run_plain(core: &mut Core, form: Form)
    requires form { Operands form }
    requires place { core.old.place < 256 }
    ensures { core.new ≡ after_plain core.old form }
{
    let next = next_plain(core, form);
    flags_set(core, form);
    core.place = next;
}

/// Whether an instruction is a branch on what is known of the request, `bk`, that has no reason not to run.
pub(crate) fn branch_runs(core: &Core, form: Form) -> bool
    ensures { result ≡ branch_runs core.now form }
{
    match form {
        Form::Bk { a, .. } => branch_stop(core, a).is_none(),
        _ => false,
    }
}

/// Runs a `bk` that has no reason not to run: it asks whether field `a` has one of the values `b`.
pub(crate) fn run_branch(
    config: Config,
    core: &mut Core,
    directory: &Directory,
    summed: &Option<Summary>,
    form: Form,
)
    requires config { directory.now.config ≡ config }
    requires sound { IsSound config core.old }
    requires summed { IsSummed config (contents_of directory.now) core.old.held summed.now }
    requires branch { branch_runs core.old form ≡ true }
    requires place { core.old.place < 256 }
    ensures { core.new ≡ record core.old { place = next_place config (engine_of core.old directory.now) form } }
{
    if let Form::Bk { a, b, imm } = form {
        let value = field_value(config, core, directory, summed, a);
        core.place = if has_value(b, value) {
            imm
        } else {
            core.place + 1
        };
    }
}

/// Runs any other instruction that has no reason not to run, and answers the head that it takes off its channel. The messages that it
/// sends are put into `sent`. All that it reads is read before the first write.
#[tactic(auto, using(crate::proofs::Outward::sent_outward, crate::proofs::Kept::next_is))]
pub(crate) fn run(
    config: Config,
    core: &mut Core,
    directory: &mut Directory,
    summed: &mut Option<Summary>,
    form: Form,
    choice: Choice,
    message: Option<&Message>,
    sent: &mut Sent,
) -> Option<Choice>
    requires config { directory.old.config ≡ config }
    requires sound { IsSound config core.old }
    requires summed { IsSummed config (contents_of directory.old) core.old.held summed.old }
    requires form { Operands form }
    requires states { HasStates form }
    requires place { core.old.place < 256 }
    requires ways { 0 < config.ways }
    requires source { choice.source < config.caches }
    requires within { (m : Row) → option_copied message ≡ Some m → IsWithin config m }
    requires plain { is_plain form ≡ false }
    requires branch { branch_runs core.old form ≡ false }
    requires runs { form_stop config (engine_of core.old directory.old) form choice (option_copied message) ≡ None }
    requires empty { sent.old.items ≡ [] }
    ensures ran { ran config (engine_of core.old directory.old) form choice (option_copied message.entry)
        ≡ record { engine = engine_of core.new directory.new; sent = sent.new.items; popped = result } }
    ensures sound { IsSound config core.new }
    ensures summed { IsSummed config (contents_of directory.new) core.new.held summed.new }
    ensures sends { All (IsOutward config) sent.new.items }
    ensures pops { IfSome result (λ popped. popped.source < config.caches) }
    ensures config { directory.new.config ≡ config }
{
    let popped = pops(core, form);
    let next = core.place + 1;
    sends(config, core, directory, summed, form, sent);
    change_directory(config, core, directory, summed, form);
    change_core(core, sent.len(), form, choice, message);
    drop_summary(core, summed);
    core.place = next;
    popped
}
