ghost use Rattle.std.specs.Prelude.{◌≡◌, ◌==◌, ◌&&◌, ◌<◌, ◌≤◌, ◌++◌, Some, IfSome, slice_get, vec_len, vec_capacity};
ghost use Rattle.std.specs.Option.{option_copied};
ghost use Rattle.bk_msg.specs.Within.{IsWithin};
ghost use Rattle.bk_system.specs.Channels.{queue, channel_count};
ghost use Rattle.bk_engine.specs.declared.parts.TheConstants.{CLASS_NONE};
ghost use Rattle.bk_system.specs.Runs.{names_requests};
ghost use Rattle.bk_system.specs.Events.{is_wait, is_choice, offered_among, origins_of, heads_left, memin_left};

use crate::channels::Channels;
use crate::event::Origin;
use bk_base::{Config, group_of};
use bk_engine::{
    CLASS_MEMORY, CLASS_NONE, CLASS_REQUEST, CLASS_RESPONSE, Choice, head_number, names_class,
};
use bk_isa::{Form, Instr};
use bk_msg::Message;

/// Whether the instruction at a place is a `wfq`.
pub(crate) fn is_wait(program: &[Instr], place: u32) -> bool
    ensures { result ≡ is_wait (slice_get program.now place) }
{
    match program.get(place as usize) {
        None => false,
        Some(instr) => matches!(instr.form(), Form::Wfq { .. }),
    }
}

/// Whether the instruction at a place is a `wfq` that names requests.
pub(crate) fn names_requests(program: &[Instr], place: u32) -> bool
    ensures { result ≡ names_requests (slice_get program.now place) }
{
    match program.get(place as usize) {
        None => false,
        Some(instr) => match instr.form() {
            Form::Wfq { a } => names_class(a, CLASS_REQUEST),
            _ => false,
        },
    }
}

/// Whether a choice names no channel: class 0 with source 0.
pub(crate) fn names_none(choice: Choice) -> bool
    ensures { result ≡ (choice.class == CLASS_NONE && choice.source == 0) }
{
    choice.class == CLASS_NONE && choice.source == 0
}

/// Whether an instruction may be run with a choice: `wfq` with any, another with one that names no channel.
pub(crate) fn may_choose(form: Form, choice: Choice) -> bool
    ensures { result ≡ is_choice (Some form) choice }
{
    match form {
        Form::Wfq { .. } => true,
        _ => names_none(choice),
    }
}

/// Whether the instruction at a place may be run with a choice. Where there is none, as one that isn't `wfq`.
pub(crate) fn is_choice(program: &[Instr], place: u32, choice: Choice) -> bool
    ensures { result ≡ is_choice (slice_get program.now place) choice }
{
    match program.get(place as usize) {
        None => names_none(choice),
        Some(instr) => may_choose(instr.form(), choice),
    }
}

/// The head that a choice offers to `wfq`.
pub(crate) fn offered<'a>(
    responses: &'a Channels,
    memin: &'a Channels,
    requests: &'a Channels,
    choice: Choice,
) -> Option<&'a Message>
    requires memin { memin.now.config ≡ responses.now.config }
    requires requests { requests.now.config ≡ responses.now.config }
    ensures value { option_copied result ≡ offered_among (queue responses.now) (queue memin.now 0) (queue requests.now) choice }
    ensures within { IfSome result (λ message. IsWithin responses.now.config message.now) }
{
    match choice.class {
        CLASS_RESPONSE => responses.head(choice.source),
        CLASS_MEMORY => {
            if choice.source == 0 {
                memin.head(0)
            } else {
                None
            }
        }
        CLASS_REQUEST => requests.head(choice.source),
        _ => None,
    }
}

/// Notes the cache and the way group of a popped head, where it has this number as a head. Room was made.
pub(crate) fn note_origin(
    origins: &mut Vec<Origin>,
    config: Config,
    number: u8,
    source: u8,
    head: Option<&Message>,
)
    requires { vec_len origins.old < vec_capacity origins.old }
    ensures { origins.new.items ≡ origins.old.items ++ origins_of config number source (option_copied head.entry) }
{
    let Some(message) = head else {
        return;
    };
    let row = message.row();
    if head_number(&row) == number {
        let origin = Origin {
            cache: source,
            group: group_of(config, row.address()),
        };
        match origins.push(origin) {
            Ok(()) => (),
            Err(_) => unreachable!(),
        }
    }
}

/// Takes the head of a channel off, where the choice is of its class.
pub(crate) fn take_off(channels: &mut Channels, class: u8, choice: Choice)
    requires { choice.source < channel_count channels.old }
    ensures left { queue channels.new ≡ heads_left class (Some choice) (queue channels.old) }
    ensures count { channel_count channels.new ≡ channel_count channels.old }
    ensures config { channels.new.config ≡ channels.old.config }
{
    if choice.class == class {
        channels.drop_head(choice.source);
    }
}

/// Takes the head of the channel from the memory off, where the choice is of its class.
pub(crate) fn take_answer_off(memin: &mut Channels, choice: Choice)
    requires { 0 < channel_count memin.old }
    ensures left { queue memin.new 0 ≡ memin_left (Some choice) (queue memin.old 0) }
    ensures count { channel_count memin.new ≡ channel_count memin.old }
    ensures config { memin.new.config ≡ memin.old.config }
{
    if choice.class == CLASS_MEMORY {
        memin.drop_head(0);
    }
}
