ghost use Rattle.std.specs.Prelude.{◌≡◌, ◌+◌, ◌<◌, ◌≤◌, ℕ, List, OnOk, IfSome, Some, [], ◌∷◌, All, vec_len, vec_capacity, ◌++◌};
ghost use Rattle.std.specs.Option.{option_to_list};
ghost use Rattle.bk_base.specs.declared.op.Done.{Done};
ghost use Rattle.bk_msg.specs.Within.{IsWithin};
ghost use Rattle.bk_msg.specs.Networks.{network_of, receiver_of};
ghost use Rattle.bk_msg.specs.declared.row.Network.TheVariants.{Request, Response, Fill};
ghost use Rattle.bk_msg.specs.declared.row.Row.{Row};
ghost use Rattle.bk_engine.specs.Step.{IsOutward};
ghost use Rattle.bk_system.specs.Channels.{queue, room, channel_count};
ghost use Rattle.bk_system.specs.Events.{requests_with, responses_with, fills_with, commands_with, memout_with};
ghost use Rattle.bk_system.specs.Needs.{command_count, memory_count};
ghost use Rattle.bk_system.specs.Numbering.{fill_place, fills_of, AreCounts};

use crate::channels::Channels;
use crate::hardware::FILL_CHANNELS;
use bk_base::{Done, MOST_CACHES, Op};
use bk_msg::{Message, Network};
use std::alloc::AllocError;

/// How many senders the places of the fill channels to a cache have room for.
pub const SENDERS: u8 = MOST_CACHES;

/// The place of the fill channel to a cache from another.
pub(crate) fn fill_place(to: u8, from: u8) -> u8
    requires to { to < MOST_CACHES }
    requires from { from < MOST_CACHES }
    ensures value { result ≡ fill_place to from }
    ensures within { result < FILL_CHANNELS }
{
    to * SENDERS + from
}

/// Puts what a cache sends, if anything, at the end of its channel, by the message's network. Room was made.
pub(crate) fn send(
    requests: &mut Channels,
    responses: &mut Channels,
    fills: &mut Channels,
    cache: u8,
    sent: &Option<Message>,
)
    requires cache { cache < MOST_CACHES }
    requires caches { fills.old.config.caches ≤ MOST_CACHES }
    requires requests_config { requests.old.config ≡ fills.old.config }
    requires responses_config { responses.old.config ≡ fills.old.config }
    requires request { (m : Row) → sent.now ≡ Some m → network_of m ≡ Request → 1 ≤ room requests.old cache }
    requires response { (m : Row) → sent.now ≡ Some m → network_of m ≡ Response → 1 ≤ room responses.old cache }
    requires fill { (m : Row) → sent.now ≡ Some m → network_of m ≡ Fill
        → 1 ≤ room fills.old (fill_place (receiver_of m) cache) }
    requires within { (m : Row) → sent.now ≡ Some m → IsWithin fills.old.config m }
    ensures requests { queue requests.new ≡ requests_with cache sent.now (queue requests.old) }
    ensures responses { queue responses.new ≡ responses_with cache sent.now (queue responses.old) }
    ensures fills { fills_of (queue fills.new) ≡ fills_with cache sent.now (fills_of (queue fills.old)) }
    ensures requests_count { channel_count requests.new ≡ channel_count requests.old }
    ensures responses_count { channel_count responses.new ≡ channel_count responses.old }
    ensures fills_count { channel_count fills.new ≡ channel_count fills.old }
    ensures requests_config { requests.new.config ≡ requests.old.config }
    ensures responses_config { responses.new.config ≡ responses.old.config }
    ensures fills_config { fills.new.config ≡ fills.old.config }
{
    let Some(message) = sent else {
        return;
    };
    match message.row().network() {
        Network::Request => requests.push(cache, message),
        Network::Response => responses.push(cache, message),
        Network::Fill => fills.push(fill_place(message.row().receiver(), cache), message),
        _ => (),
    }
}

/// Makes room for a message in the fill channel to a peer, if there is one, from a cache. Nothing changes where memory runs out.
pub(crate) fn reserve_fill(
    fills: &mut Channels,
    peer: Option<u8>,
    cache: u8,
) -> Result<(), AllocError>
    requires peer { IfSome peer (λ to. to < MOST_CACHES) }
    requires cache { cache < MOST_CACHES }
    requires count { channel_count fills.old ≡ FILL_CHANNELS }
    ensures queue { queue fills.new ≡ queue fills.old }
    ensures room { OnOk result (IfSome peer (λ to. 1 ≤ room fills.new (fill_place to cache))) }
    ensures count { channel_count fills.new ≡ channel_count fills.old }
    ensures config { fills.new.config ≡ fills.old.config }
{
    match peer {
        None => Ok(()),
        Some(to) => fills.reserve(fill_place(to, cache), 1),
    }
}

/// Makes room for so many messages in each of the channels. Nothing changes where memory runs out.
pub(crate) fn reserve_each(
    channels: &mut Channels,
    count: u8,
    more: usize,
) -> Result<(), AllocError>
    requires { channel_count channels.old ≡ count }
    ensures queue { queue channels.new ≡ queue channels.old }
    ensures room { OnOk result ((c : ℕ) → c < count → more ≤ room channels.new c) }
    ensures count { channel_count channels.new ≡ channel_count channels.old }
    ensures config { channels.new.config ≡ channels.old.config }
{
    for channel in 0..count {
        match channels.reserve(channel, more) {
            Ok(()) => (),
            Err(e) => return Err(e),
        }
    }
    Ok(())
}

/// Adds a completed operation to the history, for which room was made, and counts it for its cache.
fn add_completed(
    completed: &mut Vec<usize>,
    history: &mut Vec<Done>,
    cache: u8,
    op: &Op,
    answer: u64,
)
    requires room { vec_len history.old < vec_capacity history.old }
    requires place { cache < vec_len completed.old }
    requires counted { AreCounts (vec_len completed.old) completed.old.items history.old.items }
    ensures history { history.new.items ≡ history.old.items ++ record { cache = cache; op = op.now; answer = answer } ∷ [] }
    ensures counted { AreCounts (vec_len completed.old) completed.new.items history.new.items }
    ensures len { vec_len completed.new ≡ vec_len completed.old }
{
    completed[cache as usize] += 1;
    let done = Done {
        cache,
        op: *op,
        answer,
    };
    match history.push(done) {
        Ok(()) => (),
        Err(_) => unreachable!(),
    }
}

/// Adds the operation that has completed, if any, to the history, and counts it. Room was made.
pub(crate) fn add_done(
    completed: &mut Vec<usize>,
    history: &mut Vec<Done>,
    cache: u8,
    done: &Option<Done>,
)
    requires room { vec_len history.old < vec_capacity history.old }
    requires place { cache < vec_len completed.old }
    requires own { (d : Done) → done.now ≡ Some d → d.cache ≡ cache }
    requires counted { AreCounts (vec_len completed.old) completed.old.items history.old.items }
    ensures history { history.new.items ≡ history.old.items ++ option_to_list done.now }
    ensures counted { AreCounts (vec_len completed.old) completed.new.items history.new.items }
    ensures len { vec_len completed.new ≡ vec_len completed.old }
{
    if let Some(done) = done {
        add_completed(completed, history, cache, &done.op, done.answer);
    }
}

/// Puts a message of the engine at the end of its channel. Room was made.
fn send_one(commands: &mut Channels, memout: &mut Channels, message: &Message)
    requires commands_room { (c : ℕ) → c < commands.old.config.caches → command_count (message.now ∷ []) ≤ room commands.old c }
    requires memout_room { memory_count (message.now ∷ []) ≤ room memout.old 0 }
    requires within { IsWithin commands.old.config message.now }
    requires same { memout.old.config ≡ commands.old.config }
    ensures commands { (ms : List Row) → commands_with ms (queue commands.new)
        ≡ commands_with (message.now ∷ ms) (queue commands.old) }
    ensures memout { (ms : List Row) → memout_with ms (queue memout.new 0) ≡ memout_with (message.now ∷ ms) (queue memout.old 0) }
    ensures commands_room { (c : ℕ) → room commands.old c ≤ room commands.new c + command_count (message.now ∷ []) }
    ensures memout_room { (c : ℕ) → room memout.old c ≤ room memout.new c + memory_count (message.now ∷ []) }
    ensures commands_count { channel_count commands.new ≡ channel_count commands.old }
    ensures memout_count { channel_count memout.new ≡ channel_count memout.old }
    ensures commands_config { commands.new.config ≡ commands.old.config }
    ensures memout_config { memout.new.config ≡ memout.old.config }
{
    match message.row().network() {
        Network::Command => commands.push(message.row().receiver(), message),
        Network::Memout => memout.push(0, message),
        _ => (),
    }
}

/// Puts the messages of the engine at the ends of their channels, one after the other. Room was made: in each command channel for all
/// that go to caches, and in that to the memory for those that go there.
pub(crate) fn send_all(commands: &mut Channels, memout: &mut Channels, sent: &[Message])
    requires commands_room { (c : ℕ) → c < commands.old.config.caches → command_count sent.now ≤ room commands.old c }
    requires memout_room { memory_count sent.now ≤ room memout.old 0 }
    requires within { All (IsOutward commands.old.config) sent.now }
    requires same { memout.old.config ≡ commands.old.config }
    ensures commands { queue commands.new ≡ commands_with sent.now (queue commands.old) }
    ensures memout { queue memout.new 0 ≡ memout_with sent.now (queue memout.old 0) }
    ensures commands_count { channel_count commands.new ≡ channel_count commands.old }
    ensures memout_count { channel_count memout.new ≡ channel_count memout.old }
    ensures commands_config { commands.new.config ≡ commands.old.config }
    ensures memout_config { memout.new.config ≡ memout.old.config }
{
    for message in sent {
        send_one(commands, memout, message);
    }
}
