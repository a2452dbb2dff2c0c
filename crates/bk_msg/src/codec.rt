ghost use Rattle.std.specs.Prelude.{◌≡◌, ◌+◌, ◌*◌, ◌≤◌, ◌++◌, ℕ, List, length, Ok, IfOk, IfErr, IsErrAnd};
ghost use Rattle.std.specs.List.{flat_map};
ghost use Rattle.arrayvec.specs.ArrayVec.{array_vec_len};
ghost use Rattle.bk_base.specs.Places.{IsAddr};
ghost use Rattle.bk_msg.specs.Table.{load_bytes, layout_of, size_of};
ghost use Rattle.bk_msg.specs.declared.row.Row.{Row};
ghost use Rattle.bk_msg.specs.Spelling.{word, header, spelling, IsMessage, Begins};
ghost use Rattle.bk_msg.specs.Faults.{IsFaultOf, IsProperFront, IsLeastBad, IsShort, IsBadAt};
ghost use Rattle.bk_msg.specs.Reading.{first_fault, word_at, payload_at, fields_at, decode};

use crate::fault::MsgFault;
use crate::fields::{Fields, Payload, fields_of, row_of};
use crate::kind::Kind;
use crate::message::Message;
use crate::row::Row;
use crate::table::{Load, Rule, layout_of};
use arrayvec::ArrayVec;
use bk_base::Addr;

/// A message on its way: its spelling, of 16, 24 or 80 bytes, and the stamp of the event that sent it. The list has room for more
/// than the longest, which nothing uses.
#[derive(Debug, Drop)]
pub struct Packet {
    pub bytes: ArrayVec<u8, 96>,
    pub stamp: u64,
}

/// Bytes 0 to 7.
fn header(fields: Fields) -> [u8; 8]
    ensures { result ≡ header fields }
{
    [
        fields.kind.code(),
        fields.from,
        fields.to,
        fields.way,
        fields.state,
        fields.peer,
        fields.peer_way,
        fields.peer_state,
    ]
}

/// Appends the bytes, for which there is room.
pub fn push(out: &mut ArrayVec<u8, 96>, bytes: &[u8])
    requires { array_vec_len out.old + length bytes.now ≤ 96 }
    ensures { out.new.items ≡ out.old.items ++ bytes.now }
{
    out.try_extend_from_slice(bytes).unwrap();
}

fn push_words(out: &mut ArrayVec<u8, 96>, words: &[u64])
    requires { array_vec_len out.old + 8 * length words.now ≤ 96 }
    ensures { out.new.items ≡ out.old.items ++ flat_map word words.now }
{
    for number in words {
        push(out, &number.to_le_bytes());
    }
}

/// The bytes of a row (docs/MESSAGES.md): 16, 24 or 80 of them. A row that is in range is a message, and these are its
/// one spelling.
pub fn spell(row: &Row) -> ArrayVec<u8, 96>
    ensures { result.items ≡ spelling row.now }
{
    let copy = *row;
    let fields = fields_of(copy);
    let mut bytes = ArrayVec::new();
    push(&mut bytes, &header(fields));
    push(&mut bytes, &fields.addr.value().to_le_bytes());
    push_words(&mut bytes, fields.payload.words());
    bytes
}

/// The one spelling of a message, and the stamp that goes with it.
pub fn encode(message: &Message, stamp: u64) -> Packet
    ensures bytes { result.bytes.items ≡ spelling message.now }
    ensures stamp { result.stamp ≡ stamp }
{
    let row = message.row();
    Packet {
        bytes: spell(&row),
        stamp,
    }
}

/// The first byte, of those from place 1 on, that its rule doesn't admit.
fn first_fault(rules: &[Rule], bytes: &[u8]) -> Option<MsgFault>
    ensures { result ≡ first_fault 1 rules.now bytes.now }
{
    let mut rest = bytes;
    for (index, rule) in rules.iter().enumerate() {
        let [byte, after @ ..] = rest else {
            return None;
        };
        if !rule.admits(*byte) {
            return Some(rule.fault_at(index + 1));
        }
        rest = after;
    }
    None
}

/// The number of 64 bits at a place, little-endian.
fn word_at(place: usize, bytes: &[u8]) -> u64
    requires { place + 8 ≤ length bytes.now }
    ensures { result ≡ word_at place bytes.now }
{
    let (_front, rest) = bytes.split_at(place);
    let (word, _rest) = rest.split_at(8);
    u64::from_le_bytes([
        word[0], word[1], word[2], word[3], word[4], word[5], word[6], word[7],
    ])
}

fn payload_at(load: Load, bytes: &[u8]) -> Payload
    requires { 16 + load_bytes load ≤ length bytes.now }
    ensures { result ≡ payload_at load bytes.now }
{
    match load {
        Load::Nothing => Payload::Nothing,
        Load::Word => Payload::Word(word_at(16, bytes)),
        Load::Block => Payload::Block([
            word_at(16, bytes),
            word_at(24, bytes),
            word_at(32, bytes),
            word_at(40, bytes),
            word_at(48, bytes),
            word_at(56, bytes),
            word_at(64, bytes),
            word_at(72, bytes),
        ]),
    }
}

/// The fields of a message of a kind, whose length the bytes have.
fn fields_at(kind: Kind, bytes: &[u8]) -> Fields
    requires whole { size_of (layout_of kind) ≤ length bytes.now }
    requires address { IsAddr (word_at 8 bytes.now) }
    ensures { result ≡ fields_at kind bytes.now }
{
    Fields {
        kind,
        from: bytes[1],
        to: bytes[2],
        way: bytes[3],
        state: bytes[4],
        peer: bytes[5],
        peer_way: bytes[6],
        peer_state: bytes[7],
        addr: Addr::make(word_at(8, bytes)).unwrap(),
        payload: payload_at(layout_of(kind).load, bytes),
    }
}

#[tactic(auto, unfolding(crate::specs::Reading::decode))]
fn read(bytes: &[u8]) -> Result<(Message, usize), MsgFault>
    ensures { result ≡ decode bytes.now }
{
    if bytes.is_empty() {
        return Err(MsgFault::Short(1));
    }
    let (_first, rest) = bytes.split_at(1);
    let kind = match Kind::from_code(bytes[0]) {
        Some(kind) => kind,
        None => return Err(MsgFault::Kind(bytes[0])),
    };
    let layout = layout_of(kind);
    if let Some(fault) = first_fault(&layout.rules(), rest) {
        return Err(fault);
    }
    let size = layout.size();
    if bytes.len() < size {
        return Err(MsgFault::Short(size));
    }
    let row = row_of(fields_at(kind, bytes));
    Ok((Message::of(row), size))
}

/// The message that begins the bytes, and how many bytes it has, or the least bad place.
///
/// Fails with `Kind`, `Field` or `Reserved` at the first byte with which the bytes are no longer the
/// front of any message's spelling, and with `Short` where they are the front of one and not the
/// whole. A byte of no field that isn't 0 is `Reserved`; each other one is `Field`, the three bytes
/// of the address that must be 0 among them. Bytes behind the message aren't looked at.
pub fn decode(bytes: &[u8]) -> Result<(Message, usize), MsgFault>
    // What is read is a message that is spelled so.
    ensures found { IfOk result (λ x. Begins x.0 bytes.now × (x.1 ≡ length (spelling x.0))) }
    // What is spelled so is read, whatever follows it.
    ensures only { (m : Row) (rest : List ℕ) → IsMessage m → bytes.now ≡ spelling m ++ rest
        → result ≡ Ok (m, length (spelling m)) }
    // What each fault says.
    ensures faults { IfErr result (λ fault. IsFaultOf bytes.now fault) }
    // A front of a message that isn't the whole is short.
    ensures short { IsProperFront bytes.now → IsErrAnd result IsShort }
    // Bytes that leave all spellings at a place, with no message before it, are bad there.
    ensures bad { (place : ℕ) → IsLeastBad bytes.now place → ((m : Row) → Begins m bytes.now → ⊥)
        → IsErrAnd result (IsBadAt place) }
    // Which fault it is.
    ensures exact { result ≡ decode bytes.now }
{
    read(bytes)
}

/// No message's spelling begins another's, so a stream of spellings is of one list of messages.
pub fn one_spelling()
    ensures { (a b : Row) (x y : List ℕ) → IsMessage a → IsMessage b → spelling a ++ x ≡ spelling b ++ y
        → (a ≡ b) × (x ≡ y) }
{}
