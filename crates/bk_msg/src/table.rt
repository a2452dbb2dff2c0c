ghost use Rattle.std.specs.Prelude.{◌≡◌, ◌%◌, ◌==◌};
ghost use Rattle.bk_msg.specs.Table.{holds, admits, fault_at, unit_bytes, load_words, load_bytes, size_of, between, to_engine, to_cache, to_memory, layout_of, rules_of};

use crate::fault::MsgFault;
use crate::kind::Kind;
use crate::row::{ENGINE, MEMORY};
use bk_base::{Coh, MOST_CACHES, MOST_WAYS};

/// Sets of states that a message may carry.
#[derive(Clone, Copy)]
pub enum States {
    /// What a copy is lowered to: I or S.
    Lowered,
    /// What is left of a copy that fills another cache: I, S, F or O.
    Left,
    /// What a cache receives from another: S, F, M or O.
    Received,
    /// What the engine grants: S, E, F or M.
    Granted,
    /// M alone.
    Modified,
}

/// What the address of a message is the address of.
#[derive(Clone, Copy)]
pub enum Unit {
    /// A block: a multiple of 64.
    Block,
    /// A word: a multiple of 8.
    Word,
}

/// What follows the address.
#[derive(Clone, Copy)]
pub enum Load {
    Nothing,
    /// One word.
    Word,
    /// The eight words of a block.
    Block,
}

/// Which bytes may stand at a place.
#[derive(Clone, Copy)]
pub enum Rule {
    /// The kind has no field there: 0 alone.
    Reserved,
    /// The number of a cache, 0 to 15.
    Cache,
    /// The number of a way, 0 to 7.
    Way,
    /// One number alone.
    Only(u8),
    /// The code of a state of the set.
    State(States),
    /// The lowest byte of the address of a block or of a word.
    Aligned(Unit),
    /// Each byte.
    Any,
}

/// What a message of some kind has in bytes 1 to 7, and what follows them.
#[derive(Clone, Copy)]
pub struct Layout {
    pub from: Rule,
    pub to: Rule,
    pub way: Rule,
    pub state: Rule,
    pub peer: Rule,
    pub peer_way: Rule,
    pub peer_state: Rule,
    pub address: Unit,
    pub load: Load,
}

impl States {
    /// Whether the state is one of the set.
    fn holds(self, state: Coh) -> bool
        ensures { result ≡ holds self state }
    {
        match self {
            States::Lowered => matches!(state, Coh::I | Coh::S),
            States::Left => matches!(state, Coh::I | Coh::S | Coh::F | Coh::O),
            States::Received => matches!(state, Coh::S | Coh::F | Coh::M | Coh::O),
            States::Granted => matches!(state, Coh::S | Coh::E | Coh::F | Coh::M),
            States::Modified => matches!(state, Coh::M),
        }
    }
}

impl Unit {
    /// Whether the number is a multiple of the unit.
    pub fn divides(self, addr: u64) -> bool
        ensures { result ≡ (addr % unit_bytes self == 0) }
    {
        match self {
            Unit::Block => addr % 64 == 0,
            Unit::Word => addr % 8 == 0,
        }
    }
}

impl Load {
    /// How many words it has.
    pub fn words(self) -> usize
        ensures { result ≡ load_words self }
    {
        match self {
            Load::Nothing => 0,
            Load::Word => 1,
            Load::Block => 8,
        }
    }

    /// How many bytes it has.
    fn bytes(self) -> usize
        ensures { result ≡ load_bytes self }
    {
        8 * self.words()
    }
}

impl Rule {
    /// Whether the byte may stand there.
    pub fn admits(self, byte: u8) -> bool
        ensures { result ≡ admits self byte }
    {
        match self {
            Rule::Reserved => byte == 0,
            Rule::Cache => byte < MOST_CACHES,
            Rule::Way => byte < MOST_WAYS,
            Rule::Only(number) => byte == number,
            Rule::State(states) => match Coh::from_code(byte) {
                Some(state) => states.holds(state),
                None => false,
            },
            Rule::Aligned(Unit::Block) => byte % 64 == 0,
            Rule::Aligned(Unit::Word) => byte % 8 == 0,
            Rule::Any => true,
        }
    }

    /// The fault of a byte at a place, where it may not stand there.
    pub fn fault_at(self, place: usize) -> MsgFault
        ensures { result ≡ fault_at self place }
    {
        match self {
            Rule::Reserved => MsgFault::Reserved(place),
            _ => MsgFault::Field(place),
        }
    }
}

/// Only the two ends and an address of the unit are named, and nothing follows.
fn between(from: Rule, to: Rule, address: Unit) -> Layout
    ensures { result ≡ between from to address }
{
    Layout {
        from,
        to,
        way: Rule::Reserved,
        state: Rule::Reserved,
        peer: Rule::Reserved,
        peer_way: Rule::Reserved,
        peer_state: Rule::Reserved,
        address,
        load: Load::Nothing,
    }
}

/// From a cache to the engine.
fn to_engine(address: Unit) -> Layout
    ensures { result ≡ to_engine address }
{
    between(Rule::Cache, Rule::Only(ENGINE), address)
}

/// From the engine to a cache.
fn to_cache(address: Unit) -> Layout
    ensures { result ≡ to_cache address }
{
    between(Rule::Only(ENGINE), Rule::Cache, address)
}

/// From the engine to the memory.
fn to_memory(address: Unit) -> Layout
    ensures { result ≡ to_memory address }
{
    between(Rule::Only(ENGINE), Rule::Only(MEMORY), address)
}

/// The table of the kinds: each line has what the kind has besides the two ends and the address.
pub fn layout_of(kind: Kind) -> Layout
    ensures { result ≡ layout_of kind }
{
    match kind {
        Kind::Rd => Layout {
            way: Rule::Way,
            ..to_engine(Unit::Block)
        },
        Kind::Wr => Layout {
            way: Rule::Way,
            ..to_engine(Unit::Block)
        },
        Kind::UcRd => to_engine(Unit::Word),
        Kind::UcWr => Layout {
            load: Load::Word,
            ..to_engine(Unit::Word)
        },
        Kind::Evict => Layout {
            way: Rule::Way,
            ..to_engine(Unit::Block)
        },
        Kind::Inv => to_cache(Unit::Block),
        Kind::StWb => Layout {
            state: Rule::State(States::Lowered),
            ..to_cache(Unit::Block)
        },
        Kind::StTr => Layout {
            state: Rule::State(States::Left),
            peer: Rule::Cache,
            peer_way: Rule::Way,
            peer_state: Rule::State(States::Received),
            ..to_cache(Unit::Block)
        },
        Kind::Blk => Layout {
            way: Rule::Way,
            state: Rule::State(States::Granted),
            load: Load::Block,
            ..to_cache(Unit::Block)
        },
        Kind::StWake => Layout {
            way: Rule::Way,
            state: Rule::State(States::Modified),
            ..to_cache(Unit::Block)
        },
        Kind::UcBlk => Layout {
            load: Load::Word,
            ..to_cache(Unit::Word)
        },
        Kind::UcDone => to_cache(Unit::Word),
        Kind::Done => to_cache(Unit::Block),
        Kind::Fill => Layout {
            way: Rule::Way,
            state: Rule::State(States::Received),
            load: Load::Block,
            ..between(Rule::Cache, Rule::Cache, Unit::Block)
        },
        Kind::InvAck => to_engine(Unit::Block),
        Kind::CohAck => to_engine(Unit::Block),
        Kind::Wb => Layout {
            load: Load::Block,
            ..to_engine(Unit::Block)
        },
        Kind::NullWb => to_engine(Unit::Block),
        Kind::Read => to_memory(Unit::Block),
        Kind::Write => Layout {
            load: Load::Block,
            ..to_memory(Unit::Block)
        },
        Kind::WriteWord => Layout {
            load: Load::Word,
            ..to_memory(Unit::Word)
        },
        Kind::Block => Layout {
            load: Load::Block,
            ..between(Rule::Only(MEMORY), Rule::Only(ENGINE), Unit::Block)
        },
    }
}

impl Layout {
    /// What may stand in bytes 1 to 15: the seven fields, and the address, which is below 2^40.
    pub fn rules(self) -> [Rule; 15]
        ensures { result ≡ rules_of self }
    {
        [
            self.from,
            self.to,
            self.way,
            self.state,
            self.peer,
            self.peer_way,
            self.peer_state,
            Rule::Aligned(self.address),
            Rule::Any,
            Rule::Any,
            Rule::Any,
            Rule::Any,
            Rule::Only(0),
            Rule::Only(0),
            Rule::Only(0),
        ]
    }

    /// How many bytes a message has.
    pub fn size(self) -> usize
        ensures { result ≡ size_of self }
    {
        16 + self.load.bytes()
    }
}
