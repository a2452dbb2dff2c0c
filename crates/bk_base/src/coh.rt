ghost use Rattle.std.specs.Prelude.{◌≡◌};
ghost use Rattle.bk_base.specs.States.{code_of, state_of_code, is_readable, is_writable, is_dirty, is_owner_like, covers};

/// The state of a block in a cache or in the directory, after the MOESI states
/// (Sorin, Hill and Wood, A Primer on Memory Consistency and Cache Coherence).
#[derive(Clone, Copy, Debug, PartialEq, Eq)]
pub enum Coh {
    /// Invalid.
    I,
    /// Shared: a clean copy, others may have one.
    S,
    /// Exclusive: the sole copy, clean.
    E,
    /// Forward: clean and shared, and this holder answers for the block.
    F,
    /// Modified: the sole copy, dirty.
    M,
    /// Owned: dirty and shared, and this holder answers for the block.
    O,
}

impl Coh {
    /// Whether a load may read the copy. This is the same as being valid.
    pub fn readable(self) -> bool
        ensures { result ≡ is_readable self }
    {
        !matches!(self, Coh::I)
    }

    /// Whether a store may write the copy at once.
    pub fn writable(self) -> bool
        ensures { result ≡ is_writable self }
    {
        matches!(self, Coh::E | Coh::M)
    }

    /// Whether the copy may differ from memory, so that it has to be written back.
    pub fn dirty(self) -> bool
        ensures { result ≡ is_dirty self }
    {
        matches!(self, Coh::M | Coh::O)
    }

    /// Whether the holder answers for the block.
    pub fn owner_like(self) -> bool
        ensures { result ≡ is_owner_like self }
    {
        matches!(self, Coh::E | Coh::F | Coh::M | Coh::O)
    }

    /// Whether a directory entry in this state stands for a cache's copy in that state:
    /// the two are equal, or the directory has E and the cache has stored since, so has M.
    pub fn covers(self, cache: Coh) -> bool
        ensures { result ≡ covers self cache }
    {
        match self {
            Coh::E => matches!(cache, Coh::E | Coh::M),
            _ => self == cache,
        }
    }

    /// The number of the state in messages and instruction words.
    pub fn code(self) -> u8
        ensures { result ≡ code_of self }
    {
        match self {
            Coh::I => 0,
            Coh::S => 1,
            Coh::E => 2,
            Coh::F => 3,
            Coh::M => 6,
            Coh::O => 7,
        }
    }

    /// The state with a number, or none for a number off the table.
    pub fn from_code(code: u8) -> Option<Coh>
        ensures { result ≡ state_of_code code }
    {
        match code {
            0 => Some(Coh::I),
            1 => Some(Coh::S),
            2 => Some(Coh::E),
            3 => Some(Coh::F),
            6 => Some(Coh::M),
            7 => Some(Coh::O),
            _ => None,
        }
    }
}
