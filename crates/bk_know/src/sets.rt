ghost use Rattle.std.specs.Prelude.{◌≡◌, ◌==◌};
ghost use Rattle.bk_know.specs.Sets.{field, subset, within, union, any_empty};

use crate::fields::{
    FIELD_ACKS, FIELD_DOWN, FIELD_DREQ, FIELD_F0, FIELD_F1, FIELD_F2, FIELD_GP, FIELD_HEAD,
    FIELD_KIND, FIELD_MEM, FIELD_OTHERS, FIELD_OWN, FIELD_OWNER, FIELD_STAGE, FIELD_SUMM,
    FIELD_VICTIM, FIELD_WB,
};

/// What an engine may be like at a place: for each field the set of its possible values.
///
/// Bit v of a set stands for value v of the field, counted from 0, in the order given at the field; `values` names
/// them. A set is below 2 to the number of the field's values. The fields are numbered from 1, in the order below; `fields`
/// names the numbers.
#[derive(Clone, Copy, Debug, PartialEq, Eq)]
pub struct Sets {
    /// Field 1. What the engine is doing with requests.
    /// Values in order: Idle, no request is held; Blocked, none is held, and one whose group is pending was seen; Held,
    /// a request is held; Closing, its grant was sent.
    pub stage: u8,
    /// Field 2. The kind of the message that the engine took a copy of and has not yet removed or deferred.
    /// Values in order: None, there is no such message; Request, a request; InvAck, an answer to an invalidation;
    /// CohAck, an answer to a grant; Wb, a write-back with words; NullWb, a write-back without words; Block, a block
    /// from memory.
    pub head: u8,
    /// Field 3. The pending bit of the group of a head Request.
    /// Values in order: free, the bit is clear; pending, the bit is set.
    pub gp: u8,
    /// Field 4. The kind of the held request.
    /// Values in order: Rd, a read through the cache; Wr, a write through the cache; UcRd, a read past the cache; UcWr,
    /// a write past the cache; Evict, a block is given up.
    pub kind: u8,
    /// Field 5. How much of the directory was read for the held request.
    /// Values in order: no, nothing; row, its row; sum, its row, and that was summed up.
    pub summ: u8,
    /// Field 6. The state that the requester's entry of the block has in the directory.
    /// Values in order: I; S; E; F; M; O.
    pub own: u8,
    /// Field 7. The state of the owner's entry: the first other cache's that answers for the block.
    /// Values in order: none, there is no owner; E; F; M; O.
    pub owner: u8,
    /// Field 8. Whether another cache's entry of the block is Shared.
    /// Values in order: no, none is; yes, one is, or more.
    pub others: u8,
    /// Field 9. What the way that a Rd or Wr names holds in the directory.
    /// Values in order: light, nothing that need be written back first; heavy, another block, in state E, M or O.
    pub victim: u8,
    /// Field 10. How many invalidations are unanswered.
    /// Values in order: zero, none; some, one or more.
    pub acks: u8,
    /// Field 11. The write-back.
    /// Values in order: idle, none is under way; asked, one was asked for and is unanswered; dirty, its words are kept.
    pub wb: u8,
    /// Field 12. The work of memory for the held request.
    /// Values in order: idle, none is under way; asked, a read was sent; got, the block's words are kept; written, the
    /// word was written.
    pub mem: u8,
    /// Field 13. The directory's debt to the requester: the state that its entry must still be given.
    /// Values in order: paid, none; S; E; F; M; O.
    pub dreq: u8,
    /// Field 14. The directory's debt to the owner: the state that its entry must still be given.
    /// Values in order: paid, none; I; S; F; O.
    pub down: u8,
    /// Field 15. Flag 0.
    /// Values in order: 0, the flag is clear; 1, it is set.
    pub f0: u8,
    /// Field 16. Flag 1.
    /// Values in order: 0, the flag is clear; 1, it is set.
    pub f1: u8,
    /// Field 17. Flag 2.
    /// Values in order: 0, the flag is clear; 1, it is set.
    pub f2: u8,
    /// Field 18. Flag 3.
    /// Values in order: 0, the flag is clear; 1, it is set.
    pub f3: u8,
}

/// The set of the field with this number: 1 is stage, 17 is f2, and every other number means f3, whose number is 18.
pub fn field(sets: Sets, number: u8) -> u8
    ensures { result ≡ field sets number }
{
    match number {
        FIELD_STAGE => sets.stage,
        FIELD_HEAD => sets.head,
        FIELD_GP => sets.gp,
        FIELD_KIND => sets.kind,
        FIELD_SUMM => sets.summ,
        FIELD_OWN => sets.own,
        FIELD_OWNER => sets.owner,
        FIELD_OTHERS => sets.others,
        FIELD_VICTIM => sets.victim,
        FIELD_ACKS => sets.acks,
        FIELD_WB => sets.wb,
        FIELD_MEM => sets.mem,
        FIELD_DREQ => sets.dreq,
        FIELD_DOWN => sets.down,
        FIELD_F0 => sets.f0,
        FIELD_F1 => sets.f1,
        FIELD_F2 => sets.f2,
        _ => sets.f3,
    }
}

/// Whether each value of set `a` is in set `b`.
pub fn subset(a: u8, b: u8) -> bool
    ensures { result ≡ subset a b }
{
    a & b == a
}

/// Whether each field's set in `a` is a subset of that in `b`.
pub fn within(a: Sets, b: Sets) -> bool
    ensures { result ≡ within a b }
{
    subset(a.stage, b.stage)
        && subset(a.head, b.head)
        && subset(a.gp, b.gp)
        && subset(a.kind, b.kind)
        && subset(a.summ, b.summ)
        && subset(a.own, b.own)
        && subset(a.owner, b.owner)
        && subset(a.others, b.others)
        && subset(a.victim, b.victim)
        && subset(a.acks, b.acks)
        && subset(a.wb, b.wb)
        && subset(a.mem, b.mem)
        && subset(a.dreq, b.dreq)
        && subset(a.down, b.down)
        && subset(a.f0, b.f0)
        && subset(a.f1, b.f1)
        && subset(a.f2, b.f2)
        && subset(a.f3, b.f3)
}

/// Whether a set has no value.
fn is_empty(set: u8) -> bool
    ensures { result ≡ (set == 0) }
{
    set == 0
}

/// Whether some field has no value, so that no engine is like this.
pub fn any_empty(s: Sets) -> bool
    ensures { result ≡ any_empty s }
{
    is_empty(s.stage)
        || is_empty(s.head)
        || is_empty(s.gp)
        || is_empty(s.kind)
        || is_empty(s.summ)
        || is_empty(s.own)
        || is_empty(s.owner)
        || is_empty(s.others)
        || is_empty(s.victim)
        || is_empty(s.acks)
        || is_empty(s.wb)
        || is_empty(s.mem)
        || is_empty(s.dreq)
        || is_empty(s.down)
        || is_empty(s.f0)
        || is_empty(s.f1)
        || is_empty(s.f2)
        || is_empty(s.f3)
}

/// Field by field the values of both.
pub fn union(a: Sets, b: Sets) -> Sets
    ensures { result ≡ union a b }
{
    Sets {
        stage: a.stage | b.stage,
        head: a.head | b.head,
        gp: a.gp | b.gp,
        kind: a.kind | b.kind,
        summ: a.summ | b.summ,
        own: a.own | b.own,
        owner: a.owner | b.owner,
        others: a.others | b.others,
        victim: a.victim | b.victim,
        acks: a.acks | b.acks,
        wb: a.wb | b.wb,
        mem: a.mem | b.mem,
        dreq: a.dreq | b.dreq,
        down: a.down | b.down,
        f0: a.f0 | b.f0,
        f1: a.f1 | b.f1,
        f2: a.f2 | b.f2,
        f3: a.f3 | b.f3,
    }
}
