//! The values of each field of `Sets`, each as the set of that value alone. Joined by `|` they make any set; behind the
//! values of a field stand the joined sets of it that rules speak of.

/// stage Idle: no request is held.
pub const STAGE_IDLE: u8 = 1 << 0;
/// stage Blocked: none is held, and one whose group is pending was seen.
pub const STAGE_BLOCKED: u8 = 1 << 1;
/// stage Held: a request is held.
pub const STAGE_HELD: u8 = 1 << 2;
/// stage Closing: its grant was sent.
pub const STAGE_CLOSING: u8 = 1 << 3;
/// stage Held or Closing: a request is under way.
pub const STAGE_HELD_CLOSING: u8 = STAGE_HELD | STAGE_CLOSING;
/// Any stage but Blocked.
pub const STAGE_IDLE_HELD_CLOSING: u8 = STAGE_IDLE | STAGE_HELD_CLOSING;

/// head None: there is no such message.
pub const HEAD_NONE: u8 = 1 << 0;
/// head Request: a request.
pub const HEAD_REQUEST: u8 = 1 << 1;
/// head InvAck: an answer to an invalidation.
pub const HEAD_INV_ACK: u8 = 1 << 2;
/// head CohAck: an answer to a grant.
pub const HEAD_COH_ACK: u8 = 1 << 3;
/// head Wb: a write-back with words.
pub const HEAD_WB: u8 = 1 << 4;
/// head NullWb: a write-back without words.
pub const HEAD_NULL_WB: u8 = 1 << 5;
/// head Block: a block from memory.
pub const HEAD_BLOCK: u8 = 1 << 6;
/// head Wb or NullWb: an answer to a flush.
pub const HEAD_WB_NULL_WB: u8 = HEAD_WB | HEAD_NULL_WB;

/// gp free: the bit is clear.
pub const GP_FREE: u8 = 1 << 0;
/// gp pending: the bit is set.
pub const GP_PENDING: u8 = 1 << 1;
/// Either value of gp.
pub const GP_ANY: u8 = GP_FREE | GP_PENDING;

/// kind Rd: a read through the cache.
pub const KIND_RD: u8 = 1 << 0;
/// kind Wr: a write through the cache.
pub const KIND_WR: u8 = 1 << 1;
/// kind UcRd: a read past the cache.
pub const KIND_UC_RD: u8 = 1 << 2;
/// kind UcWr: a write past the cache.
pub const KIND_UC_WR: u8 = 1 << 3;
/// kind Evict: a block is given up.
pub const KIND_EVICT: u8 = 1 << 4;
/// kind Rd or Wr: through the cache.
pub const KIND_RD_WR: u8 = KIND_RD | KIND_WR;
/// kind Rd, Wr or UcRd: those that are answered with words.
pub const KIND_RD_WR_UC_RD: u8 = KIND_RD_WR | KIND_UC_RD;
/// Any kind.
pub const KIND_ANY: u8 = KIND_RD_WR_UC_RD | KIND_UC_WR | KIND_EVICT;

/// summ no: nothing.
pub const SUMM_NO: u8 = 1 << 0;
/// summ row: its row.
pub const SUMM_ROW: u8 = 1 << 1;
/// summ sum: its row, and that was summed up.
pub const SUMM_SUM: u8 = 1 << 2;

/// own I: Invalid.
pub const OWN_I: u8 = 1 << 0;
/// own S: Shared.
pub const OWN_S: u8 = 1 << 1;
/// own E: Exclusive.
pub const OWN_E: u8 = 1 << 2;
/// own F: Forward.
pub const OWN_F: u8 = 1 << 3;
/// own M: Modified.
pub const OWN_M: u8 = 1 << 4;
/// own O: Owned.
pub const OWN_O: u8 = 1 << 5;
/// own I or S.
pub const OWN_I_S: u8 = OWN_I | OWN_S;
/// own I, S or F: no entry that answers for a dirty block.
pub const OWN_I_S_F: u8 = OWN_I_S | OWN_F;
/// own S, F or O: a copy that may be read and not written.
pub const OWN_S_F_O: u8 = OWN_S | OWN_F | OWN_O;
/// own I, S, F or O: no copy that may be written.
pub const OWN_I_S_F_O: u8 = OWN_I | OWN_S_F_O;
/// Any state of own.
pub const OWN_ANY: u8 = OWN_I_S_F_O | OWN_E | OWN_M;

/// owner none: there is no owner.
pub const OWNER_NONE: u8 = 1 << 0;
/// owner E: Exclusive.
pub const OWNER_E: u8 = 1 << 1;
/// owner F: Forward.
pub const OWNER_F: u8 = 1 << 2;
/// owner M: Modified.
pub const OWNER_M: u8 = 1 << 3;
/// owner O: Owned.
pub const OWNER_O: u8 = 1 << 4;
/// owner none or F: no owner has words that memory lacks.
pub const OWNER_NONE_F: u8 = OWNER_NONE | OWNER_F;
/// Any state of the owner.
pub const OWNER_ANY: u8 = OWNER_NONE | OWNER_E | OWNER_F | OWNER_M | OWNER_O;

/// others no: none is.
pub const OTHERS_NO: u8 = 1 << 0;
/// others yes: one is, or more.
pub const OTHERS_YES: u8 = 1 << 1;
/// Either value of others.
pub const OTHERS_ANY: u8 = OTHERS_NO | OTHERS_YES;

/// victim light: nothing that need be written back first.
pub const VICTIM_LIGHT: u8 = 1 << 0;
/// victim heavy: another block, in state E, M or O.
pub const VICTIM_HEAVY: u8 = 1 << 1;
/// Either value of victim.
pub const VICTIM_ANY: u8 = VICTIM_LIGHT | VICTIM_HEAVY;

/// acks zero: none.
pub const ACKS_ZERO: u8 = 1 << 0;
/// acks some: one or more.
pub const ACKS_SOME: u8 = 1 << 1;
/// Either value of acks.
pub const ACKS_ANY: u8 = ACKS_ZERO | ACKS_SOME;

/// wb idle: none is under way.
pub const WB_IDLE: u8 = 1 << 0;
/// wb asked: one was asked for and is unanswered.
pub const WB_ASKED: u8 = 1 << 1;
/// wb dirty: its words are kept.
pub const WB_DIRTY: u8 = 1 << 2;

/// mem idle: none is under way.
pub const MEM_IDLE: u8 = 1 << 0;
/// mem asked: a read was sent.
pub const MEM_ASKED: u8 = 1 << 1;
/// mem got: the block's words are kept.
pub const MEM_GOT: u8 = 1 << 2;
/// mem written: the word was written.
pub const MEM_WRITTEN: u8 = 1 << 3;

/// dreq paid: none.
pub const DREQ_PAID: u8 = 1 << 0;
/// dreq S: Shared.
pub const DREQ_S: u8 = 1 << 1;
/// dreq E: Exclusive.
pub const DREQ_E: u8 = 1 << 2;
/// dreq F: Forward.
pub const DREQ_F: u8 = 1 << 3;
/// dreq M: Modified.
pub const DREQ_M: u8 = 1 << 4;
/// dreq O: Owned.
pub const DREQ_O: u8 = 1 << 5;

/// down paid: none.
pub const DOWN_PAID: u8 = 1 << 0;
/// down I: Invalid.
pub const DOWN_I: u8 = 1 << 1;
/// down S: Shared.
pub const DOWN_S: u8 = 1 << 2;
/// down F: Forward.
pub const DOWN_F: u8 = 1 << 3;
/// down O: Owned.
pub const DOWN_O: u8 = 1 << 4;

/// f0, f1, f2 or f3 is 0.
pub const FLAG_CLEAR: u8 = 1 << 0;
/// f0, f1, f2 or f3 is 1.
pub const FLAG_SET: u8 = 1 << 1;
/// Either value of a flag.
pub const FLAG_ANY: u8 = FLAG_CLEAR | FLAG_SET;
