//! The obligations on waiting for a message and taking it, and on reading and asking: 5 to 15.
//! "Is" means that a field has that value alone, "in" that it has no other values.

ghost use Rattle.std.specs.Prelude.{◌≡◌};
ghost use Rattle.bk_check.specs.Obligations.{implies, single_stage, single_head, obligation_5, awaits, obligation_6, obligation_7, obligation_8, marks, obligation_9, is_summed, may_branch, obligation_10, sends, is_send, may_read, obligation_11, may_flush_own, may_flush_victim, may_flush, obligation_12, obligation_13, obligation_14, obligation_15};

use bk_base::Coh;
use bk_flow::{lacks, may};
use bk_isa::Form;
use bk_isa::operand::{
    CLASS_MEMORY, CLASS_REQUESTS, CLASS_RESPONSES, CLASS_RESPONSES_REQUESTS, PLAIN, WHOSE_OWN,
    WHOSE_OWNER, WITH_MARK, WITH_OWNER,
};
use bk_know::fields::{FIELD_GP, FIELD_KIND, FIELD_OTHERS, FIELD_OWN, FIELD_OWNER, FIELD_VICTIM};
use bk_know::values::{
    ACKS_SOME, ACKS_ZERO, GP_FREE, GP_PENDING, HEAD_BLOCK, HEAD_COH_ACK, HEAD_INV_ACK, HEAD_NONE,
    HEAD_NULL_WB, HEAD_REQUEST, HEAD_WB, KIND_RD_WR_UC_RD, KIND_UC_WR, MEM_ASKED, MEM_IDLE,
    OTHERS_NO, OWN_I, OWN_I_S, OWN_I_S_F, OWNER_NONE, OWNER_NONE_F, STAGE_BLOCKED, STAGE_CLOSING,
    STAGE_HELD, STAGE_HELD_CLOSING, STAGE_IDLE, SUMM_NO, SUMM_ROW, SUMM_SUM, VICTIM_HEAVY,
    WB_ASKED, WB_IDLE,
};
use bk_know::{Sets, subset};

/// Whether the second holds where the first does.
pub fn implies(p: bool, q: bool) -> bool
    ensures { result ≡ implies p q }
{
    !p || q
}

fn single_stage(stage: u8) -> bool
    ensures { result ≡ single_stage stage }
{
    stage == STAGE_IDLE || stage == STAGE_BLOCKED || stage == STAGE_HELD || stage == STAGE_CLOSING
}

/// Whether the head is one kind of message, and not none.
fn single_head(head: u8) -> bool
    ensures { result ≡ single_head head }
{
    head == HEAD_REQUEST
        || head == HEAD_INV_ACK
        || head == HEAD_COH_ACK
        || head == HEAD_WB
        || head == HEAD_NULL_WB
        || head == HEAD_BLOCK
}

/// `wfq`: head is None; stage has one value; where it is Idle the classes are responses and
/// requests.
pub fn obligation_5(form: Form, sets: Sets) -> bool
    ensures { result ≡ obligation_5 form sets }
{
    match form {
        Form::Wfq { a } => sets.head == HEAD_NONE
            && single_stage(sets.stage)
            && implies(sets.stage == STAGE_IDLE, a == CLASS_RESPONSES_REQUESTS),
        _ => true,
    }
}

/// Whether a message of a named class will come: an acknowledgement or a write-back is owed, or a
/// block was asked of memory.
fn awaits(classes: u8, sets: Sets) -> bool
    ensures { result ≡ awaits classes sets }
{
    may(classes, CLASS_RESPONSES) && (sets.acks == ACKS_SOME || sets.wb == WB_ASKED)
        || may(classes, CLASS_MEMORY) && sets.mem == MEM_ASKED
}

/// `wfq` in Blocked names responses alone. In Held it doesn't name requests, and a message of a
/// named class will come.
pub fn obligation_6(form: Form, sets: Sets) -> bool
    ensures { result ≡ obligation_6 form sets }
{
    match form {
        Form::Wfq { a } => {
            implies(sets.stage == STAGE_BLOCKED, a == CLASS_RESPONSES)
                && implies(
                    sets.stage == STAGE_HELD,
                    lacks(a, CLASS_REQUESTS) && awaits(a, sets),
                )
        }
        _ => true,
    }
}

/// `popq`: head has one value, not None.
pub fn obligation_7(form: Form, sets: Sets) -> bool
    ensures { result ≡ obligation_7 form sets }
{
    match form {
        Form::Popq { .. } => single_head(sets.head),
        _ => true,
    }
}

/// `popq` of a Request: stage is Idle, gp is free. `defer`: stage is Idle, head is Request, gp is
/// pending.
pub fn obligation_8(form: Form, sets: Sets) -> bool
    ensures { result ≡ obligation_8 form sets }
{
    match form {
        Form::Popq { .. } => implies(
            sets.head == HEAD_REQUEST,
            sets.stage == STAGE_IDLE && sets.gp == GP_FREE,
        ),
        Form::Defer => sets.stage == STAGE_IDLE
            && sets.head == HEAD_REQUEST
            && sets.gp == GP_PENDING,
        _ => true,
    }
}

/// Whether the head begins or ends a group's transaction.
fn marks(sets: Sets) -> bool
    ensures { result ≡ marks sets }
{
    sets.head == HEAD_REQUEST || sets.head == HEAD_COH_ACK
}

/// `popq` has `wp` on a Request and on a CohAck.
pub fn obligation_9(form: Form, sets: Sets) -> bool
    ensures { result ≡ obligation_9 form sets }
{
    match form {
        Form::Popq { a } => implies(marks(sets), a == WITH_MARK),
        _ => true,
    }
}

/// Whether the field is one of those that the directory's row is summed up to.
fn is_summed(number: u8) -> bool
    ensures { result ≡ is_summed number }
{
    number == FIELD_OWN || number == FIELD_OWNER || number == FIELD_OTHERS || number == FIELD_VICTIM
}

fn may_branch(number: u8, sets: Sets) -> bool
    ensures { result ≡ may_branch number sets }
{
    implies(number == FIELD_GP, sets.head == HEAD_REQUEST)
        && implies(number == FIELD_KIND, subset(sets.stage, STAGE_HELD_CLOSING))
        && implies(
            is_summed(number),
            sets.stage == STAGE_HELD && sets.summ == SUMM_SUM,
        )
}

/// `popq` of any other head has no `wp`. `bk` on gp: head is Request. `bk` on kind: stage in Held,
/// Closing. `bk` on own, owner, others and victim: stage is Held, summ is sum.
pub fn obligation_10(form: Form, sets: Sets) -> bool
    ensures { result ≡ obligation_10 form sets }
{
    match form {
        Form::Popq { a } => implies(!marks(sets), a == PLAIN),
        Form::Bk { a, .. } => may_branch(a, sets),
        _ => true,
    }
}

fn sends(sets: Sets) -> bool
    ensures { result ≡ sends sets }
{
    sets.stage == STAGE_HELD && sets.head == HEAD_NONE && sets.summ == SUMM_SUM
}

/// Whether it is `inv` or a `pushq`.
fn is_send(form: Form) -> bool
    ensures { result ≡ is_send form }
{
    match form {
        Form::Inv { .. } => true,
        Form::Stwb { .. } => true,
        Form::Blk { .. } => true,
        Form::Wake => true,
        Form::Tr { .. } => true,
        Form::Ucblk => true,
        Form::Ucdone => true,
        Form::Done => true,
        Form::Memrd => true,
        Form::Memwb => true,
        Form::Memww => true,
        _ => false,
    }
}

fn may_read(form: Form, sets: Sets) -> bool
    ensures { result ≡ may_read form sets }
{
    match form {
        Form::Rdw => sets.stage == STAGE_HELD && sets.summ == SUMM_NO,
        Form::Gad => sets.stage == STAGE_HELD && sets.summ == SUMM_ROW,
        Form::Mova { .. } => subset(sets.stage, STAGE_HELD_CLOSING),
        Form::Movs { .. } => subset(sets.stage, STAGE_HELD_CLOSING),
        Form::Movw { .. } => subset(sets.stage, STAGE_HELD_CLOSING),
        _ => true,
    }
}

/// `rdw`: stage is Held, summ is no. `gad`: stage is Held, summ is row. `mova`, `movs`, `movw`:
/// stage in Held, Closing. `inv` and each `pushq`: stage is Held, head is None, summ is sum.
pub fn obligation_11(form: Form, sets: Sets) -> bool
    ensures { result ≡ obligation_11 form sets }
{
    implies(is_send(form), sends(sets)) && may_read(form, sets)
}

fn may_flush_own(state: Coh, sets: Sets) -> bool
    ensures { result ≡ may_flush_own state sets }
{
    match state {
        Coh::I => lacks(sets.own, OWN_I),
        Coh::S => lacks(sets.own, OWN_I_S),
        _ => true,
    }
}

fn may_flush_victim(state: Coh, sets: Sets) -> bool
    ensures { result ≡ may_flush_victim state sets }
{
    match state {
        Coh::I => sets.victim == VICTIM_HEAVY,
        _ => false,
    }
}

fn may_flush(whose: u8, state: Coh, sets: Sets) -> bool
    ensures { result ≡ may_flush whose state sets }
{
    match whose {
        WHOSE_OWN => may_flush_own(state, sets),
        WHOSE_OWNER => lacks(sets.owner, OWNER_NONE),
        _ => may_flush_victim(state, sets),
    }
}

/// `stwb`: wb is idle. own I: own lacks I. own S: own lacks I and S. owner: owner lacks none.
/// victim: victim is heavy, and the state is I.
pub fn obligation_12(form: Form, sets: Sets) -> bool
    ensures { result ≡ obligation_12 form sets }
{
    match form {
        Form::Stwb { a, b } => sets.wb == WB_IDLE && may_flush(a, b, sets),
        _ => true,
    }
}

/// `inv o`: owner in none, F.
pub fn obligation_13(form: Form, sets: Sets) -> bool
    ensures { result ≡ obligation_13 form sets }
{
    match form {
        Form::Inv { a } => implies(a == WITH_OWNER, subset(sets.owner, OWNER_NONE_F)),
        _ => true,
    }
}

/// `memrd`: kind in Rd, Wr, UcRd; mem is idle; wb is idle; owner in none, F; own in I, S, F.
pub fn obligation_14(form: Form, sets: Sets) -> bool
    ensures { result ≡ obligation_14 form sets }
{
    match form {
        Form::Memrd => {
            subset(sets.kind, KIND_RD_WR_UC_RD)
                && sets.mem == MEM_IDLE
                && sets.wb == WB_IDLE
                && subset(sets.owner, OWNER_NONE_F)
                && subset(sets.own, OWN_I_S_F)
        }
        _ => true,
    }
}

/// `memww`: kind is UcWr; own is I; owner is none; others is no; acks is zero; wb is idle; mem is
/// idle.
pub fn obligation_15(form: Form, sets: Sets) -> bool
    ensures { result ≡ obligation_15 form sets }
{
    match form {
        Form::Memww => {
            sets.kind == KIND_UC_WR
                && sets.own == OWN_I
                && sets.owner == OWNER_NONE
                && sets.others == OTHERS_NO
                && sets.acks == ACKS_ZERO
                && sets.wb == WB_IDLE
                && sets.mem == MEM_IDLE
        }
        _ => true,
    }
}
