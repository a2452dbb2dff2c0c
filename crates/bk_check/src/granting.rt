//! The obligations on granting a request and on closing it: 16 to 23.
//! "Is" means that a field has that value alone, "in" that it has no other values.

ghost use Rattle.std.specs.Prelude.{◌≡◌};
ghost use Rattle.bk_check.specs.Obligations.{obligation_16, settled, obligation_17, alone, bears, may_grant, obligation_18, may_pair, is_handover, may_transfer, obligation_19, obligation_20, may_pay, obligation_21, obligation_22, obligation_23};

use crate::waiting::implies;
use bk_base::Coh;
use bk_flow::{lacks, may, only_debt, only_down};
use bk_isa::Form;
use bk_isa::operand::WHOSE_OWN;
use bk_know::values::{
    ACKS_ZERO, DOWN_PAID, DREQ_PAID, HEAD_NONE, KIND_EVICT, KIND_RD, KIND_RD_WR, KIND_UC_RD,
    KIND_UC_WR, KIND_WR, MEM_ASKED, MEM_GOT, MEM_WRITTEN, OTHERS_NO, OWN_I, OWN_S_F_O, OWNER_F,
    OWNER_NONE, OWNER_NONE_F, STAGE_CLOSING, VICTIM_LIGHT, WB_DIRTY, WB_IDLE,
};
use bk_know::{Sets, subset};

/// `ucblk`: kind is UcRd, mem is got. `ucdone`: kind is UcWr, mem is written. `done`: kind is
/// Evict, own is I.
pub fn obligation_16(form: Form, sets: Sets) -> bool
    ensures { result ≡ obligation_16 form sets }
{
    match form {
        Form::Ucblk => sets.kind == KIND_UC_RD && sets.mem == MEM_GOT,
        Form::Ucdone => sets.kind == KIND_UC_WR && sets.mem == MEM_WRITTEN,
        Form::Done => sets.kind == KIND_EVICT && sets.own == OWN_I,
        _ => true,
    }
}

/// Whether nothing is awaited any more.
fn settled(sets: Sets) -> bool
    ensures { result ≡ settled sets }
{
    sets.acks == ACKS_ZERO && sets.wb == WB_IDLE && lacks(sets.mem, MEM_ASKED)
}

/// `blk`, `wake`, `tr`, `ucblk`, `ucdone`, `done`: acks is zero, wb is idle, mem lacks asked. `blk`
/// and `tr`: victim is light.
pub fn obligation_17(form: Form, sets: Sets) -> bool
    ensures { result ≡ obligation_17 form sets }
{
    match form {
        Form::Blk { .. } => settled(sets) && sets.victim == VICTIM_LIGHT,
        Form::Wake => settled(sets),
        Form::Tr { .. } => settled(sets) && sets.victim == VICTIM_LIGHT,
        Form::Ucblk => settled(sets),
        Form::Ucdone => settled(sets),
        Form::Done => settled(sets),
        _ => true,
    }
}

/// Whether no other cache has a copy.
fn alone(sets: Sets) -> bool
    ensures { result ≡ alone sets }
{
    sets.owner == OWNER_NONE && sets.others == OTHERS_NO
}

/// Whether the copies of others bear with a grant of the state.
fn bears(state: Coh, sets: Sets) -> bool
    ensures { result ≡ bears state sets }
{
    match state {
        Coh::S => subset(sets.owner, OWNER_NONE_F),
        Coh::F => sets.owner == OWNER_NONE,
        Coh::E => alone(sets),
        Coh::M => alone(sets),
        _ => true,
    }
}

fn may_grant(state: Coh, sets: Sets) -> bool
    ensures { result ≡ may_grant state sets }
{
    subset(sets.kind, KIND_RD_WR)
        && sets.mem == MEM_GOT
        && implies(may(sets.kind, KIND_WR), state.writable())
        && bears(state, sets)
}

/// `blk X`: kind in Rd, Wr; mem is got; where kind may be Wr, X is E or M. Where X is E or M, owner
/// is none and others is no; where X is F, owner is none; where X is S, owner in none, F.
/// `wake`: kind is Wr; own in S, F, O; owner is none; others is no.
pub fn obligation_18(form: Form, sets: Sets) -> bool
    ensures { result ≡ obligation_18 form sets }
{
    match form {
        Form::Blk { a } => may_grant(a, sets),
        Form::Wake => sets.kind == KIND_WR && subset(sets.own, OWN_S_F_O) && alone(sets),
        _ => true,
    }
}

/// Whether the owner may be given the first state and the requester the second.
fn may_pair(owner: Coh, requester: Coh, sets: Sets) -> bool
    ensures { result ≡ may_pair owner requester sets }
{
    match (owner, requester) {
        (Coh::O, Coh::S) => true,
        (Coh::S, Coh::O) => true,
        (Coh::I, Coh::O) => true,
        (Coh::I, Coh::M) => true,
        (Coh::F, Coh::S) => sets.owner == OWNER_F,
        (Coh::S, Coh::F) => sets.owner == OWNER_F,
        (Coh::I, Coh::F) => sets.owner == OWNER_F,
        _ => false,
    }
}

/// Whether the requester becomes the only one that has a copy.
fn is_handover(owner: Coh, requester: Coh) -> bool
    ensures { result ≡ is_handover owner requester }
{
    matches!((owner, requester), (Coh::I, Coh::M))
}

fn may_transfer(owner: Coh, requester: Coh, sets: Sets) -> bool
    ensures { result ≡ may_transfer owner requester sets }
{
    lacks(sets.owner, OWNER_NONE)
        && may_pair(owner, requester, sets)
        && if is_handover(owner, requester) {
            sets.others == OTHERS_NO && subset(sets.kind, KIND_RD_WR)
        } else {
            sets.kind == KIND_RD
        }
}

/// `tr Y X`: owner lacks none. The pair is (O, S), (S, O), (I, O) or (I, M); or, where owner is F,
/// also (F, S), (S, F) or (I, F). For (I, M) others is no and kind in Rd, Wr. For every other pair
/// kind is Rd.
pub fn obligation_19(form: Form, sets: Sets) -> bool
    ensures { result ≡ obligation_19 form sets }
{
    match form {
        Form::Tr { a, b } => may_transfer(a, b, sets),
        _ => true,
    }
}

/// `memwb`: wb is dirty.
pub fn obligation_20(form: Form, sets: Sets) -> bool
    ensures { result ≡ obligation_20 form sets }
{
    match form {
        Form::Memwb => sets.wb == WB_DIRTY,
        _ => true,
    }
}

fn may_pay(whose: u8, state: Coh, sets: Sets) -> bool
    ensures { result ≡ may_pay whose state sets }
{
    sets.stage == STAGE_CLOSING
        && if whose == WHOSE_OWN {
            sets.dreq == only_debt(state) && lacks(sets.own, OWN_I)
        } else {
            sets.down == only_down(state)
        }
}

/// `wde X`: stage is Closing, dreq is X. `wds own X`: also own lacks I. `wds owner X`: stage is
/// Closing, down is X.
pub fn obligation_21(form: Form, sets: Sets) -> bool
    ensures { result ≡ obligation_21 form sets }
{
    match form {
        Form::Wde { a } => sets.stage == STAGE_CLOSING && sets.dreq == only_debt(a),
        Form::Wds { a, b } => may_pay(a, b, sets),
        _ => true,
    }
}

/// `fin`: stage is Closing, head is None, dreq is paid, down is paid.
pub fn obligation_22(form: Form, sets: Sets) -> bool
    ensures { result ≡ obligation_22 form sets }
{
    match form {
        Form::Fin => sets.stage == STAGE_CLOSING
            && sets.head == HEAD_NONE
            && sets.dreq == DREQ_PAID
            && sets.down == DOWN_PAID,
        _ => true,
    }
}

/// `wfq`, `popq`, `defer`: stage lacks Closing.
pub fn obligation_23(form: Form, sets: Sets) -> bool
    ensures { result ≡ obligation_23 form sets }
{
    match form {
        Form::Wfq { .. } => lacks(sets.stage, STAGE_CLOSING),
        Form::Popq { .. } => lacks(sets.stage, STAGE_CLOSING),
        Form::Defer => lacks(sets.stage, STAGE_CLOSING),
        _ => true,
    }
}
