//! What an instruction leaves of the mask at its place, where it doesn't branch.

ghost use Rattle.std.specs.Prelude.{◌≡◌};
ghost use Rattle.bk_flow.specs.Flow.{heads, wait, empty_head, awake, add, pop, block_head, sent_some, sent_none, acks_after, invalidate, flush, pay_requester, pay, close, owe, left, left_directory, left_queue, left_message, left_memory};

use crate::masks::{
    flag, held_with, idle_with, is_shared, lacks, may, nothing, only_debt, only_down, only_state,
    set_and, set_not, set_or, when, with_flag,
};
use bk_base::Coh;
use bk_isa::Form;
use bk_isa::operand::{
    CLASS_MEMORY, CLASS_REQUESTS, CLASS_RESPONSES, WHOSE_OWN, WHOSE_OWNER, WITH_OWNER,
};
use bk_know::values::{
    ACKS_ANY, ACKS_SOME, DOWN_PAID, DREQ_M, DREQ_PAID, FLAG_CLEAR, FLAG_SET, GP_ANY, GP_FREE,
    HEAD_BLOCK, HEAD_COH_ACK, HEAD_INV_ACK, HEAD_NONE, HEAD_NULL_WB, HEAD_REQUEST, HEAD_WB,
    HEAD_WB_NULL_WB, MEM_ASKED, MEM_GOT, MEM_WRITTEN, OTHERS_NO, OTHERS_YES, OWNER_NONE,
    STAGE_BLOCKED, STAGE_CLOSING, STAGE_IDLE, STAGE_IDLE_HELD_CLOSING, SUMM_ROW, SUMM_SUM,
    VICTIM_LIGHT, WB_ASKED, WB_DIRTY, WB_IDLE,
};
use bk_know::{Sets, union};

/// The heads that a wait for these classes may find. A response is a CohAck; it may be an InvAck
/// only where acknowledgements may be owed, and a Wb or NullWb only where a write-back may have
/// been asked for. From memory comes a block, where one may have been asked for.
fn heads(classes: u8, sets: Sets) -> u8
    ensures { result ≡ heads classes sets }
{
    let response = may(classes, CLASS_RESPONSES);
    when(may(classes, CLASS_REQUESTS), HEAD_REQUEST)
        | when(response, HEAD_COH_ACK)
        | when(response && may(sets.acks, ACKS_SOME), HEAD_INV_ACK)
        | when(response && may(sets.wb, WB_ASKED), HEAD_WB_NULL_WB)
        | when(
            may(classes, CLASS_MEMORY) && may(sets.mem, MEM_ASKED),
            HEAD_BLOCK,
        )
}

/// `wfq`: a head of one of the classes. A request's group may be free or pending.
fn wait(classes: u8, sets: Sets) -> Sets
    ensures { result ≡ wait classes sets }
{
    let gp = if may(classes, CLASS_REQUESTS) {
        GP_ANY
    } else {
        GP_FREE
    };
    Sets {
        head: heads(classes, sets),
        gp,
        ..sets
    }
}

fn empty_head(sets: Sets) -> Sets
    ensures { result ≡ empty_head sets }
{
    Sets {
        head: HEAD_NONE,
        gp: GP_FREE,
        ..sets
    }
}

/// A settled group wakes an engine that is blocked.
fn awake(stage: u8) -> u8
    ensures { result ≡ awake stage }
{
    (stage & STAGE_IDLE_HELD_CLOSING) | when(may(stage, STAGE_BLOCKED), STAGE_IDLE)
}

/// The first mask, and where the test holds what the second allows too.
fn add(test: bool, sets: Sets, more: Sets) -> Sets
    ensures { result ≡ add test sets more }
{
    if test { union(sets, more) } else { sets }
}

/// `popq`: a mask for each kind of message that the head may be, and their union.
fn pop(sets: Sets) -> Sets
    ensures { result ≡ pop sets }
{
    let all = add(may(sets.head, HEAD_REQUEST), nothing(), held_with(sets));
    let acknowledged = Sets {
        acks: ACKS_ANY,
        ..sets
    };
    let all = add(may(sets.head, HEAD_INV_ACK), all, empty_head(acknowledged));
    let woken = Sets {
        stage: awake(sets.stage),
        ..sets
    };
    let all = add(may(sets.head, HEAD_COH_ACK), all, empty_head(woken));
    let written = Sets {
        wb: WB_DIRTY,
        ..sets
    };
    let all = add(may(sets.head, HEAD_WB), all, empty_head(written));
    let clean = Sets {
        wb: WB_IDLE,
        ..sets
    };
    let all = add(may(sets.head, HEAD_NULL_WB), all, empty_head(clean));
    let fetched = Sets {
        mem: MEM_GOT,
        ..sets
    };
    add(may(sets.head, HEAD_BLOCK), all, empty_head(fetched))
}

/// `defer`: the request stays in its channel, and the engine is blocked.
fn block_head(sets: Sets) -> Sets
    ensures { result ≡ block_head sets }
{
    Sets {
        stage: STAGE_BLOCKED,
        ..empty_head(sets)
    }
}

/// Whether an invalidation goes out for certain: others have a copy, or there is an owner and it
/// is asked too.
fn sent_some(with_owner: u8, sets: Sets) -> bool
    ensures { result ≡ sent_some with_owner sets }
{
    sets.others == OTHERS_YES || with_owner == WITH_OWNER && lacks(sets.owner, OWNER_NONE)
}

/// Whether no invalidation goes out.
fn sent_none(with_owner: u8, sets: Sets) -> bool
    ensures { result ≡ sent_none with_owner sets }
{
    sets.others == OTHERS_NO && (with_owner != WITH_OWNER || sets.owner == OWNER_NONE)
}

fn acks_after(with_owner: u8, sets: Sets) -> u8
    ensures { result ≡ acks_after with_owner sets }
{
    if sent_some(with_owner, sets) {
        ACKS_SOME
    } else if sent_none(with_owner, sets) {
        sets.acks
    } else {
        sets.acks | ACKS_SOME
    }
}

/// `inv`: no other cache has a shared copy any more, and with `o` there is no owner. Others and
/// owner as they were decide on the acknowledgements.
fn invalidate(with_owner: u8, sets: Sets) -> Sets
    ensures { result ≡ invalidate with_owner sets }
{
    let owner = if with_owner == WITH_OWNER {
        OWNER_NONE
    } else {
        sets.owner
    };
    Sets {
        acks: acks_after(with_owner, sets),
        others: OTHERS_NO,
        owner,
        ..sets
    }
}

/// `stwb`: a write-back was asked of the requester's own copy, of the owner or of the victim.
fn flush(whose: u8, state: Coh, sets: Sets) -> Sets
    ensures { result ≡ flush whose state sets }
{
    match whose {
        WHOSE_OWN => Sets {
            own: only_state(state),
            wb: WB_ASKED,
            ..sets
        },
        WHOSE_OWNER => {
            let others = if is_shared(state) {
                OTHERS_YES
            } else {
                sets.others
            };
            Sets {
                owner: OWNER_NONE,
                wb: WB_ASKED,
                others,
                ..sets
            }
        }
        _ => Sets {
            victim: VICTIM_LIGHT,
            wb: WB_ASKED,
            ..sets
        },
    }
}

/// The requester's entry is given its state.
fn pay_requester(state: Coh, sets: Sets) -> Sets
    ensures { result ≡ pay_requester state sets }
{
    Sets {
        dreq: DREQ_PAID,
        own: only_state(state),
        ..sets
    }
}

/// `wds`: the requester's own entry or the owner's is given its state.
fn pay(whose: u8, state: Coh, sets: Sets) -> Sets
    ensures { result ≡ pay whose state sets }
{
    if whose == WHOSE_OWN {
        pay_requester(state, sets)
    } else {
        Sets {
            down: DOWN_PAID,
            ..sets
        }
    }
}

/// The request is answered.
fn close(sets: Sets) -> Sets
    ensures { result ≡ close sets }
{
    Sets {
        stage: STAGE_CLOSING,
        ..sets
    }
}

/// The grant is sent, and the requester's entry must be given the state.
fn owe(debt: u8, sets: Sets) -> Sets
    ensures { result ≡ owe debt sets }
{
    Sets {
        dreq: debt,
        ..close(sets)
    }
}

/// What an instruction leaves where it doesn't branch: here of the flags.
pub fn left(form: Form, sets: Sets) -> Sets
    ensures { result ≡ left form sets }
{
    match form {
        Form::Sf { a } => with_flag(sets, a, FLAG_SET),
        Form::Cf { a } => with_flag(sets, a, FLAG_CLEAR),
        Form::Nf { a } => with_flag(sets, a, set_not(flag(sets, a))),
        Form::Movf { a, b } => with_flag(sets, a, flag(sets, b)),
        Form::Andf { a, b } => with_flag(sets, a, set_and(flag(sets, a), flag(sets, b))),
        Form::Orf { a, b } => with_flag(sets, a, set_or(flag(sets, a), flag(sets, b))),
        _ => left_directory(form, sets),
    }
}

/// What the instructions of the directory leave, and the others below.
fn left_directory(form: Form, sets: Sets) -> Sets
    ensures { result ≡ left_directory form sets }
{
    match form {
        Form::Rdw => Sets {
            summ: SUMM_ROW,
            ..sets
        },
        Form::Gad => Sets {
            summ: SUMM_SUM,
            ..sets
        },
        Form::Wde { a } => pay_requester(a, sets),
        Form::Wds { a, b } => pay(a, b, sets),
        Form::Fin => idle_with(sets),
        _ => left_queue(form, sets),
    }
}

/// What is left where messages come and invalidations go, and by the others below.
fn left_queue(form: Form, sets: Sets) -> Sets
    ensures { result ≡ left_queue form sets }
{
    match form {
        Form::Wfq { a } => wait(a, sets),
        Form::Popq { .. } => pop(sets),
        Form::Defer => block_head(sets),
        Form::Inv { a } => invalidate(a, sets),
        _ => left_message(form, sets),
    }
}

/// What messages to caches leave, and the others below.
fn left_message(form: Form, sets: Sets) -> Sets
    ensures { result ≡ left_message form sets }
{
    match form {
        Form::Stwb { a, b } => flush(a, b, sets),
        Form::Blk { a } => owe(only_debt(a), sets),
        Form::Wake => owe(DREQ_M, sets),
        Form::Tr { a, b } => Sets {
            down: only_down(a),
            ..owe(only_debt(b), sets)
        },
        Form::Ucblk => close(sets),
        Form::Ucdone => close(sets),
        Form::Done => close(sets),
        _ => left_memory(form, sets),
    }
}

/// What messages to memory leave. Each other instruction leaves the mask as it is.
fn left_memory(form: Form, sets: Sets) -> Sets
    ensures { result ≡ left_memory form sets }
{
    match form {
        Form::Memrd => Sets {
            mem: MEM_ASKED,
            ..sets
        },
        Form::Memwb => Sets {
            wb: WB_IDLE,
            ..sets
        },
        Form::Memww => Sets {
            mem: MEM_WRITTEN,
            ..sets
        },
        _ => sets,
    }
}
