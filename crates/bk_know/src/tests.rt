use crate::fields::FIELD_STAGE;
use crate::values::*;
use crate::{Know, Sets, held, idle};
use std::test::Fail;

#[test]
fn idle_has_nothing_under_way(rt: HostRuntime) {
    let flag = FLAG_CLEAR | FLAG_SET;
    let sets = Sets {
        stage: STAGE_IDLE,
        head: HEAD_NONE,
        gp: GP_FREE,
        kind: KIND_RD,
        summ: SUMM_NO,
        own: OWN_I,
        owner: OWNER_NONE,
        others: OTHERS_NO,
        victim: VICTIM_LIGHT,
        acks: ACKS_ZERO,
        wb: WB_IDLE,
        mem: MEM_IDLE,
        dreq: DREQ_PAID,
        down: DOWN_PAID,
        f0: flag,
        f1: flag,
        f2: flag,
        f3: flag,
    };
    assert_eq!(rt; idle().mask(), 0xff08225508242811);
    assert_eq!(rt; idle().sets(), sets);
}

#[test]
fn held_knows_little_of_the_request(rt: HostRuntime) {
    let sets = Sets {
        stage: STAGE_HELD,
        kind: KIND_RD | KIND_WR | KIND_UC_RD | KIND_UC_WR | KIND_EVICT,
        own: OWN_I | OWN_S | OWN_E | OWN_F | OWN_M | OWN_O,
        owner: OWNER_NONE | OWNER_E | OWNER_F | OWNER_M | OWNER_O,
        others: OTHERS_NO | OTHERS_YES,
        victim: VICTIM_LIGHT | VICTIM_HEAVY,
        ..idle().sets()
    };
    assert_eq!(rt; held().mask(), 0xff08225fffe7e814);
    assert_eq!(rt; held().sets(), sets);
}

#[test]
fn a_union_has_both_within(rt: HostRuntime) -> Result<(), Fail> {
    let either = Know::make(0xff08225fffe7e815).ok_or("a field is empty")?;
    assert_eq!(rt; idle().union(held()), either);
    assert!(rt; held().within(either));
    assert!(rt; !either.within(held()));
    assert_eq!(rt; either.field(FIELD_STAGE), STAGE_IDLE | STAGE_HELD);
    assert_eq!(rt; Know::make(0), None);
    Ok(())
}
