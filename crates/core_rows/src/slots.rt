//! Rows: the operands and locals of calls, and the words of values.

use crate::rows::same;
use core_slots::{Slots, reference, value, value_like, values, word, word_of_ref};
use core_store::{CoreRef, CoreValue};
use std::test::Fail;
use virt_base::CoreType;

#[test]
fn operands_in_order(rt: HostRuntime) -> Result<(), Fail> {
    let alloc = rt.alloc();
    let mut slots = Slots::new(alloc);
    slots.push_values(&[CoreValue::I32(1), CoreValue::I64(2)])?;
    slots.push(3)?;
    same(&rt, alloc, &slots.operands(), "[1, 2, 3]")?;
    slots.put_values(&[CoreValue::I32(7)]);
    let found = (slots.height(), slots.pop());
    slots.drop_top(1);
    let found = (found, slots.operands());
    same(&rt, alloc, &found, "((3, 7), [1])")
}

#[test]
fn a_call_takes_its_arguments(rt: HostRuntime) -> Result<(), Fail> {
    let alloc = rt.alloc();
    let mut slots = Slots::new(alloc);
    slots.push_values(&[CoreValue::I32(5), CoreValue::I32(6), CoreValue::I32(7)])?;
    slots.open(2, 1)?;
    let first = slots.local(0);
    slots.set_local(2, 9);
    slots.push(slots.local(2))?;
    slots.push(slots.local(1))?;
    slots.keep(1, 0);
    slots.close(1);
    let found = (first, slots.operands());
    same(&rt, alloc, &found, "(6, [5, 7])")
}

#[test]
fn words_of_values(rt: HostRuntime) -> Result<(), Fail> {
    let alloc = rt.alloc();
    let found = (
        word_of_ref(CoreRef::Func(4)),
        word(CoreValue::Ref(CoreRef::Null)),
        reference(5, 5),
        value(0, CoreType::I64, 9),
        value_like(0, CoreValue::I32(1), 9),
        values(alloc, 0, &[CoreType::I32, CoreType::I64], &[1, 2]),
    );
    same(
        &rt,
        alloc,
        &found,
        "(5, 0, Func(4), I64(9), I32(9), Ok(Items { items: [I32(1), I64(2)] }))",
    )
}
