//! Instructions on operands alone.

ghost use Rattle.std.specs.Prelude.{◌≡◌, ◌<◌, ◌≤◌, IfOk, length, drop};
ghost use Rattle.core_integer.specs.Integer.{IsOperand};
ghost use Rattle.core_store.specs.declared.value.CoreSpaces.{CoreSpaces};
ghost use Rattle.core_store.specs.State.{State};
ghost use Rattle.core_store.specs.Plain.{operand_in};
ghost use Rattle.core_store.specs.Words.{i32_in};
ghost use Rattle.core_store.specs.Scene.{scene_of};
ghost use Rattle.core_slots.specs.Stacked.{with_operands};
ghost use Rattle.core_interp.specs.Groups.{IsOnOperands};
ghost use Rattle.core_store.specs.Fine.{takes, Names};
ghost use Rattle.core_interp.specs.Plains.{Did, Does, Puts};

use crate::fetch::function_place;
use core_integer::integer;
use core_slots::Slots;
use core_store::{CoreSpaces, Store};
use virt_base::{CoreType, NoMemory, Trap};
use wasm_ast::{NumericOp, Op, numeric_of};

/// The i32 of a word.
#[inline]
pub fn low(word: u64) -> u32
    ensures { result ≡ i32_in word }
{
    (word % 0x1_0000_0000) as u32
}

/// An operand of a numeric instruction, read at its type.
#[inline]
pub fn operand(ty: CoreType, word: u64) -> u64
    ensures value { result ≡ operand_in ty word }
    ensures fits { IsOperand ty result }
{
    match ty {
        CoreType::I32 => low(word) as u64,
        CoreType::I64 | CoreType::Funcref | CoreType::Externref => word,
    }
}

/// Does a numeric instruction, or answers that it traps.
pub fn calculate(slots: &mut Slots, op: NumericOp) -> bool
    requires { takes (Op.Numeric op) ≤ length slots.old.operands }
    ensures { (spaces : CoreSpaces) (store : State) → Did (Op.Numeric op) spaces slots.old store slots.new store result }
{
    let code = op.code();
    match numeric_of(code) {
        Some(kind) => {
            if kind.params == 1 {
                let outcome = integer(code, operand(kind.from, slots.top()), 0);
                return put(slots, outcome);
            }
            let last = slots.pop();
            let first = slots.top();
            let outcome = integer(code, operand(kind.from, first), operand(kind.from, last));
            put(slots, outcome)
        }
        None => unreachable!(),
    }
}

// The result of a numeric instruction, if it has one, in place of the topmost operand.
#[inline(always)]
fn put(slots: &mut Slots, outcome: Result<u64, Trap>) -> bool
    requires { 0 < length slots.old.operands }
    ensures { Puts outcome (with_operands slots.old (drop 1 slots.old.operands)) slots.new result }
{
    match outcome {
        Ok(value) => {
            slots.set_top(value);
            true
        }
        Err(_) => false,
    }
}

/// A constant of 32 bits.
#[inline(always)]
pub fn put_constant(slots: &mut Slots, value: i32) -> Result<(), NoMemory>
    ensures { IfOk result (λ _. (spaces : CoreSpaces) (store : State) → Does (Op.I32Const value) spaces slots.old store slots.new store) }
{
    slots.push(value.cast_unsigned() as u64)?;
    Ok(())
}

/// Does an instruction on operands alone, other than a numeric one.
#[inline(always)]
pub fn on_operands(
    slots: &mut Slots,
    store: &mut Store,
    spaces: &CoreSpaces,
    op: Op,
) -> Result<bool, NoMemory>
    requires group { IsOnOperands op }
    requires operands { takes op ≤ length slots.old.operands }
    requires names { Names (scene_of store.old) spaces.now (length slots.old.locals) op }
    ensures did { IfOk result (λ went. Did op spaces.now slots.old store.old slots.new store.new went) }
{
    match op {
        Op::Nop => Ok(true),
        Op::Drop => {
            let _dropped = slots.pop();
            Ok(true)
        }
        Op::Select => {
            let test = slots.pop();
            let other = slots.pop();
            let first = slots.pop();
            slots.push(if low(test) == 0 { other } else { first })?;
            Ok(true)
        }
        Op::I32Const(value) => {
            slots.push(value.cast_unsigned() as u64)?;
            Ok(true)
        }
        Op::RefNull(_) => {
            slots.push(0)?;
            Ok(true)
        }
        Op::RefIsNull => {
            let value = slots.pop();
            slots.push((value == 0) as u64)?;
            Ok(true)
        }
        Op::RefFunc(index) => {
            let at = function_place(store, spaces, index);
            slots.push(at as u64 + 1)?;
            Ok(true)
        }
        _ => unreachable!(),
    }
}
