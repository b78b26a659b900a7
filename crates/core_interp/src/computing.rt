//! Numeric instructions that never trap, decided once by their opcode.

ghost use Rattle.std.specs.Prelude.{◌≡◌, ◌≤◌, true, length};
ghost use Rattle.wasm_ast.specs.Numeric.{numeric};
ghost use Rattle.core_store.specs.declared.value.CoreSpaces.{CoreSpaces};
ghost use Rattle.core_store.specs.State.{State};
ghost use Rattle.core_store.specs.Fine.{takes};
ghost use Rattle.core_interp.specs.Plains.{Does};
ghost use Rattle.core_interp.specs.Straight.{Takes, is_total};

use crate::operands::{calculate, operand};
use core_integer::integer;
use core_slots::Slots;
use virt_base::CoreType;
use wasm_ast::{NumericOp, Op};

/// Whether it is no division, and so never traps.
#[inline(always)]
pub fn never_traps(op: NumericOp) -> bool
    ensures { result ≡ is_total op }
{
    !matches!(op.code(), 0x6D..=0x70 | 0x7F..=0x82)
}

// The instruction of this opcode on one operand.
#[inline(always)]
fn one(slots: &mut Slots, code: u8, ty: CoreType)
    requires kind { Takes 1 ty (numeric code) }
    requires total { is_total code ≡ true }
    requires operands { 1 ≤ length slots.old.operands }
    ensures { (spaces : CoreSpaces) (store : State) → Does (Op.Numeric code) spaces slots.old store slots.new store }
{
    match integer(code, operand(ty, slots.top()), 0) {
        Ok(value) => slots.set_top(value),
        Err(_) => unreachable!(),
    }
}

// The instruction of this opcode on two operands.
#[inline(always)]
fn two(slots: &mut Slots, code: u8, ty: CoreType)
    requires kind { Takes 2 ty (numeric code) }
    requires total { is_total code ≡ true }
    requires operands { 2 ≤ length slots.old.operands }
    ensures { (spaces : CoreSpaces) (store : State) → Does (Op.Numeric code) spaces slots.old store slots.new store }
{
    let last = operand(ty, slots.pop());
    let first = operand(ty, slots.top());
    match integer(code, first, last) {
        Ok(value) => slots.set_top(value),
        Err(_) => unreachable!(),
    }
}

/// Does a numeric instruction that never traps.
#[inline(always)]
#[tactic(auto, using(crate::proofs::Totals::same_code))]
pub fn compute(slots: &mut Slots, op: NumericOp)
    requires total { is_total op ≡ true }
    requires operands { takes (Op.Numeric op) ≤ length slots.old.operands }
    ensures { (spaces : CoreSpaces) (store : State) → Does (Op.Numeric op) spaces slots.old store slots.new store }
{
    match op.code() {
        0x45 => one(slots, 0x45, CoreType::I32),
        0x46 => two(slots, 0x46, CoreType::I32),
        0x47 => two(slots, 0x47, CoreType::I32),
        0x48 => two(slots, 0x48, CoreType::I32),
        0x49 => two(slots, 0x49, CoreType::I32),
        0x4A => two(slots, 0x4A, CoreType::I32),
        0x4B => two(slots, 0x4B, CoreType::I32),
        0x4C => two(slots, 0x4C, CoreType::I32),
        0x4D => two(slots, 0x4D, CoreType::I32),
        0x4E => two(slots, 0x4E, CoreType::I32),
        0x4F => two(slots, 0x4F, CoreType::I32),
        0x6A => two(slots, 0x6A, CoreType::I32),
        0x6B => two(slots, 0x6B, CoreType::I32),
        0x6C => two(slots, 0x6C, CoreType::I32),
        0x71 => two(slots, 0x71, CoreType::I32),
        0x72 => two(slots, 0x72, CoreType::I32),
        0x73 => two(slots, 0x73, CoreType::I32),
        0x74 => two(slots, 0x74, CoreType::I32),
        0x75 => two(slots, 0x75, CoreType::I32),
        0x76 => two(slots, 0x76, CoreType::I32),
        0x77 => two(slots, 0x77, CoreType::I32),
        0x78 => two(slots, 0x78, CoreType::I32),
        _ => compute_wide(slots, op),
    }
}

// The same of 64 bits.
#[inline(always)]
#[tactic(auto, using(crate::proofs::Totals::same_code))]
fn compute_wide(slots: &mut Slots, op: NumericOp)
    requires total { is_total op ≡ true }
    requires operands { takes (Op.Numeric op) ≤ length slots.old.operands }
    ensures { (spaces : CoreSpaces) (store : State) → Does (Op.Numeric op) spaces slots.old store slots.new store }
{
    match op.code() {
        0x50 => one(slots, 0x50, CoreType::I64),
        0x51 => two(slots, 0x51, CoreType::I64),
        0x52 => two(slots, 0x52, CoreType::I64),
        0x53 => two(slots, 0x53, CoreType::I64),
        0x54 => two(slots, 0x54, CoreType::I64),
        0x55 => two(slots, 0x55, CoreType::I64),
        0x56 => two(slots, 0x56, CoreType::I64),
        0x57 => two(slots, 0x57, CoreType::I64),
        0x58 => two(slots, 0x58, CoreType::I64),
        0x59 => two(slots, 0x59, CoreType::I64),
        0x5A => two(slots, 0x5A, CoreType::I64),
        0x7C => two(slots, 0x7C, CoreType::I64),
        0x7D => two(slots, 0x7D, CoreType::I64),
        0x7E => two(slots, 0x7E, CoreType::I64),
        0x83 => two(slots, 0x83, CoreType::I64),
        0x84 => two(slots, 0x84, CoreType::I64),
        0x85 => two(slots, 0x85, CoreType::I64),
        0x86 => two(slots, 0x86, CoreType::I64),
        0x87 => two(slots, 0x87, CoreType::I64),
        0x88 => two(slots, 0x88, CoreType::I64),
        0x89 => two(slots, 0x89, CoreType::I64),
        0x8A => two(slots, 0x8A, CoreType::I64),
        0xA7 => one(slots, 0xA7, CoreType::I64),
        0xAC => one(slots, 0xAC, CoreType::I32),
        0xAD => one(slots, 0xAD, CoreType::I32),
        _ => compute_rare(slots, op),
    }
}

// The others, whose row is looked up.
#[inline(never)]
fn compute_rare(slots: &mut Slots, op: NumericOp)
    requires total { is_total op ≡ true }
    requires operands { takes (Op.Numeric op) ≤ length slots.old.operands }
    ensures { (spaces : CoreSpaces) (store : State) → Does (Op.Numeric op) spaces slots.old store slots.new store }
{
    let code = op.code();
    if !calculate(slots, op) {
        unreachable!();
    }
}
