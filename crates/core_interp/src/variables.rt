//! Instructions on locals and globals.

ghost use Rattle.std.specs.Prelude.{◌≡◌, ◌<◌, ◌≤◌, IfOk, length};
ghost use Rattle.core_store.specs.declared.value.CoreSpaces.{CoreSpaces};
ghost use Rattle.core_store.specs.State.{State};
ghost use Rattle.core_store.specs.Scene.{scene_of};
ghost use Rattle.core_interp.specs.Groups.{IsOnVariable};
ghost use Rattle.core_store.specs.Fine.{takes, Names};
ghost use Rattle.core_interp.specs.Plains.{Did, Does};

use crate::fetch::global_place;
use core_slots::{Slots, value_like, word};
use core_store::{CoreSpaces, Store, functions, global_get, global_set};
use virt_base::NoMemory;
use wasm_ast::Op;

/// `local.get`.
#[inline(always)]
pub fn get_local(slots: &mut Slots, index: u32) -> Result<(), NoMemory>
    requires { index < length slots.old.locals }
    ensures { IfOk result (λ _. (spaces : CoreSpaces) (store : State) → Does (Op.LocalGet index) spaces slots.old store slots.new store) }
{
    slots.push(slots.local(index))?;
    Ok(())
}

/// `local.set`.
#[inline(always)]
pub fn set_local(slots: &mut Slots, index: u32)
    requires there { index < length slots.old.locals }
    requires operand { 1 ≤ length slots.old.operands }
    ensures { (spaces : CoreSpaces) (store : State) → Does (Op.LocalSet index) spaces slots.old store slots.new store }
{
    let value = slots.pop();
    slots.set_local(index, value);
}

/// `local.tee`.
#[inline(always)]
pub fn tee_local(slots: &mut Slots, index: u32)
    requires there { index < length slots.old.locals }
    requires operand { 1 ≤ length slots.old.operands }
    ensures { (spaces : CoreSpaces) (store : State) → Does (Op.LocalTee index) spaces slots.old store slots.new store }
{
    slots.set_local(index, slots.top());
}

/// Does an instruction on a local or a global. It never traps.
#[inline(always)]
#[tactic(auto, using(crate::proofs::Values::like_names, crate::proofs::Values::like_same, crate::proofs::Values::stays_globals))]
pub fn on_variable(
    slots: &mut Slots,
    store: &mut Store,
    spaces: &CoreSpaces,
    op: Op,
) -> Result<bool, NoMemory>
    requires group { IsOnVariable op }
    requires operands { takes op ≤ length slots.old.operands }
    requires names { Names (scene_of store.old) spaces.now (length slots.old.locals) op }
    ensures did { IfOk result (λ went. Did op spaces.now slots.old store.old slots.new store.new went) }
{
    match op {
        Op::LocalGet(index) => {
            get_local(slots, index)?;
            Ok(true)
        }
        Op::LocalSet(index) => {
            set_local(slots, index);
            Ok(true)
        }
        Op::LocalTee(index) => {
            tee_local(slots, index);
            Ok(true)
        }
        Op::GlobalGet(index) => {
            let at = global_place(store, spaces, index);
            slots.push(word(global_get(store, at)))?;
            Ok(true)
        }
        Op::GlobalSet(index) => {
            let at = global_place(store, spaces, index);
            let new = slots.pop();
            let value = value_like(functions(store), global_get(store, at), new);
            global_set(store, at, value);
            Ok(true)
        }
        _ => unreachable!(),
    }
}
