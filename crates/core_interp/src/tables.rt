//! Instructions on one reference of a table, and on its size.

ghost use Rattle.std.specs.Prelude.{◌≡◌, ◌≤◌, ◌<◌, IfOk, length};
ghost use Rattle.core_store.specs.State.{IsStoreRef};
ghost use Rattle.core_store.specs.Words.{ref_in};
ghost use Rattle.core_store.specs.Effects.{set_ref, grown_table_size, grow_table};
ghost use Rattle.core_store.specs.Scene.{scene_of};
ghost use Rattle.core_interp.specs.Groups.{IsOnTable};
ghost use Rattle.core_store.specs.Fine.{takes, Names};
ghost use Rattle.core_interp.specs.Plains.{Did, Made, Stays};

use crate::fetch::table_place;
use crate::memory::answer;
use crate::operands::low;
use core_slots::{Slots, reference, word_of_ref};
use core_store::{
    CoreRef, CoreSpaces, Store, functions, table_get, table_grow, table_set, table_size,
};
use std::alloc::Global;
use virt_base::NoMemory;
use wasm_ast::Op;

/// The reference of a word.
#[tactic(auto, using(crate::proofs::Values::ref_names))]
pub fn ref_of(store: &Store, word: u64) -> CoreRef
    ensures value { result ≡ ref_in (length store.now.functions) word }
    ensures names { IsStoreRef store.now result }
{
    reference(functions(store), word)
}

// Sets a reference, or answers that it traps.
#[tactic(auto, using(crate::proofs::Changes::ref_set))]
fn set(store: &mut Store, table: u32, at: u32, value: CoreRef) -> bool
    requires table { table < length store.old.tables }
    requires names { IsStoreRef store.old value }
    ensures { Made (set_ref store.old table at value) store.old store.new result }
{
    table_set(store, table, at, value).is_ok()
}

// Grows a table.
#[tactic(auto, using(crate::proofs::Changes::table_grows))]
fn grow_by(
    alloc: Global,
    store: &mut Store,
    table: u32,
    by: u32,
    value: CoreRef,
) -> Result<u64, NoMemory>
    requires table { table < length store.old.tables }
    requires names { IsStoreRef store.old value }
    ensures size { IfOk result (λ answer. answer ≡ grown_table_size store.old table by) }
    ensures store { IfOk result (λ _. store.new ≡ grow_table store.old table by value) }
    ensures stays { IfOk result (λ _. Stays store.old store.new) }
{
    let size = table_grow(alloc, store, table, by, value)?;
    Ok(answer(size))
}

/// Does an instruction on one reference of a table or on its size, or answers that it traps.
#[inline(never)]
pub fn on_table(
    alloc: Global,
    slots: &mut Slots,
    store: &mut Store,
    spaces: &CoreSpaces,
    op: Op,
) -> Result<bool, NoMemory>
    requires group { IsOnTable op }
    requires operands { takes op ≤ length slots.old.operands }
    requires names { Names (scene_of store.old) spaces.now (length slots.old.locals) op }
    ensures did { IfOk result (λ went. Did op spaces.now slots.old store.old slots.new store.new went) }
{
    match op {
        Op::TableGet(index) => {
            let table = table_place(store, spaces, index);
            let at = low(slots.pop());
            match table_get(store, table, at) {
                Ok(value) => {
                    slots.push(word_of_ref(value))?;
                    Ok(true)
                }
                Err(_) => Ok(false),
            }
        }
        Op::TableSet(index) => {
            let table = table_place(store, spaces, index);
            let value = ref_of(store, slots.pop());
            let at = low(slots.pop());
            Ok(set(store, table, at, value))
        }
        Op::TableGrow(index) => {
            let table = table_place(store, spaces, index);
            let by = low(slots.pop());
            let value = ref_of(store, slots.pop());
            let answer = grow_by(alloc, store, table, by, value)?;
            slots.push(answer)?;
            Ok(true)
        }
        Op::TableSize(index) => {
            let table = table_place(store, spaces, index);
            slots.push(table_size(store, table) as u64)?;
            Ok(true)
        }
        _ => unreachable!(),
    }
}
