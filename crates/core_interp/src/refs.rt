//! Instructions on many references of a table, and on element segments.

ghost use Rattle.std.specs.Prelude.{◌≡◌, ◌≤◌, ◌<◌, IfOk, length};
ghost use Rattle.core_store.specs.State.{IsStoreRef, table_at, elements_at};
ghost use Rattle.core_store.specs.Effects.{fill_refs, move_refs};
ghost use Rattle.core_store.specs.Scene.{scene_of};
ghost use Rattle.core_interp.specs.Groups.{IsOnRefs};
ghost use Rattle.core_store.specs.Fine.{takes, Names};
ghost use Rattle.core_interp.specs.Plains.{Did, Made};

use crate::fetch::{element_place, table_place};
use crate::operands::low;
use crate::tables::ref_of;
use core_slots::Slots;
use core_store::{CoreRef, CoreSpaces, Store, drop_element, table_copy, table_fill, table_init};
use virt_base::NoMemory;
use wasm_ast::Op;

// Sets references to one value, or answers that it traps.
#[tactic(auto, using(crate::proofs::Changes::refs_filled))]
fn fill(store: &mut Store, table: u32, at: u32, value: CoreRef, len: u32) -> bool
    requires table { table < length store.old.tables }
    requires names { IsStoreRef store.old value }
    ensures { Made (fill_refs store.old table at value len) store.old store.new result }
{
    table_fill(store, table, at, value, len).is_ok()
}

// Copies references from a table, or answers that it traps.
#[tactic(auto, using(crate::proofs::Changes::refs_moved))]
fn copy(store: &mut Store, to_table: u32, to: u32, from_table: u32, from: u32, len: u32) -> bool
    requires to_table { to_table < length store.old.tables }
    requires from_table { from_table < length store.old.tables }
    ensures { Made (move_refs (table_at store.old from_table).refs store.old to_table to from len) store.old store.new result }
{
    table_copy(store, to_table, to, from_table, from, len).is_ok()
}

// Copies references of a segment, or answers that it traps.
#[tactic(auto, using(crate::proofs::Changes::refs_moved))]
fn init(store: &mut Store, table: u32, to: u32, segment: u32, from: u32, len: u32) -> bool
    requires table { table < length store.old.tables }
    requires segment { segment < length store.old.elements }
    ensures { Made (move_refs (elements_at store.old segment) store.old table to from len) store.old store.new result }
{
    table_init(store, table, to, segment, from, len).is_ok()
}

/// Does an instruction on many references, or answers that it traps.
#[inline(never)]
#[tactic(auto, using(crate::proofs::Changes::stays_elements))]
pub fn on_refs(
    slots: &mut Slots,
    store: &mut Store,
    spaces: &CoreSpaces,
    op: Op,
) -> Result<bool, NoMemory>
    requires group { IsOnRefs op }
    requires operands { takes op ≤ length slots.old.operands }
    requires names { Names (scene_of store.old) spaces.now (length slots.old.locals) op }
    ensures did { IfOk result (λ went. Did op spaces.now slots.old store.old slots.new store.new went) }
{
    match op {
        Op::TableInit { segment, table } => {
            let table = table_place(store, spaces, table);
            let segment = element_place(store, spaces, segment);
            let len = low(slots.pop());
            let from = low(slots.pop());
            let to = low(slots.pop());
            Ok(init(store, table, to, segment, from, len))
        }
        Op::ElemDrop(index) => {
            let segment = element_place(store, spaces, index);
            drop_element(store, segment);
            Ok(true)
        }
        Op::TableCopy { to, from } => {
            let to_table = table_place(store, spaces, to);
            let from_table = table_place(store, spaces, from);
            let len = low(slots.pop());
            let from = low(slots.pop());
            let to = low(slots.pop());
            Ok(copy(store, to_table, to, from_table, from, len))
        }
        Op::TableFill(index) => {
            let table = table_place(store, spaces, index);
            let len = low(slots.pop());
            let value = ref_of(store, slots.pop());
            let at = low(slots.pop());
            Ok(fill(store, table, at, value, len))
        }
        _ => unreachable!(),
    }
}
