//! The instructions that go on to the next.

ghost use Rattle.std.specs.Prelude.{◌≡◌, ◌≤◌, IfOk, length};
ghost use Rattle.core_store.specs.Scene.{scene_of};
ghost use Rattle.core_store.specs.Fine.{takes, Names};
ghost use Rattle.core_interp.specs.Plains.{Did};

use crate::bytes::on_bytes;
use crate::memory::on_memory;
use crate::operands::{calculate, on_operands};
use crate::refs::on_refs;
use crate::tables::on_table;
use crate::variables::on_variable;
use core_slots::Slots;
use core_store::{CoreSpaces, Store};
use std::alloc::Global;
use virt_base::NoMemory;
use wasm_ast::Op;

/// Does an instruction that goes on to the next, or answers that it traps.
#[inline(always)]
pub fn operate(
    alloc: Global,
    slots: &mut Slots,
    store: &mut Store,
    spaces: &CoreSpaces,
    op: Op,
) -> Result<bool, NoMemory>
    requires operands { takes op ≤ length slots.old.operands }
    requires names { Names (scene_of store.old) spaces.now (length slots.old.locals) op }
    ensures did { IfOk result (λ went. Did op spaces.now slots.old store.old slots.new store.new went) }
{
    match op {
        // Frequent instructions have arms of their own, where the match of their group is decided.
        Op::Numeric(op) => Ok(calculate(slots, op)),
        Op::I32Const(_) => on_operands(slots, store, spaces, op),
        Op::LocalGet(_) => on_variable(slots, store, spaces, op),
        Op::LocalSet(_) => on_variable(slots, store, spaces, op),
        Op::LocalTee(_) => on_variable(slots, store, spaces, op),
        Op::Load(_, _) => on_memory(alloc, slots, store, spaces, op),
        Op::Store(_, _) => on_memory(alloc, slots, store, spaces, op),
        Op::GlobalGet(_) | Op::GlobalSet(_) => on_variable(slots, store, spaces, op),
        Op::Nop | Op::Drop | Op::Select | Op::RefNull(_) | Op::RefIsNull | Op::RefFunc(_) =>
            on_operands(slots, store, spaces, op),
        Op::MemorySize | Op::MemoryGrow => on_memory(alloc, slots, store, spaces, op),
        Op::MemoryInit(_) | Op::DataDrop(_) | Op::MemoryCopy | Op::MemoryFill => {
            on_bytes(slots, store, spaces, op)
        }
        Op::TableGet(_) | Op::TableSet(_) | Op::TableGrow(_) | Op::TableSize(_) => {
            on_table(alloc, slots, store, spaces, op)
        }
        Op::TableInit {
            segment: _,
            table: _,
        }
        | Op::ElemDrop(_)
        | Op::TableCopy { to: _, from: _ }
        | Op::TableFill(_) => on_refs(slots, store, spaces, op),
    }
}
