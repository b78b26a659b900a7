//! Instructions on many bytes of a memory, and on data segments.

ghost use Rattle.std.specs.Prelude.{◌≡◌, ◌≤◌, ◌<◌, IfOk, length};
ghost use Rattle.core_memory.specs.Replaced.{repeated};
ghost use Rattle.core_store.specs.State.{memory_at, segment_at};
ghost use Rattle.core_store.specs.Effects.{put_bytes, move_bytes};
ghost use Rattle.core_store.specs.Scene.{scene_of};
ghost use Rattle.core_interp.specs.Groups.{IsOnBytes};
ghost use Rattle.core_store.specs.Fine.{takes, Names};
ghost use Rattle.core_interp.specs.Plains.{Did, Made};

use crate::fetch::{memory_place, segment_place};
use crate::operands::low;
use core_slots::Slots;
use core_store::{CoreSpaces, Store, StoreFault, copy, drop_segment, fill, init};
use virt_base::NoMemory;
use wasm_ast::Op;

// Writes one byte many times, or answers that it traps.
#[tactic(auto, using(crate::proofs::Changes::bytes_put))]
fn fill_bytes(
    store: &mut Store,
    memory: u32,
    at: u32,
    value: u8,
    len: u32,
) -> Result<bool, NoMemory>
    requires { memory < length store.old.memories }
    ensures { IfOk result (Made (put_bytes store.old memory at (repeated len value)) store.old store.new) }
{
    match fill(store, memory, at as u64, value, len as u64) {
        Ok(()) => Ok(true),
        Err(StoreFault::Trap) => Ok(false),
        Err(StoreFault::NoMemory) => Err(NoMemory),
    }
}

// Copies bytes within a memory, or answers that it traps.
#[tactic(auto, using(crate::proofs::Changes::bytes_moved))]
fn copy_bytes(
    store: &mut Store,
    memory: u32,
    to: u32,
    from: u32,
    len: u32,
) -> Result<bool, NoMemory>
    requires { memory < length store.old.memories }
    ensures { IfOk result (Made (move_bytes (memory_at store.old memory).bytes store.old memory to from len) store.old store.new) }
{
    match copy(store, memory, to as u64, from as u64, len as u64) {
        Ok(()) => Ok(true),
        Err(StoreFault::Trap) => Ok(false),
        Err(StoreFault::NoMemory) => Err(NoMemory),
    }
}

// Writes bytes of a segment, or answers that it traps.
#[tactic(auto, using(crate::proofs::Changes::bytes_moved))]
fn init_bytes(
    store: &mut Store,
    memory: u32,
    to: u32,
    segment: u32,
    from: u32,
    len: u32,
) -> Result<bool, NoMemory>
    requires memory { memory < length store.old.memories }
    requires segment { segment < length store.old.segments }
    ensures { IfOk result (Made (move_bytes (segment_at store.old segment) store.old memory to from len) store.old store.new) }
{
    match init(store, memory, to as u64, segment, from as u64, len as u64) {
        Ok(()) => Ok(true),
        Err(StoreFault::Trap) => Ok(false),
        Err(StoreFault::NoMemory) => Err(NoMemory),
    }
}

/// Does an instruction on many bytes, or answers that it traps.
#[inline(never)]
#[tactic(auto, using(crate::proofs::Changes::stays_segments))]
pub fn on_bytes(
    slots: &mut Slots,
    store: &mut Store,
    spaces: &CoreSpaces,
    op: Op,
) -> Result<bool, NoMemory>
    requires group { IsOnBytes op }
    requires operands { takes op ≤ length slots.old.operands }
    requires names { Names (scene_of store.old) spaces.now (length slots.old.locals) op }
    ensures did { IfOk result (λ went. Did op spaces.now slots.old store.old slots.new store.new went) }
{
    match op {
        Op::MemoryInit(index) => {
            let memory = memory_place(store, spaces);
            let segment = segment_place(store, spaces, index);
            let len = low(slots.pop());
            let from = low(slots.pop());
            let to = low(slots.pop());
            init_bytes(store, memory, to, segment, from, len)
        }
        Op::DataDrop(index) => {
            let segment = segment_place(store, spaces, index);
            drop_segment(store, segment);
            Ok(true)
        }
        Op::MemoryCopy => {
            let memory = memory_place(store, spaces);
            let len = low(slots.pop());
            let from = low(slots.pop());
            let to = low(slots.pop());
            copy_bytes(store, memory, to, from, len)
        }
        Op::MemoryFill => {
            let memory = memory_place(store, spaces);
            let len = low(slots.pop());
            let value = (slots.pop() % 256) as u8;
            let at = low(slots.pop());
            fill_bytes(store, memory, at, value, len)
        }
        _ => unreachable!(),
    }
}
