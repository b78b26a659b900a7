//! What instructions do to a memory or a data segment of the store, by its place (core WebAssembly, "Execution", "Memory Instructions").

ghost use Rattle.std.specs.Prelude.{◌≡◌, ◌*◌, ◌<◌, ◌^◌, [], IfOk, length, slice_set};
ghost use Rattle.core_memory.specs.Number.{IsWidth, bytes_of};
ghost use Rattle.core_memory.specs.Replaced.{repeated};
ghost use Rattle.core_memory.specs.Linear.{loaded, size as size_of, Reads, Writes, Copies, Moves, Grows};
ghost use Rattle.core_store.specs.State.{memory_at, segment_at, InMemory};

use crate::state::Store;
use core_memory::StoreFault;
use std::alloc::Global;
use virt_base::{Bytes, NoMemory, Trap};

/// The integer of `width` bytes at a place of a memory. `Trap` comes exactly where they pass the end.
#[inline]
pub fn load(store: &Store, memory: u32, at: u64, width: u8) -> Result<u64, Trap>
    requires memory { memory < length store.now.memories }
    requires width { IsWidth width }
    ensures value { result ≡ loaded (memory_at store.now memory) at width }
    ensures fits { IfOk result (λ n. n < 256 ^ width) }
{
    store.memories[memory as usize].load(at, width)
}

/// Writes the lowest `width` bytes of an integer. `Trap` comes exactly where they pass the end.
/// Pages that are not made are made first. Where memory runs out each byte is as before.
#[inline]
pub fn store_at(
    store: &mut Store,
    memory: u32,
    at: u64,
    width: u8,
    value: u64,
) -> Result<(), StoreFault>
    requires memory { memory < length store.old.memories }
    requires width { IsWidth width }
    ensures { InMemory store.old store.new memory (λ old new. Writes old new at (bytes_of width value) result) }
{
    let alloc = store.alloc;
    store.memories[memory as usize].store(alloc, at, width, value)
}

/// `len` bytes of a memory from a place on. `Trap` comes exactly where they pass the end.
pub fn read(store: &Store, memory: u32, at: u64, len: u64) -> Result<Bytes, StoreFault>
    requires { memory < length store.now.memories }
    ensures { Reads (memory_at store.now memory) at len result }
{
    store.memories[memory as usize].read(store.alloc, at, len)
}

/// Writes bytes at a place of a memory. `Trap` comes exactly where they pass the end.
/// Pages that are not made are made first. Where memory runs out each byte is as before.
pub fn write(store: &mut Store, memory: u32, at: u64, bytes: &[u8]) -> Result<(), StoreFault>
    requires { memory < length store.old.memories }
    ensures { InMemory store.old store.new memory (λ old new. Writes old new at bytes.now result) }
{
    let alloc = store.alloc;
    store.memories[memory as usize].write(alloc, at, bytes)
}

/// Sets bytes of a memory to one value. `Trap` comes exactly where they pass the end.
/// Pages that are not made are made first. Where memory runs out each byte is as before.
pub fn fill(store: &mut Store, memory: u32, at: u64, value: u8, len: u64) -> Result<(), StoreFault>
    requires { memory < length store.old.memories }
    ensures { InMemory store.old store.new memory (λ old new. Writes old new at (repeated len value) result) }
{
    let alloc = store.alloc;
    store.memories[memory as usize].fill(alloc, at, value, len)
}

/// Copies bytes of a memory, as if by way of another list. `Trap` comes exactly where the source or the target passes the end.
/// Pages that are not made are made first. Where memory runs out each byte is as before.
pub fn copy(store: &mut Store, memory: u32, to: u64, from: u64, len: u64) -> Result<(), StoreFault>
    requires { memory < length store.old.memories }
    ensures { InMemory store.old store.new memory (λ old new. Copies old new to from len result) }
{
    let alloc = store.alloc;
    store.memories[memory as usize].copy(alloc, to, from, len)
}

/// Writes bytes of a data segment. `Trap` comes exactly where the source or the target passes the end.
/// Pages that are not made are made first. Where memory runs out each byte is as before.
pub fn init(
    store: &mut Store,
    memory: u32,
    to: u64,
    segment: u32,
    from: u64,
    len: u64,
) -> Result<(), StoreFault>
    requires memory { memory < length store.old.memories }
    requires segment { segment < length store.old.segments }
    ensures { InMemory store.old store.new memory (λ old new. Moves (segment_at store.old segment) old new to from len result) }
{
    let alloc = store.alloc;
    let bytes = store.segments[segment as usize].as_slice();
    store.memories[memory as usize].init(alloc, to, bytes, from, len)
}

/// Leaves a data segment without bytes.
pub fn drop_segment(store: &mut Store, segment: u32)
    requires { segment < length store.old.segments }
    ensures { store.new ≡ record store.old { segments = slice_set store.old.segments segment [] } }
{
    store.segments[segment as usize] = Bytes::empty(store.alloc);
}

/// Adds pages of zeros, of which none is made: the old size, or -1 exactly where the maximum or 4,096 pages would be passed.
pub fn grow(alloc: Global, store: &mut Store, memory: u32, pages: u32) -> Result<i32, NoMemory>
    requires { memory < length store.old.memories }
    ensures { InMemory store.old store.new memory (λ old new. Grows old new pages result) }
{
    store.memories[memory as usize].grow(alloc, pages)
}

/// The number of pages of a memory.
pub fn size(store: &Store, memory: u32) -> u32
    requires { memory < length store.now.memories }
    ensures size { result ≡ size_of (memory_at store.now memory) }
    ensures bytes { length (memory_at store.now memory).bytes ≡ 65536 * result }
{
    store.memories[memory as usize].size()
}
