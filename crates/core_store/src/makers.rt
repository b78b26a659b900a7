//! Items are added to the store, each at the next place, as long as 32 bits can say the place (WebAssembly Core 2.0, section 4.5.3).

ghost use Rattle.std.specs.Prelude.{◌≡◌, ◌++◌, [], ◌∷◌, length};
ghost use Rattle.core_memory.specs.Linear.{fresh};
ghost use Rattle.core_store.specs.Table.{nulls, AreRefs};
ghost use Rattle.core_store.specs.State.{Adds, Places, IsStoreValue};

use crate::state::Store;
use crate::table::Table;
use crate::value::{CoreRefs, CoreSpaces, CoreValue, StoreFunc};
use core_memory::Memory;
use std::alloc::Global;
use virt_base::{NoMemory, copy_bytes};
use wasm_ast::Shared;

/// The first place that no item has.
const LAST: usize = 4_294_967_295;

// The next place, unless the places ran out.
fn next_place(count: usize) -> Result<u32, NoMemory>
    ensures { Places count result }
{
    if count >= LAST {
        return Err(NoMemory);
    }
    Ok(count as u32)
}

/// Adds a memory of `min` pages of zeros, of which none is made.
pub fn add_memory(
    alloc: Global,
    store: &mut Store,
    min: u32,
    max: Option<u32>,
) -> Result<u32, NoMemory>
    ensures { Adds store.old store.new (length store.old.memories) (record store.old { memories = store.old.memories ++ fresh min max ∷ [] }) result }
{
    let at = next_place(store.memories.len())?;
    let memory = Memory::new(alloc, min, max)?;
    store.memories.push(memory)?;
    Ok(at)
}

/// Adds a table of `min` null references.
pub fn add_table(
    alloc: Global,
    store: &mut Store,
    min: u32,
    max: Option<u32>,
) -> Result<u32, NoMemory>
    ensures { Adds store.old store.new (length store.old.tables) (record store.old { tables = store.old.tables ++ nulls min max ∷ [] }) result }
{
    let at = next_place(store.tables.len())?;
    let table = Table::new(alloc, min, max)?;
    store.tables.push(table)?;
    Ok(at)
}

/// Adds a global.
pub fn add_global(_alloc: Global, store: &mut Store, value: CoreValue) -> Result<u32, NoMemory>
    requires { IsStoreValue (length store.old.functions) value }
    ensures { Adds store.old store.new (length store.old.globals) (record store.old { globals = store.old.globals ++ value ∷ [] }) result }
{
    let at = next_place(store.globals.len())?;
    store.globals.push(value)?;
    Ok(at)
}

/// Adds a function.
pub fn add_function(_alloc: Global, store: &mut Store, function: StoreFunc) -> Result<u32, NoMemory>
    ensures { Adds store.old store.new (length store.old.functions) (record store.old { functions = store.old.functions ++ function ∷ [] }) result }
{
    let at = next_place(store.functions.len())?;
    store.functions.push(function)?;
    Ok(at)
}

/// Adds a data segment.
pub fn add_segment(alloc: Global, store: &mut Store, bytes: &[u8]) -> Result<u32, NoMemory>
    ensures { Adds store.old store.new (length store.old.segments) (record store.old { segments = store.old.segments ++ bytes.now ∷ [] }) result }
{
    let at = next_place(store.segments.len())?;
    let segment = copy_bytes(alloc, bytes)?;
    store.segments.push(segment)?;
    Ok(at)
}

/// Adds an element segment.
pub fn add_elements(_alloc: Global, store: &mut Store, elements: CoreRefs) -> Result<u32, NoMemory>
    requires { AreRefs (length store.old.functions) elements }
    ensures { Adds store.old store.new (length store.old.elements) (record store.old { elements = store.old.elements ++ elements ∷ [] }) result }
{
    let at = next_place(store.elements.len())?;
    store.elements.push(elements)?;
    Ok(at)
}

/// Adds a core instance.
pub fn add_instance(alloc: Global, store: &mut Store, spaces: CoreSpaces) -> Result<u32, NoMemory>
    ensures { Adds store.old store.new (length store.old.instances) (record store.old { instances = store.old.instances ++ spaces ∷ [] }) result }
{
    let at = next_place(store.instances.len())?;
    let spaces = Shared::new(alloc, spaces)?;
    store.instances.push(spaces)?;
    Ok(at)
}
