//! What instructions do to a table or an element segment of the store, by its place (core WebAssembly, "Execution", "Table
//! Instructions").

ghost use Rattle.std.specs.Prelude.{◌≡◌, ◌<◌, [], IfOk, length, slice_set};
ghost use Rattle.core_store.specs.Table.{got, Sets, Fills, Moves, Grows};
ghost use Rattle.core_store.specs.State.{table_at, elements_at, InTable, IsStoreRef};

use crate::state::Store;
use crate::table::Table;
use crate::value::{CoreRef, CoreRefs};
use std::alloc::Global;
use std::mem;
use virt_base::{NoMemory, Trap};

/// The reference at a place of a table. `Trap` comes exactly where the place passes the end.
pub fn table_get(store: &Store, table: u32, at: u32) -> Result<CoreRef, Trap>
    requires { table < length store.now.tables }
    ensures value { result ≡ got (table_at store.now table) at }
    ensures names { IfOk result (IsStoreRef store.now) }
{
    store.tables[table as usize].get(at)
}

/// Sets a reference of a table. `Trap` comes exactly where the place passes the end.
pub fn table_set(store: &mut Store, table: u32, at: u32, value: CoreRef) -> Result<(), Trap>
    requires table { table < length store.old.tables }
    requires names { IsStoreRef store.old value }
    ensures { InTable store.old store.new table (λ old new. Sets old new at value result) }
{
    store.tables[table as usize].set(at, value)
}

/// The number of references of a table.
pub fn table_size(store: &Store, table: u32) -> u32
    requires { table < length store.now.tables }
    ensures { result ≡ length (table_at store.now table).refs }
{
    store.tables[table as usize].size()
}

/// Adds references to a table: the old size, or -1 exactly where the maximum or 1,048,576 references would be passed.
pub fn table_grow(
    _alloc: Global,
    store: &mut Store,
    table: u32,
    by: u32,
    value: CoreRef,
) -> Result<i32, NoMemory>
    requires table { table < length store.old.tables }
    requires names { IsStoreRef store.old value }
    ensures { InTable store.old store.new table (λ old new. Grows old new by value result) }
{
    store.tables[table as usize].grow(by, value)
}

/// Sets references of a table to one value. `Trap` comes exactly where they pass the end.
pub fn table_fill(
    store: &mut Store,
    table: u32,
    at: u32,
    value: CoreRef,
    len: u32,
) -> Result<(), Trap>
    requires table { table < length store.old.tables }
    requires names { IsStoreRef store.old value }
    ensures { InTable store.old store.new table (λ old new. Fills old new at value len result) }
{
    store.tables[table as usize].fill(at, value, len)
}

/// Copies references of a table to another or the same, as if by way of another list. `Trap` comes exactly where the source or the target passes the end.
pub fn table_copy(
    store: &mut Store,
    to_table: u32,
    to: u32,
    from_table: u32,
    from: u32,
    len: u32,
) -> Result<(), Trap>
    requires to_table { to_table < length store.old.tables }
    requires from_table { from_table < length store.old.tables }
    ensures { InTable store.old store.new to_table (λ old new. Moves (table_at store.old from_table).refs old new to from len result) }
{
    if to_table == from_table {
        return store.tables[to_table as usize].copy(to, from, len);
    }
    let alloc = store.alloc;
    let source = mem::replace(&mut store.tables[from_table as usize], Table::empty(alloc));
    let result = store.tables[to_table as usize].init(to, source.refs(), from, len);
    store.tables[from_table as usize] = source;
    result
}

/// Copies references of an element segment to a table. `Trap` comes exactly where the source or the target passes the end.
pub fn table_init(
    store: &mut Store,
    table: u32,
    to: u32,
    segment: u32,
    from: u32,
    len: u32,
) -> Result<(), Trap>
    requires table { table < length store.old.tables }
    requires segment { segment < length store.old.elements }
    ensures { InTable store.old store.new table (λ old new. Moves (elements_at store.old segment) old new to from len result) }
{
    let source = store.elements[segment as usize].as_slice();
    store.tables[table as usize].init(to, source, from, len)
}

/// Leaves an element segment without references.
pub fn drop_element(store: &mut Store, segment: u32)
    requires { segment < length store.old.elements }
    ensures { store.new ≡ record store.old { elements = slice_set store.old.elements segment [] } }
{
    store.elements[segment as usize] = CoreRefs::empty(store.alloc);
}
