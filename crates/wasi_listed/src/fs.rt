//! The listed interfaces of `wasi:filesystem`.

ghost use Rattle.std.specs.Prelude.{◌≡◌, ◌<◌, ◌≤◌, ◌+◌, IfOk};
ghost use Rattle.wasi_table.specs.Plain.{plain_interface};
ghost use Rattle.wasi_listed.specs.FsWit.{IsKnown, IsWit};
ghost use Rattle.wasi_listed.specs.FsListed.{described, numbered};

use crate::fs_table::TABLE;
pub use crate::fs_wit::WIT;
use std::alloc::Global;
use virt_base::NoMemory;
use wasi_table::Interface;

/// The number of the first of these interfaces.
pub const FIRST: u32 = 18;

/// How many interfaces these are.
pub const COUNT: u32 = 2;

/// The number of the interface with a name without version.
pub fn interface_of(name: &[u8]) -> Option<u32>
    ensures { result ≡ numbered name.now }
{
    wasi_table::number_named(FIRST, TABLE, name)
}

/// The interface with a number.
pub fn describe(alloc: Global, number: u32) -> Result<Interface, NoMemory>
    requires from { FIRST ≤ number }
    requires below { number < FIRST + COUNT }
    ensures { IfOk result (λ i. plain_interface i ≡ described number) }
{
    let known = crate::io::known_types(alloc)?;
    wasi_table::describe(alloc, known, FIRST, TABLE, number)
}

/// The table says what the text says in the notation of WIT, and each of its words is known.
pub fn table_is_wit()
    ensures text { IsWit }
    ensures known { IsKnown }
{}
