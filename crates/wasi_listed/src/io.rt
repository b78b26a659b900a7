//! The listed interfaces of `wasi:io`, `wasi:cli`, `wasi:clocks` and `wasi:random`.

ghost use Rattle.std.specs.Prelude.{◌≡◌, ◌<◌, IfOk, map};
ghost use Rattle.wasi_table.specs.Plain.{plain_interface, plain_known};
ghost use Rattle.wasi_listed.specs.IoWit.{IsKnown, IsWit};
ghost use Rattle.wasi_listed.specs.IoListed.{described, known_types, numbered};

use crate::io_table::TABLE;
pub use crate::io_wit::WIT;
use std::alloc::Global;
use virt_base::NoMemory;
use wasi_table::{Interface, Known};

/// How many interfaces these are. They are numbered from 0.
pub const COUNT: u32 = 18;

/// The number of the interface with a name without version.
pub fn interface_of(name: &[u8]) -> Option<u32>
    ensures { result ≡ numbered name.now }
{
    wasi_table::number_named(0, TABLE, name)
}

/// The interface with a number.
pub fn describe(alloc: Global, number: u32) -> Result<Interface, NoMemory>
    requires { number < COUNT }
    ensures { IfOk result (λ i. plain_interface i ≡ described number) }
{
    wasi_table::describe(alloc, Vec::new(alloc), 0, TABLE, number)
}

/// What the names of types stand for, for interfaces that use these.
pub fn known_types(alloc: Global) -> Result<Vec<Known>, NoMemory>
    ensures { IfOk result (λ all. map plain_known all.items ≡ known_types) }
{
    let mut known = Vec::new(alloc);
    wasi_table::declare_all(alloc, 0, TABLE, &mut known)?;
    Ok(known)
}

/// The table says what the text says in the notation of WIT, and each of its words is known.
pub fn table_is_wit()
    ensures text { IsWit }
    ensures known { IsKnown }
{}
