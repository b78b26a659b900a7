//! Memories of one page.

ghost use Rattle.std.specs.Prelude.{◌<◌, length, IfOk};

use crate::texts::halves;
use core_store::{Store, add_memory, read, write};
use std::alloc::Global;
use std::test::Fail;

/// A store with one memory of one page, which holds these bytes at a place, and else zeros.
pub fn memory_with(alloc: Global, at: u64, bytes: &[u8]) -> Result<Store, Fail>
    ensures { IfOk result (λ s. 0 < length s.memories) }
{
    let mut store = Store::new(alloc);
    let _memory = add_memory(alloc, &mut store, 1, None)?;
    write(&mut store, 0, at, bytes)?;
    Ok(store)
}

/// The same with 64 bytes ff for `ones`, and with zeros alone for any other word.
pub fn filled_with(alloc: Global, word: &str) -> Result<Store, Fail>
    ensures { IfOk result (λ s. 0 < length s.memories) }
{
    if word == "ones" {
        memory_with(alloc, 0, &[255; 64])
    } else {
        memory_with(alloc, 0, &[])
    }
}

/// Adds the digits of bytes of the memory: `FROM COUNT`.
pub fn push_digits(alloc: Global, store: &Store, range: &str, text: &mut String) -> Result<(), Fail>
    requires { 0 < length store.now.memories }
{
    let (from, count) = halves(range, " ");
    let bytes = read(store, 0, from.parse::<u64>()?, count.parse::<u64>()?)?;
    text.push_str(hex::encode(alloc, bytes.as_slice())?.as_str())?;
    Ok(())
}
