//! Strings and lists of bytes, which are loaded as one run, and the test that a range is within a memory.

#![tactic(auto, using(crate::proofs::Views::views))]

ghost use Rattle.std.specs.Prelude.{◌≡◌, ◌<◌, ◌≤◌, ◌^◌, ◌+◌, ◌*◌, length, take, drop, Some, None, IfOk, IsErrOf, IsTrue, ◌↔◌, ℕ, slice_index};
ghost use Rattle.core_memory.specs.Linear.{range};
ghost use Rattle.core_store.specs.State.{memory_at};
ghost use Rattle.wit_types.specs.PlainValue.{StringValue, byte_values, ListValue};
ghost use Rattle.wit_types.specs.Plain.{UnsignedType, OneByte};
ghost use Rattle.abi_layout.specs.Loading.{string_at, items_at, loads_at};
ghost use Rattle.abi_load.specs.Loaded.{bytes_at};

use crate::fault::LoadFault;
use core_store::{Store, read, size};
use virt_base::{Bytes, Text};

/// Whether `len` bytes from a place on are within a memory.
pub fn is_within(store: &Store, memory: u32, place: u64, len: u64) -> bool
    requires memory { memory < length store.now.memories }
    ensures within { IsTrue result ↔ (place + len ≤ length (bytes_at store.now memory)) }
    ensures few { length (bytes_at store.now memory) < 2 ^ 48 }
{
    let end = size(store, memory) as u64 * 65536;
    place <= end && len <= end - place
}

/// The string of `len` bytes at a place.
pub fn load_string(store: &Store, memory: u32, place: u64, len: u64) -> Result<Text, LoadFault>
    requires { memory < length store.now.memories }
    ensures ok { IfOk result (λ t. string_at (bytes_at store.now memory) place len ≡ Some (StringValue t)) }
    ensures trap { IsErrOf result LoadFault.Trap → string_at (bytes_at store.now memory) place len ≡ None }
{
    let bytes = read(store, memory, place, len)?;
    let Ok(chars) = String::from_utf8(bytes.into_vec()) else {
        return Err(LoadFault::Trap);
    };
    let text = Text::from_string(chars);
    let _utf8 = text.bytes();
    Ok(text)
}

/// The bytes of a list of bytes, which are within the memory.
pub fn load_bytes(store: &Store, memory: u32, place: u64, count: u64) -> Result<Bytes, LoadFault>
    requires memory { memory < length store.now.memories }
    requires within { place + count ≤ length (bytes_at store.now memory) }
    ensures ok { IfOk result (λ b. items_at (λ p. loads_at (bytes_at store.now memory) (UnsignedType OneByte) p) 1 place count ≡ Some (byte_values b)) }
    ensures trap { ¬ (IsErrOf result LoadFault.Trap) }
{
    let bytes = read(store, memory, place, count)?;
    are_small(bytes.as_slice());
    Ok(bytes)
}

/// Each byte is below 256, which a list of numbers does not tell.
fn are_small(bytes: &[u8])
    ensures { (k : ℕ) → slice_index bytes.now k < 256 }
{
    let _bytes = bytes;
}
