//! Values of `wasi:filesystem/types` (WASI 0.2), as rows over trees and over the scratch folder answer them, and flags.

#![tactic(auto, using(wit_types::proofs::ValueLemmas::values))]

ghost use Rattle.std.specs.Prelude.{◌≡◌, ◌<◌, IfOk};
ghost use Rattle.wit_types.specs.PlainValue.{plain_value};
ghost use Rattle.reference_step.specs.Nodes.{stat_value, hash_value, entry_value};
ghost use Rattle.reference_step.specs.Descriptors.{bytes_from};
ghost use Rattle.reference_step.specs.Values as made;

use crate::values::{bytes, label, none, number, ok, pair, record};
use std::alloc::Global;
use virt_base::{NoMemory, Text};
use wit_types::Value;

/// Whether the flag at a place is set.
pub fn has_flag(bits: u32, place: u32) -> bool
    requires { place < 32 }
    ensures { result ≡ made.has_flag place bits }
{
    (bits >> place) % 2 == 1
}

/// `descriptor-stat`: one link, a size, and no times.
pub fn stat_value(alloc: Global, ty: u32, size: u64) -> Result<Value, NoMemory>
    ensures { IfOk result (λ v. plain_value v ≡ stat_value ty size) }
{
    let mut fields = Vec::with_capacity(alloc, 6)?;
    fields.push_reserved(label(ty));
    fields.push_reserved(number(1));
    fields.push_reserved(number(size));
    fields.push_reserved(none());
    fields.push_reserved(none());
    fields.push_reserved(none());
    Ok(record(fields))
}

/// `metadata-hash-value`.
pub fn hash_value(alloc: Global, lower: u64, upper: u64) -> Result<Value, NoMemory>
    ensures { IfOk result (λ v. plain_value v ≡ hash_value lower upper) }
{
    pair(alloc, number(lower), number(upper))
}

/// `directory-entry`: its type, and its name.
pub fn entry_value(alloc: Global, ty: u32, name: Text) -> Result<Value, NoMemory>
    ensures { IfOk result (λ v. plain_value v ≡ entry_value (record { ty = ty; name = name })) }
{
    pair(alloc, label(ty), Value::Str(name))
}

/// The bytes from an offset on, at most that many, and whether they reach the end.
pub fn bytes_from(alloc: Global, content: &[u8], len: u64, offset: u64) -> Result<Value, NoMemory>
    ensures { IfOk result (λ v. plain_value v ≡ bytes_from content.now len offset) }
{
    let start = offset.min(content.len() as u64) as usize;
    let count = len.min((content.len() - start) as u64) as usize;
    let read = Vec::from_slice(alloc, &content[start..start + count])?;
    let is_end = start + count == content.len();
    ok(alloc, pair(alloc, bytes(read), Value::Bool(is_end))?)
}
