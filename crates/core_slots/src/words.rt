//! Words of 64 bits that stand for core values, and the values that words stand for by a type. A reference is a function's place plus
//! one, or 0 for null.

ghost use Rattle.std.specs.Prelude.{◌≡◌, ◌<◌, ◌^◌, IfOk, length};
ghost use Rattle.core_store.specs.Words.{i32_in, word_of, word_of_ref as word_of_reference, ref_in, value_in, value_like as value_of_word, values_in};

use core_store::{CoreRef, CoreValue};
use std::alloc::Global;
use virt_base::{CoreType, Items, NoMemory};

/// Values in order.
pub type CoreValues = Items<CoreValue>;

/// The word of a reference: 0 for null, and one more than a function's place.
#[inline]
pub fn word_of_ref(reference: CoreRef) -> u64
    ensures { result ≡ word_of_reference reference }
{
    match reference {
        CoreRef::Null => 0,
        CoreRef::Func(at) => at as u64 + 1,
    }
}

/// The word of a value.
#[inline]
pub fn word(value: CoreValue) -> u64
    ensures { result ≡ word_of value }
{
    match value {
        CoreValue::I32(n) => n as u64,
        CoreValue::I64(n) => n,
        CoreValue::Ref(r) => word_of_ref(r),
    }
}

// The lowest 32 bits.
#[inline]
fn low(word: u64) -> u32
    ensures { result ≡ i32_in word }
{
    (word % 0x1_0000_0000) as u32
}

/// The reference of a word, in a store of that many functions.
pub fn reference(functions: u32, word: u64) -> CoreRef
    ensures { result ≡ ref_in functions word }
{
    if word == 0 || word > functions as u64 {
        return CoreRef::Null;
    }
    CoreRef::Func((word - 1) as u32)
}

/// The value of a type of a word, in a store of that many functions.
pub fn value(functions: u32, ty: CoreType, word: u64) -> CoreValue
    ensures { result ≡ value_in functions ty word }
{
    match ty {
        CoreType::I32 => CoreValue::I32(low(word)),
        CoreType::I64 => CoreValue::I64(word),
        CoreType::Funcref => CoreValue::Ref(reference(functions, word)),
        CoreType::Externref => CoreValue::Ref(reference(functions, word)),
    }
}

/// The value of a word that has the type of another value.
pub fn value_like(functions: u32, old: CoreValue, word: u64) -> CoreValue
    ensures { result ≡ value_of_word functions old word }
{
    match old {
        CoreValue::I32(_) => CoreValue::I32(low(word)),
        CoreValue::I64(_) => CoreValue::I64(word),
        CoreValue::Ref(_) => CoreValue::Ref(reference(functions, word)),
    }
}

/// The values of words at these types, as many as there are of both.
#[tactic(auto, using(crate::proofs::ValueLaws::values_none, crate::proofs::ValueLaws::values_more, crate::proofs::ValueLaws::values_all))]
pub fn values(
    alloc: Global,
    functions: u32,
    types: &[CoreType],
    words: &[u64],
) -> Result<CoreValues, NoMemory>
    ensures { IfOk result (λ values. values ≡ values_in functions types.now words.now) }
{
    let mut values = Items::empty(alloc);
    for i in 0..types.len().min(words.len()) {
        values.push(value(functions, types[i], words[i]))?;
    }
    Ok(values)
}
