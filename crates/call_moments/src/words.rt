//! Core values of 32 bits: arguments and results of canonical functions, and the arguments of `realloc`.

ghost use Rattle.std.specs.Prelude.{◌≡◌, ◌∷◌, [], IfOk, Some, slice_get};
ghost use Rattle.core_store.specs.declared.value.CoreValue.TheVariants.{I32 as Word};
ghost use Rattle.call_moments.specs.Words.{word_in, only_word_in};

use core_slots::CoreValues;
use core_store::CoreValue;
use std::alloc::Global;
use virt_base::{Items, NoMemory};

/// The word at an index of core values.
pub fn word_at(values: &CoreValues, index: usize) -> u32
    ensures { result ≡ word_in (slice_get values.now index) }
{
    match values.as_slice().get(index) {
        Some(CoreValue::I32(word)) => *word,
        Some(CoreValue::I64(_)) | Some(CoreValue::Ref(_)) | None => 0,
    }
}

/// The only value, if it is a word.
pub fn only_word(values: &CoreValues) -> Option<u32>
    ensures { result ≡ only_word_in values.now }
{
    match values.as_slice() {
        [CoreValue::I32(word)] => Some(*word),
        _ => None,
    }
}

/// One word alone.
pub fn one_word(alloc: Global, word: u32) -> Result<CoreValues, NoMemory>
    ensures { IfOk result (λ values. values ≡ Word word ∷ []) }
{
    let mut values = Items::empty(alloc);
    values.push(CoreValue::I32(word))?;
    Ok(values)
}

/// The arguments by which `realloc` is asked for new room (CanonicalABI.md, `store_string_copy`).
pub fn request(alloc: Global, align: u32, len: u32) -> Result<CoreValues, NoMemory>
    ensures { IfOk result (λ values. values ≡ Word 0 ∷ Word 0 ∷ Word align ∷ Word len ∷ []) }
{
    let mut args = Items::empty(alloc);
    args.push(CoreValue::I32(0))?;
    args.push(CoreValue::I32(0))?;
    args.push(CoreValue::I32(align))?;
    args.push(CoreValue::I32(len))?;
    Ok(args)
}
