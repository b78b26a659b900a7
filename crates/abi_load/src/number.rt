//! Values that are one number: integers with their sign, chars, flags and handles. Loading and lifting share it.

#![tactic(auto, using(crate::proofs::Views::views))]

ghost use Rattle.std.specs.Prelude.{◌≡◌, ◌<◌, ◌≤◌, ◌^◌, ◌*◌, ◌-ℤ◌, pos, nat_lt, length, Some, None, IfOk, IsErrOf, if◌then◌else◌, option_map, option_and_then, ◌%◌};
ghost use Rattle.core_memory.specs.Number.{IsWidth};
ghost use Rattle.wit_types.specs.Plain.{plain};
ghost use Rattle.wit_types.specs.PlainValue.{plain_value, CharValue};
ghost use Rattle.wit_types.specs.HasType.{is_scalar};
ghost use Rattle.abi_layout.specs.Numbers.{value_of};
ghost use Rattle.abi_layout.specs.Loading.{read};
ghost use Rattle.abi_load.specs.Loaded.{bytes_at};

use crate::fault::LoadFault;
use core_store::{Store, load};
use wit_types::{Value, WitType};

/// The integer of at most four bytes at a place.
pub fn short_number(store: &Store, memory: u32, at: u64, width: u8) -> Result<u32, LoadFault>
    requires memory { memory < length store.now.memories }
    requires width { IsWidth width }
    requires short { width ≤ 4 }
    ensures ok { IfOk result (λ n. read (bytes_at store.now memory) at width ≡ Some n) }
    ensures trap { IsErrOf result LoadFault.Trap → read (bytes_at store.now memory) at width ≡ None }
{
    let number = load(store, memory, at, width)?;
    Ok(number as u32)
}

/// The integer of eight bytes at a place.
pub fn long_number(store: &Store, memory: u32, at: u64) -> Result<u64, LoadFault>
    requires memory { memory < length store.now.memories }
    ensures ok { IfOk result (λ n. read (bytes_at store.now memory) at 8 ≡ Some n) }
    ensures trap { IsErrOf result LoadFault.Trap → read (bytes_at store.now memory) at 8 ≡ None }
{
    let number = load(store, memory, at, 8)?;
    Ok(number)
}

/// The value of one number of at most four bytes at a place.
pub fn load_number(
    store: &Store,
    memory: u32,
    ty: &WitType,
    at: u64,
    width: u8,
) -> Result<Value, LoadFault>
    requires memory { memory < length store.now.memories }
    requires width { IsWidth width }
    requires short { width ≤ 4 }
    ensures ok { IfOk result (λ v. option_and_then (λ n. value_of (plain ty.now) n) (read (bytes_at store.now memory) at width) ≡ Some (plain_value v)) }
    ensures trap { IsErrOf result LoadFault.Trap → option_and_then (λ n. value_of (plain ty.now) n) (read (bytes_at store.now memory) at width) ≡ None }
{
    let number = short_number(store, memory, at, width)?;
    match short_value(ty, number) {
        Some(value) => Ok(value),
        None => Err(LoadFault::Trap),
    }
}

/// The integer that has these bits, of twice as many as are not negative.
pub fn with_sign(bits: u64, half: u64) -> i128
    requires { half ≤ 2 ^ 63 }
    ensures { result ≡ (if nat_lt bits half then pos bits else (pos bits -ℤ pos (2 * half))) }
{
    if bits < half {
        bits as i128
    } else {
        bits as i128 - 2 * (half as i128)
    }
}

/// The value of a number, of a type whose values are one number of at most 32 bits each.
pub fn short_value(ty: &WitType, number: u32) -> Option<Value>
    ensures { option_map (λ v. plain_value v) result ≡ value_of (plain ty.now) number }
{
    let wide = number as u64;
    match ty {
        WitType::Bool => Some(Value::Bool(number != 0)),
        WitType::S8 => Some(Value::Int(with_sign(wide % 0x100, 0x80))),
        WitType::U8 => Some(Value::Int((wide % 0x100) as i128)),
        WitType::S16 => Some(Value::Int(with_sign(wide % 0x1_0000, 0x8000))),
        WitType::U16 => Some(Value::Int((wide % 0x1_0000) as i128)),
        WitType::S32 => Some(Value::Int(with_sign(wide % 0x1_0000_0000, 0x8000_0000))),
        WitType::U32 => Some(Value::Int((wide % 0x1_0000_0000) as i128)),
        WitType::S64 => Some(Value::Int(with_sign(wide, 0x8000_0000_0000_0000))),
        WitType::U64 => Some(Value::Int(wide as i128)),
        WitType::Char => char_value(number),
        WitType::Flags(labels) => Some(Value::Flags(known_flags(number, labels.len()))),
        WitType::Own(_) | WitType::Borrow(_) => Some(Value::Handle(number)),
        _ => None,
    }
}

/// A char must be no surrogate.
fn char_value(code: u32) -> Option<Value>
    ensures { option_map (λ v. plain_value v) result ≡ (if is_scalar code then Some (CharValue code) else None) }
{
    match char::from_u32(code) {
        Some(known) => Some(Value::Char(known)),
        None => None,
    }
}

/// The bits that the flags of that many labels have.
fn known_flags(bits: u32, labels: usize) -> u32
    ensures { result ≡ bits % 2 ^ labels }
{
    if labels >= 32 {
        bits
    } else {
        bits % (1 << labels)
    }
}
