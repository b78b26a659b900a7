//! Values that are one number, as numbers, and many of them as one run of bytes. Storing and lowering share it.

#![tactic(auto, using(crate::proofs::Views::views))]

ghost use Rattle.std.specs.Prelude.{◌≡◌, ◌<◌, ◌≤◌, ◌^◌, ◌++◌, ℕ, slice_index, IfOk};
ghost use Rattle.core_memory.specs.Number.{bytes_of};
ghost use Rattle.wit_types.specs.PlainValue.{plain_value, plain_values, values_of, byte_values};
ghost use Rattle.abi_layout.specs.Numbers.{within as among, number_of};
ghost use Rattle.abi_layout.specs.Storing.{run_bytes};

use std::alloc::Global;
use virt_base::{Bytes, NoMemory};
use wit_types::{Value, Values};

/// How many numbers a core integer of 64 bits holds.
pub const LONG: u128 = 0x1_0000_0000_0000_0000;

/// How many numbers a core integer of 32 bits holds.
pub const SHORT: u128 = 0x1_0000_0000;

/// An integer among `count` numbers, a negative one in two's complement.
fn within(count: u128, n: i128) -> u128
    requires { 0 < count }
    ensures value { result ≡ among count n }
    ensures fits { result < count }
{
    if n >= 0 {
        n as u128 % count
    } else {
        count - 1 - (-1 - n) as u128 % count
    }
}

/// The number of a value, where an integer is one of `count` numbers; 0 for a value that is none.
pub fn number(count: u128, value: &Value) -> u64
    requires some { 0 < count }
    requires fits { count ≤ 2 ^ 64 }
    ensures { result ≡ number_of count (plain_value value.now) }
{
    match value {
        Value::Bool(b) => *b as u64,
        Value::Int(n) => within(count, *n) as u64,
        Value::Char(c) => u32::from(*c) as u64,
        Value::Flags(bits) => *bits as u64,
        Value::Handle(index) => *index as u64,
        Value::Str(_) | Value::List(_) | Value::Record(_) | Value::Variant(_, _) => 0,
    }
}

/// Adds the lowest bytes of a number.
fn push_number(run: &mut Vec<u8>, number: u64, width: u8) -> Result<(), NoMemory>
    ensures { IfOk result (λ _. run.new.items ≡ run.old.items ++ bytes_of width number) }
{
    let mut rest = number;
    for _done in 0..width {
        run.push((rest % 256) as u8)?;
        rest /= 256;
    }
    Ok(())
}

fn run_of_each(alloc: Global, values: &[Value], width: u8) -> Result<Bytes, NoMemory>
    ensures { IfOk result (λ run. run ≡ run_bytes width (values_of values.now)) }
{
    let mut run = Vec::new(alloc);
    for value in values {
        push_number(&mut run, number(LONG, value), width)?;
    }
    Ok(Bytes::new(run))
}

fn run_of_bytes(alloc: Global, values: &[u8], width: u8) -> Result<Bytes, NoMemory>
    ensures { IfOk result (λ run. run ≡ run_bytes width (byte_values values.now)) }
{
    let mut run = Vec::new(alloc);
    for byte in values {
        push_number(&mut run, *byte as u64, width)?;
    }
    Ok(Bytes::new(run))
}

/// Each byte is below 256, which a list of numbers does not tell.
fn are_small(values: &[u8])
    ensures { (k : ℕ) → slice_index values.now k < 256 }
{
    let _values = values;
}

/// A run of bytes is its own.
fn is_own_run(values: &[u8])
    ensures { run_bytes 1 (byte_values values.now) ≡ values.now }
{
    are_small(values);
}

/// The numbers of values one after the other, each in `width` bytes. A run of bytes is not copied.
pub fn run_of(alloc: Global, values: Values, width: u8) -> Result<Bytes, NoMemory>
    ensures { IfOk result (λ run. run ≡ run_bytes width (plain_values values)) }
{
    match values {
        Values::Each(values) => run_of_each(alloc, &values, width),
        Values::Bytes(bytes) => {
            if width == 1 {
                is_own_run(bytes.as_slice());
                Ok(bytes)
            } else {
                run_of_bytes(alloc, bytes.as_slice(), width)
            }
        }
    }
}
