//! Numbers are written in LEB128, each in its shortest spelling (core WebAssembly, Binary Format, "Integers"). They are read in `leb`.

ghost use Rattle.std.specs.Prelude.{◌≡◌, ◌++◌, ◌<◌, ◌≤◌, ◌^◌, OnOk, OnErr, take, length};
ghost use Rattle.virt_base.specs.Leb.{limit_of, shortest_unsigned, shortest_by, shortest_signed, low_bits, number_by, IsUnsigned, IsSigned, IsShortest};

use crate::fault::NoMemory;
use std::alloc::{AllocError, Global};

/// Writes a number, of at most `more` bytes after the first.
fn push_unsigned(out: &mut Vec<u8>, value: u64, more: u8) -> Result<(), AllocError>
    requires { value < limit_of 128 more }
    ensures ok { OnOk result (out.new.items ≡ out.old.items ++ shortest_unsigned more value) }
    ensures err { OnErr result (take (length out.old.items) out.new.items ≡ out.old.items) }
{
    if value < 128 {
        out.push(value as u8)?;
        return Ok(());
    }
    out.push((value % 128 + 128) as u8)?;
    push_unsigned(out, value / 128, more - 1)
}

/// Seven bits of a number, or of -1 less that number.
fn bits_of(negative: bool, low: u8) -> u8
    requires { low < 128 }
    ensures value { result ≡ low_bits negative low }
    ensures small { result < 128 }
{
    if negative { 127 - low } else { low }
}

/// Writes `value`, or -1 less it, of at most `more` bytes after the first.
fn push_signed(out: &mut Vec<u8>, negative: bool, value: u64, more: u8) -> Result<(), AllocError>
    requires { value < limit_of 64 more }
    ensures ok { OnOk result (out.new.items ≡ out.old.items ++ shortest_by negative more value) }
    ensures err { OnErr result (take (length out.old.items) out.new.items ≡ out.old.items) }
{
    if value < 64 {
        out.push(bits_of(negative, value as u8))?;
        return Ok(());
    }
    out.push(bits_of(negative, (value % 128) as u8) + 128)?;
    push_signed(out, negative, value / 128, more - 1)
}

/// Adds the shortest spelling of an unsigned number of 32 bits. Where memory runs out the bytes stay as they were.
pub fn write_u32(_alloc: Global, out: &mut Vec<u8>, value: u32) -> Result<(), NoMemory>
    ensures ok { OnOk result (out.new.items ≡ out.old.items ++ shortest_unsigned 4 value) }
    ensures err { OnErr result (out.new.items ≡ out.old.items) }
    ensures shortest { IsShortest (IsUnsigned (2 ^ 32) value) (shortest_unsigned 4 value) }
{
    let before = out.len();
    match push_unsigned(out, u64::from(value), 4) {
        Ok(()) => Ok(()),
        Err(_) => {
            out.truncate(before);
            Err(NoMemory)
        }
    }
}

/// Whether a number is negative, and the number, or -1 less it where it is.
fn sign_and_bits(value: i64) -> (bool, u64)
    ensures number { value ≡ number_by result.0 result.1 }
    ensures small { result.1 < 2 ^ 63 }
{
    if value < 0 {
        (true, (-1 - value) as u64)
    } else {
        (false, value as u64)
    }
}

/// Adds the shortest spelling of a signed number of 64 bits. Where memory runs out the bytes stay as they were.
pub fn write_s64(_alloc: Global, out: &mut Vec<u8>, value: i64) -> Result<(), NoMemory>
    ensures ok { OnOk result (out.new.items ≡ out.old.items ++ shortest_signed 9 value) }
    ensures err { OnErr result (out.new.items ≡ out.old.items) }
    ensures shortest { IsShortest (IsSigned (2 ^ 63) value) (shortest_signed 9 value) }
{
    let before = out.len();
    let (negative, bits) = sign_and_bits(value);
    match push_signed(out, negative, bits, 9) {
        Ok(()) => Ok(()),
        Err(_) => {
            out.truncate(before);
            Err(NoMemory)
        }
    }
}
