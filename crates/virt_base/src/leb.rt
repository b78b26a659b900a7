//! Numbers of 32, 33 and 64 bits are read in LEB128 (core WebAssembly, Binary Format, "Integers"). They need not be in their shortest
//! spelling.

ghost use Rattle.std.specs.Prelude.{◌≡◌, ◌<◌, ◌≤◌, ◌^◌, pos, ◌≤ℤ◌, ◌<ℤ◌, neg_ℤ, IfOk, OnErr};
ghost use Rattle.virt_base.specs.Place.{rest, Gives};
ghost use Rattle.virt_base.specs.Leb.{unsigned_at, signed_at, seven, fits_seven, AnswersUnsigned, AnswersSigned};

use crate::byte::next_byte;
use crate::cursor::Cursor;

/// Why no number is read.
#[derive(Debug, Clone, Copy, PartialEq, Eq)]
pub enum LebFault {
    /// The input ends before the number does.
    Short,
    /// The last byte that the width permits has its top bit, or another bit that is not of the number.
    TooLong,
}

/// Reads a number below a limit, lowest seven bits first.
#[tactic(auto, unfolding(crate::specs::Leb::unsigned_at))]
fn unsigned(c: &mut Cursor<'_>, limit: u64) -> Result<u64, LebFault>
    ensures input { c.new.bytes ≡ c.old.bytes }
    ensures value { Gives result c.new (unsigned_at limit c.old.at (rest c.old)) }
    ensures small { IfOk result (λ n. n < limit) }
{
    let Some(byte) = next_byte(c) else {
        return Err(LebFault::Short);
    };
    let low = u64::from(byte);
    if low < 128 {
        if low < limit {
            Ok(low)
        } else {
            Err(LebFault::TooLong)
        }
    } else if limit > 128 {
        let high = unsigned(c, limit / 128)?;
        Ok(low - 128 + 128 * high)
    } else {
        Err(LebFault::TooLong)
    }
}

/// Whether seven bits are of a number from -half to half - 1.
fn fits(half: u64, low: u8) -> bool
    requires small { low < 128 }
    requires bound { half ≤ 2 ^ 63 }
    ensures { result ≡ fits_seven half low }
{
    if low < 64 {
        u64::from(low) < half
    } else {
        128 <= u64::from(low) + half
    }
}

fn seven_of(low: u8) -> i64
    requires { low < 128 }
    ensures { result ≡ seven low }
{
    if low < 64 {
        i64::from(low)
    } else {
        i64::from(low) - 128
    }
}

/// Reads a number from -half to half - 1, lowest seven bits first.
#[tactic(auto, unfolding(crate::specs::Leb::signed_at))]
fn signed(c: &mut Cursor<'_>, half: u64) -> Result<i64, LebFault>
    requires { half ≤ 2 ^ 63 }
    ensures input { c.new.bytes ≡ c.old.bytes }
    ensures value { Gives result c.new (signed_at half c.old.at (rest c.old)) }
    ensures low { IfOk result (λ n. neg_ℤ (pos half) ≤ℤ n) }
    ensures high { IfOk result (λ n. n <ℤ pos half) }
{
    let Some(byte) = next_byte(c) else {
        return Err(LebFault::Short);
    };
    if byte < 128 {
        if fits(half, byte) {
            Ok(seven_of(byte))
        } else {
            Err(LebFault::TooLong)
        }
    } else if half > 64 {
        let high = signed(c, half / 128)?;
        Ok(i64::from(byte - 128) + 128 * high)
    } else {
        Err(LebFault::TooLong)
    }
}

/// Reads an unsigned number of 32 bits. After a refusal the cursor is where it was.
pub fn read_u32(c: &mut Cursor<'_>) -> Result<u32, LebFault>
    ensures input { c.new.bytes ≡ c.old.bytes }
    ensures value { Gives result c.new (unsigned_at (2 ^ 32) c.old.at (rest c.old)) }
    ensures rule { AnswersUnsigned (2 ^ 32) c.old c.new result }
{
    let start = *c;
    match unsigned(c, 1 << 32) {
        Ok(n) => Ok(n as u32),
        Err(fault) => {
            *c = start;
            Err(fault)
        }
    }
}

/// Reads a signed number of `half` values on each side of 0. After a refusal the cursor is where it was.
fn signed_or_back(c: &mut Cursor<'_>, half: u64) -> Result<i64, LebFault>
    requires { half ≤ 2 ^ 63 }
    ensures input { c.new.bytes ≡ c.old.bytes }
    ensures value { Gives result c.new (signed_at half c.old.at (rest c.old)) }
    ensures rule { AnswersSigned half c.old c.new result }
    ensures low { IfOk result (λ n. neg_ℤ (pos half) ≤ℤ n) }
    ensures high { IfOk result (λ n. n <ℤ pos half) }
{
    let start = *c;
    let read = signed(c, half);
    if read.is_err() {
        *c = start;
    }
    read
}

/// Reads a signed number of 32 bits. After a refusal the cursor is where it was.
pub fn read_s32(c: &mut Cursor<'_>) -> Result<i32, LebFault>
    ensures input { c.new.bytes ≡ c.old.bytes }
    ensures value { Gives result c.new (signed_at (2 ^ 31) c.old.at (rest c.old)) }
    ensures rule { AnswersSigned (2 ^ 31) c.old c.new result }
{
    match signed_or_back(c, 1 << 31) {
        Ok(n) => Ok(n as i32),
        Err(fault) => Err(fault),
    }
}

/// Reads a signed number of 33 bits. After a refusal the cursor is where it was.
pub fn read_s33(c: &mut Cursor<'_>) -> Result<i64, LebFault>
    ensures input { c.new.bytes ≡ c.old.bytes }
    ensures value { Gives result c.new (signed_at (2 ^ 32) c.old.at (rest c.old)) }
    ensures rule { AnswersSigned (2 ^ 32) c.old c.new result }
    ensures low { IfOk result (λ n. neg_ℤ (pos (2 ^ 32)) ≤ℤ n) }
    ensures high { IfOk result (λ n. n <ℤ pos (2 ^ 32)) }
{
    signed_or_back(c, 1 << 32)
}

/// Reads a signed number of 64 bits. After a refusal the cursor is where it was.
pub fn read_s64(c: &mut Cursor<'_>) -> Result<i64, LebFault>
    ensures input { c.new.bytes ≡ c.old.bytes }
    ensures value { Gives result c.new (signed_at (2 ^ 63) c.old.at (rest c.old)) }
    ensures rule { AnswersSigned (2 ^ 63) c.old c.new result }
{
    signed_or_back(c, 1 << 63)
}
