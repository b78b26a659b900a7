//! Comparisons, counts of bits and arithmetic of i64 (WebAssembly Core 2.0, section 4.3.2).

ghost use Rattle.std.specs.Prelude.{◌≡◌, ◌-◌, ◌≤◌, slice_index_or};
ghost use Rattle.std.specs.Int.{w64, from_bool};
ghost use Rattle.core_integer.specs.Operators.{undefined, idiv_s, idiv_u, irem_s, irem_u};
ghost use Rattle.core_integer.specs.Integer.{tests, counts, results};

use virt_base::Trap;

/// `i64.eq` and the other comparisons, by opcode.
pub fn test64(op: u8, a: u64, b: u64) -> bool
    requires first { 0x51 ≤ op }
    requires last { op ≤ 0x5A }
    ensures { from_bool result ≡ slice_index_or (tests w64 a b) (op - 0x51) 0 }
{
    match op {
        0x51 => a == b,
        0x52 => a != b,
        0x53 => a.cast_signed() < b.cast_signed(),
        0x54 => a < b,
        0x55 => a.cast_signed() > b.cast_signed(),
        0x56 => a > b,
        0x57 => a.cast_signed() <= b.cast_signed(),
        0x58 => a <= b,
        0x59 => a.cast_signed() >= b.cast_signed(),
        0x5A => a >= b,
        _ => unreachable!(),
    }
}

/// `i64.clz`, `ctz` and `popcnt`, by opcode.
pub fn count64(op: u8, a: u64) -> u64
    requires first { 0x79 ≤ op }
    requires last { op ≤ 0x7B }
    ensures { result ≡ slice_index_or (counts w64 a) (op - 0x79) 0 }
{
    match op {
        0x79 => a.leading_zeros() as u64,
        0x7A => a.trailing_zeros() as u64,
        0x7B => a.count_ones() as u64,
        _ => unreachable!(),
    }
}

/// `i64.add` to `rotr`, by opcode. A division with no result traps.
pub fn result64(op: u8, a: u64, b: u64) -> Result<u64, Trap>
    requires first { 0x7C ≤ op }
    requires last { op ≤ 0x8A }
    ensures { result ≡ slice_index_or (results w64 a b) (op - 0x7C) undefined }
{
    match op {
        0x7C => Ok(a.wrapping_add(b)),
        0x7D => Ok(a.wrapping_sub(b)),
        0x7E => Ok(a.wrapping_mul(b)),
        0x7F => divide_signed(a, b),
        0x80 => divide(a, b),
        0x81 => remainder_signed(a, b),
        0x82 => remainder(a, b),
        0x83 => Ok(a & b),
        0x84 => Ok(a | b),
        0x85 => Ok(a ^ b),
        0x86 => Ok(a << (b % 64)),
        0x87 => Ok((a.cast_signed() >> (b % 64)).cast_unsigned()),
        0x88 => Ok(a >> (b % 64)),
        0x89 => Ok(a.rotate_left((b % 64) as u32)),
        0x8A => Ok(a.rotate_right((b % 64) as u32)),
        _ => unreachable!(),
    }
}

fn divide(a: u64, b: u64) -> Result<u64, Trap>
    ensures { result ≡ idiv_u a b }
{
    if b == 0 { Err(Trap) } else { Ok(a / b) }
}

fn remainder(a: u64, b: u64) -> Result<u64, Trap>
    ensures { result ≡ irem_u a b }
{
    if b == 0 { Err(Trap) } else { Ok(a % b) }
}

fn divide_signed(a: u64, b: u64) -> Result<u64, Trap>
    ensures { result ≡ idiv_s w64 a b }
{
    if b == 0 || a == 0x8000_0000_0000_0000 && b == u64::MAX {
        return Err(Trap);
    }
    Ok((a.cast_signed() / b.cast_signed()).cast_unsigned())
}

fn remainder_signed(a: u64, b: u64) -> Result<u64, Trap>
    ensures { result ≡ irem_s w64 a b }
{
    if b == 0 {
        return Err(Trap);
    }
    Ok(
        a.cast_signed()
            .wrapping_rem(b.cast_signed())
            .cast_unsigned(),
    )
}
