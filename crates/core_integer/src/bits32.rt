//! Comparisons, counts of bits and arithmetic of i32 (WebAssembly Core 2.0, section 4.3.2).

ghost use Rattle.std.specs.Prelude.{◌≡◌, ◌-◌, ◌≤◌, slice_index_or};
ghost use Rattle.std.specs.Int.{w32, from_bool};
ghost use Rattle.core_integer.specs.Operators.{undefined, idiv_s, idiv_u, irem_s, irem_u};
ghost use Rattle.core_integer.specs.Integer.{tests, counts, results};

use virt_base::Trap;

/// `i32.eq` and the other comparisons, by opcode.
pub fn test32(op: u8, a: u32, b: u32) -> bool
    requires first { 0x46 ≤ op }
    requires last { op ≤ 0x4F }
    ensures { from_bool result ≡ slice_index_or (tests w32 a b) (op - 0x46) 0 }
{
    match op {
        0x46 => a == b,
        0x47 => a != b,
        0x48 => a.cast_signed() < b.cast_signed(),
        0x49 => a < b,
        0x4A => a.cast_signed() > b.cast_signed(),
        0x4B => a > b,
        0x4C => a.cast_signed() <= b.cast_signed(),
        0x4D => a <= b,
        0x4E => a.cast_signed() >= b.cast_signed(),
        0x4F => a >= b,
        _ => unreachable!(),
    }
}

/// `i32.clz`, `ctz` and `popcnt`, by opcode.
pub fn count32(op: u8, a: u32) -> u32
    requires first { 0x67 ≤ op }
    requires last { op ≤ 0x69 }
    ensures { result ≡ slice_index_or (counts w32 a) (op - 0x67) 0 }
{
    match op {
        0x67 => a.leading_zeros(),
        0x68 => a.trailing_zeros(),
        0x69 => a.count_ones(),
        _ => unreachable!(),
    }
}

/// `i32.add` to `rotr`, by opcode. A division with no result traps.
pub fn result32(op: u8, a: u32, b: u32) -> Result<u32, Trap>
    requires first { 0x6A ≤ op }
    requires last { op ≤ 0x78 }
    ensures { result ≡ slice_index_or (results w32 a b) (op - 0x6A) undefined }
{
    match op {
        0x6A => Ok(a.wrapping_add(b)),
        0x6B => Ok(a.wrapping_sub(b)),
        0x6C => Ok(a.wrapping_mul(b)),
        0x6D => divide_signed(a, b),
        0x6E => divide(a, b),
        0x6F => remainder_signed(a, b),
        0x70 => remainder(a, b),
        0x71 => Ok(a & b),
        0x72 => Ok(a | b),
        0x73 => Ok(a ^ b),
        0x74 => Ok(a << (b % 32)),
        0x75 => Ok((a.cast_signed() >> (b % 32)).cast_unsigned()),
        0x76 => Ok(a >> (b % 32)),
        0x77 => Ok(a.rotate_left(b)),
        0x78 => Ok(a.rotate_right(b)),
        _ => unreachable!(),
    }
}

fn divide(a: u32, b: u32) -> Result<u32, Trap>
    ensures { result ≡ idiv_u a b }
{
    if b == 0 { Err(Trap) } else { Ok(a / b) }
}

fn remainder(a: u32, b: u32) -> Result<u32, Trap>
    ensures { result ≡ irem_u a b }
{
    if b == 0 { Err(Trap) } else { Ok(a % b) }
}

fn divide_signed(a: u32, b: u32) -> Result<u32, Trap>
    ensures { result ≡ idiv_s w32 a b }
{
    if b == 0 || a == 0x8000_0000 && b == u32::MAX {
        return Err(Trap);
    }
    Ok((a.cast_signed() / b.cast_signed()).cast_unsigned())
}

fn remainder_signed(a: u32, b: u32) -> Result<u32, Trap>
    ensures { result ≡ irem_s w32 a b }
{
    if b == 0 {
        return Err(Trap);
    }
    Ok(
        a.cast_signed()
            .wrapping_rem(b.cast_signed())
            .cast_unsigned(),
    )
}
