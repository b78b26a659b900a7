//! The instructions that make an integer longer or shorter, and those that extend its sign (WebAssembly Core 2.0, section 4.3.2).

ghost use Rattle.std.specs.Prelude.{◌≡◌, ◌⊎◌, ◌<◌, ◌^◌};
ghost use Rattle.std.specs.Int.{w8, w16, w32, w64};
ghost use Rattle.core_integer.specs.Operators.{iextend_s, wrap};
ghost use Rattle.core_integer.specs.Integer.{converted};

/// `i32.wrap_i64`, `i64.extend_i32_s` and `_u`, and the sign extensions, by opcode.
pub fn convert(op: u8, a: u64) -> u64
    ensures value { result ≡ converted op a }
    ensures fits { op ≡ 0xA7 ⊎ op ≡ 0xC0 ⊎ op ≡ 0xC1 → result < 2 ^ 32 }
{
    match op {
        0xA7 => low32(a) as u64,
        0xAC => extend32(a),
        0xAD => a,
        0xC0 => (low8(a).cast_signed() as i32).cast_unsigned() as u64,
        0xC1 => (low16(a).cast_signed() as i32).cast_unsigned() as u64,
        0xC2 => (low8(a).cast_signed() as i64).cast_unsigned(),
        0xC3 => (low16(a).cast_signed() as i64).cast_unsigned(),
        _ => extend32(a),
    }
}

fn extend32(a: u64) -> u64
    ensures { result ≡ iextend_s w32 w64 a }
{
    (low32(a).cast_signed() as i64).cast_unsigned()
}

fn low32(a: u64) -> u32
    ensures { result ≡ wrap w32 a }
{
    (a % 0x1_0000_0000) as u32
}

fn low16(a: u64) -> u16
    ensures { result ≡ wrap w16 a }
{
    (a % 0x1_0000) as u16
}

fn low8(a: u64) -> u8
    ensures { result ≡ wrap w8 a }
{
    (a % 0x100) as u8
}
