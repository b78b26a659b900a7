//! The numeric instructions on integers by opcode: their types, and their names (core WebAssembly, Binary Format, "Numeric
//! Instructions").

ghost use Rattle.std.specs.Prelude.{◌≡◌, ◌<◌, ◌^◌, true, IfSome, is_some};
ghost use Rattle.wasm_ast.specs.Numeric.{numeric, is_numeric};

use std::marker::Model;
use virt_base::CoreType;

/// What a numeric instruction takes and gives: a number of operands of one type, and a result.
#[derive(Debug, Clone, Copy, PartialEq, Eq)]
pub struct Numeric {
    pub params: u8,
    pub from: CoreType,
    pub to: CoreType,
}

const fn takes(params: u8, from: CoreType, to: CoreType) -> Option<Numeric>
    ensures { result ≡ Some (record { params = params; from = from; to = to }) }
{
    Some(Numeric { params, from, to })
}

/// What the opcode's instruction takes and gives; none where it is no numeric instruction on integers.
pub fn numeric_of(op: u8) -> Option<Numeric>
    ensures { result ≡ numeric op }
{
    use CoreType::{I32, I64};
    match op {
        0x45 | 0x67..=0x69 | 0xC0..=0xC1 => takes(1, I32, I32),
        0x46..=0x4F | 0x6A..=0x78 => takes(2, I32, I32),
        0x50 | 0xA7 => takes(1, I64, I32),
        0x51..=0x5A => takes(2, I64, I32),
        0x79..=0x7B | 0xC2..=0xC4 => takes(1, I64, I64),
        0x7C..=0x8A => takes(2, I64, I64),
        0xAC..=0xAD => takes(1, I32, I64),
        _ => None,
    }
}

/// A numeric instruction on integers, which contracts see as its opcode.
#[derive(Debug, Clone, Copy, PartialEq, Eq)]
pub struct NumericOp {
    code: u8,
}

impl Model for NumericOp {
    ghost use Rattle.std.specs.Prelude.{◌≡◌, ℕ, true};
    ghost use Rattle.wasm_ast.specs.Numeric.{is_numeric};

    ghost Value = { ℕ };

    ghost view = { λ o. o.code };

    ghost invariant = { λ o. is_numeric o.code ≡ true };

    ghost inverse = { λ n. record { code = n } };
}

/// The instructions by name (WebAssembly core specification, "Numeric Instructions" of the binary format).
impl NumericOp {
    pub const I32_EQZ: NumericOp = NumericOp { code: 0x45 };

    pub const I32_EQ: NumericOp = NumericOp { code: 0x46 };

    pub const I32_NE: NumericOp = NumericOp { code: 0x47 };

    pub const I32_LT_S: NumericOp = NumericOp { code: 0x48 };

    pub const I32_LT_U: NumericOp = NumericOp { code: 0x49 };

    pub const I32_GT_S: NumericOp = NumericOp { code: 0x4A };

    pub const I32_GT_U: NumericOp = NumericOp { code: 0x4B };

    pub const I32_LE_S: NumericOp = NumericOp { code: 0x4C };

    pub const I32_LE_U: NumericOp = NumericOp { code: 0x4D };

    pub const I32_GE_S: NumericOp = NumericOp { code: 0x4E };

    pub const I32_GE_U: NumericOp = NumericOp { code: 0x4F };

    pub const I64_EQZ: NumericOp = NumericOp { code: 0x50 };

    pub const I64_EQ: NumericOp = NumericOp { code: 0x51 };

    pub const I64_NE: NumericOp = NumericOp { code: 0x52 };

    pub const I64_LT_S: NumericOp = NumericOp { code: 0x53 };

    pub const I64_LT_U: NumericOp = NumericOp { code: 0x54 };

    pub const I64_GT_S: NumericOp = NumericOp { code: 0x55 };

    pub const I64_GT_U: NumericOp = NumericOp { code: 0x56 };

    pub const I64_LE_S: NumericOp = NumericOp { code: 0x57 };

    pub const I64_LE_U: NumericOp = NumericOp { code: 0x58 };

    pub const I64_GE_S: NumericOp = NumericOp { code: 0x59 };

    pub const I64_GE_U: NumericOp = NumericOp { code: 0x5A };

    pub const I32_CLZ: NumericOp = NumericOp { code: 0x67 };

    pub const I32_CTZ: NumericOp = NumericOp { code: 0x68 };

    pub const I32_POPCNT: NumericOp = NumericOp { code: 0x69 };

    pub const I32_ADD: NumericOp = NumericOp { code: 0x6A };

    pub const I32_SUB: NumericOp = NumericOp { code: 0x6B };

    pub const I32_MUL: NumericOp = NumericOp { code: 0x6C };

    pub const I32_DIV_S: NumericOp = NumericOp { code: 0x6D };

    pub const I32_DIV_U: NumericOp = NumericOp { code: 0x6E };

    pub const I32_REM_S: NumericOp = NumericOp { code: 0x6F };

    pub const I32_REM_U: NumericOp = NumericOp { code: 0x70 };

    pub const I32_AND: NumericOp = NumericOp { code: 0x71 };

    pub const I32_OR: NumericOp = NumericOp { code: 0x72 };

    pub const I32_XOR: NumericOp = NumericOp { code: 0x73 };

    pub const I32_SHL: NumericOp = NumericOp { code: 0x74 };

    pub const I32_SHR_S: NumericOp = NumericOp { code: 0x75 };

    pub const I32_SHR_U: NumericOp = NumericOp { code: 0x76 };

    pub const I32_ROTL: NumericOp = NumericOp { code: 0x77 };

    pub const I32_ROTR: NumericOp = NumericOp { code: 0x78 };

    pub const I64_CLZ: NumericOp = NumericOp { code: 0x79 };

    pub const I64_CTZ: NumericOp = NumericOp { code: 0x7A };

    pub const I64_POPCNT: NumericOp = NumericOp { code: 0x7B };

    pub const I64_ADD: NumericOp = NumericOp { code: 0x7C };

    pub const I64_SUB: NumericOp = NumericOp { code: 0x7D };

    pub const I64_MUL: NumericOp = NumericOp { code: 0x7E };

    pub const I64_DIV_S: NumericOp = NumericOp { code: 0x7F };

    pub const I64_DIV_U: NumericOp = NumericOp { code: 0x80 };

    pub const I64_REM_S: NumericOp = NumericOp { code: 0x81 };

    pub const I64_REM_U: NumericOp = NumericOp { code: 0x82 };

    pub const I64_AND: NumericOp = NumericOp { code: 0x83 };

    pub const I64_OR: NumericOp = NumericOp { code: 0x84 };

    pub const I64_XOR: NumericOp = NumericOp { code: 0x85 };

    pub const I64_SHL: NumericOp = NumericOp { code: 0x86 };

    pub const I64_SHR_S: NumericOp = NumericOp { code: 0x87 };

    pub const I64_SHR_U: NumericOp = NumericOp { code: 0x88 };

    pub const I64_ROTL: NumericOp = NumericOp { code: 0x89 };

    pub const I64_ROTR: NumericOp = NumericOp { code: 0x8A };

    pub const I32_WRAP_I64: NumericOp = NumericOp { code: 0xA7 };

    pub const I64_EXTEND_I32_S: NumericOp = NumericOp { code: 0xAC };

    pub const I64_EXTEND_I32_U: NumericOp = NumericOp { code: 0xAD };

    pub const I32_EXTEND8_S: NumericOp = NumericOp { code: 0xC0 };

    pub const I32_EXTEND16_S: NumericOp = NumericOp { code: 0xC1 };

    pub const I64_EXTEND8_S: NumericOp = NumericOp { code: 0xC2 };

    pub const I64_EXTEND16_S: NumericOp = NumericOp { code: 0xC3 };

    pub const I64_EXTEND32_S: NumericOp = NumericOp { code: 0xC4 };
}

impl NumericOp {
    /// The instruction of this opcode, if it is one.
    pub fn new(code: u8) -> Option<NumericOp>
        ensures known { is_some result ≡ is_numeric code }
        ensures code { IfSome result (λ op. op ≡ code) }
    {
        if numeric_of(code).is_some() {
            Some(NumericOp { code })
        } else {
            None
        }
    }

    pub fn code(self) -> u8
        ensures value { result ≡ self }
        ensures known { is_numeric result ≡ true }
    {
        self.code
    }
}
