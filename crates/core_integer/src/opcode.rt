//! One function for all numeric instructions on integers: the opcode chooses.

ghost use Rattle.std.specs.Prelude.{◌≡◌, true, IfOk};
ghost use Rattle.wasm_ast.specs.Numeric.{is_numeric, numeric};
ghost use Rattle.core_integer.specs.Integer.{integer as integer_of, AreOperands, IsResult};

use crate::bits32::{count32, result32, test32};
use crate::bits64::{count64, result64, test64};
use crate::widths::convert;
use virt_base::Trap;

/// The value of the numeric instruction of this opcode on integers (WebAssembly Core 2.0, section 4.3.2).
/// An operand or a result of type i32 is a number below 2^32. Where the instruction takes one operand, `b` is not looked at.
/// `Trap` comes exactly for a zero divisor, and for the least integer divided by -1.
pub fn integer(op: u8, a: u64, b: u64) -> Result<u64, Trap>
    requires numeric { is_numeric op ≡ true }
    requires operands { AreOperands (numeric op) a b }
    ensures value { result ≡ integer_of op a b }
    ensures fits { IfOk result (IsResult (numeric op)) }
{
    match op {
        0x6A..=0x78 => Ok(result32(op, a as u32, b as u32)? as u64),
        0x46..=0x4F => Ok(test32(op, a as u32, b as u32) as u64),
        0x45 | 0x50 => Ok((a == 0) as u64),
        0x7C..=0x8A => result64(op, a, b),
        0x51..=0x5A => Ok(test64(op, a, b) as u64),
        0x67..=0x69 => Ok(count32(op, a as u32) as u64),
        0x79..=0x7B => Ok(count64(op, a)),
        _ => Ok(convert(op, a)),
    }
}
