//! The instructions of these functions.

ghost use Rattle.std.specs.Prelude.{◌≡◌, true};
ghost use Rattle.adapter_code.specs.declared.statement.Width.TheVariants.{Narrow};
ghost use Rattle.wasm_ast.specs.Numeric.{is_numeric};
ghost use Rattle.adapter_compile.specs.Instructions.{get as get_of, set as set_of, numeric as numeric_of, constant as constant_of};
ghost use Rattle.adapter_transfer.specs.Transfer.{get_end as get_end_of, set_end as set_end_of};

use wasm_ast::{Instr, NumericOp, Op};

/// An i32: the low bits of a value.
pub fn constant(value: u64) -> Instr
    ensures { result ≡ constant_of Narrow value }
{
    Instr::Plain(Op::I32Const(((value % 0x1_0000_0000) as u32).cast_signed()))
}

/// The numeric instruction of an opcode.
pub fn numeric(code: u8) -> Instr
    requires { is_numeric code ≡ true }
    ensures { result ≡ numeric_of code }
{
    match NumericOp::new(code) {
        Some(op) => Instr::Plain(Op::Numeric(op)),
        None => unreachable!(),
    }
}

pub fn get(local: u32) -> Instr
    ensures { result ≡ get_of local }
{
    Instr::Plain(Op::LocalGet(local))
}

pub fn set(local: u32) -> Instr
    ensures { result ≡ set_of local }
{
    Instr::Plain(Op::LocalSet(local))
}

/// Reads the end of the area's used part.
pub fn get_end() -> Instr
    ensures { result ≡ get_end_of }
{
    Instr::Plain(Op::GlobalGet(0))
}

/// Sets it.
pub fn set_end() -> Instr
    ensures { result ≡ set_end_of }
{
    Instr::Plain(Op::GlobalSet(0))
}
