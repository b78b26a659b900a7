//! The core instructions for constants, operators, loads and stores of the table language (core WebAssembly, "Instructions").

ghost use Rattle.std.specs.Prelude.{◌≡◌, true};
ghost use Rattle.adapter_code.specs.declared.statement.Width.TheVariants.{Narrow, Broad};
ghost use Rattle.wasm_ast.specs.Numeric.{is_numeric};
ghost use Rattle.adapter_compile.specs.Instructions.{opcode as opcode_of, load_of as load_at, store_of as store_at, constant as constant_of, numeric as numeric_of};

use adapter_code::{IntOp, Width};
use wasm_ast::{Instr, LoadOp, NumericOp, Op, StoreOp};

/// A constant: the low bits of a value.
pub fn constant(width: Width, value: u64) -> Instr
    ensures { result ≡ constant_of width value }
{
    match width {
        Width::Narrow => {
            Instr::Plain(Op::I32Const(((value % 0x1_0000_0000) as u32).cast_signed()))
        }
        Width::Broad => Instr::I64Const(value.cast_signed()),
    }
}

/// The instruction of an operator.
pub fn operator(op: IntOp, width: Width) -> Instr
    ensures { result ≡ numeric_of (opcode_of op width) }
{
    numeric(opcode(op, width))
}

fn opcode(op: IntOp, width: Width) -> u8
    ensures { result ≡ opcode_of op width }
{
    match width {
        Width::Narrow => narrow_opcode(op),
        Width::Broad => broad_opcode(op),
    }
}

fn narrow_opcode(op: IntOp) -> u8
    ensures { result ≡ opcode_of op Narrow }
{
    match op {
        IntOp::Eq => 0x46,
        IntOp::Ne => 0x47,
        IntOp::LtU => 0x49,
        IntOp::LeU => 0x4D,
        IntOp::Add => 0x6A,
        IntOp::Sub => 0x6B,
        IntOp::Mul => 0x6C,
        IntOp::And => 0x71,
        IntOp::Or => 0x72,
        IntOp::Xor => 0x73,
        IntOp::Shl => 0x74,
        IntOp::ShrU => 0x76,
    }
}

fn broad_opcode(op: IntOp) -> u8
    ensures { result ≡ opcode_of op Broad }
{
    match op {
        IntOp::Eq => 0x51,
        IntOp::Ne => 0x52,
        IntOp::LtU => 0x54,
        IntOp::LeU => 0x58,
        IntOp::Add => 0x7C,
        IntOp::Sub => 0x7D,
        IntOp::Mul => 0x7E,
        IntOp::And => 0x83,
        IntOp::Or => 0x84,
        IntOp::Xor => 0x85,
        IntOp::Shl => 0x86,
        IntOp::ShrU => 0x88,
    }
}

/// The numeric instruction of an opcode.
pub fn numeric(code: u8) -> Instr
    requires { is_numeric code ≡ true }
    ensures { result ≡ numeric_of code }
{
    match NumericOp::new(code) {
        Some(op) => Instr::Plain(Op::Numeric(op)),
        None => unreachable!(),
    }
}

/// The load of that many bytes into a local of a width.
pub fn load_of(width: Width, size: u8) -> LoadOp
    ensures { result ≡ load_at width size }
{
    match width {
        Width::Narrow => match size {
            1 => LoadOp::I32Narrow8U,
            2 => LoadOp::I32Narrow16U,
            _ => LoadOp::I32,
        },
        Width::Broad => match size {
            1 => LoadOp::I64Narrow8U,
            2 => LoadOp::I64Narrow16U,
            4 => LoadOp::I64Narrow32U,
            _ => LoadOp::I64,
        },
    }
}

/// The store of that many bytes of a local of a width.
pub fn store_of(width: Width, size: u8) -> StoreOp
    ensures { result ≡ store_at width size }
{
    match width {
        Width::Narrow => match size {
            1 => StoreOp::I32Narrow8,
            2 => StoreOp::I32Narrow16,
            _ => StoreOp::I32,
        },
        Width::Broad => match size {
            1 => StoreOp::I64Narrow8,
            2 => StoreOp::I64Narrow16,
            4 => StoreOp::I64Narrow32,
            _ => StoreOp::I64,
        },
    }
}
