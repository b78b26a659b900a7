//! Writers of the instructions that go on to the next: on operands, locals, globals, tables and memory (core WebAssembly, Binary Format,
//! "Instructions").

ghost use Rattle.std.specs.Prelude.{◌≡◌, ◌++◌, ◌∷◌, [], OnOk};
ghost use Rattle.wasm_format.specs.Format.{Format, both, closed_by, u32_format};
ghost use Rattle.wasm_format.specs.Numbers.{s32_format};
ghost use Rattle.wasm_ast.specs.declared.instr.Op.TheVariants.{Load, Store, Numeric};
ghost use Rattle.wasm_ast.specs.declared.instr.Instr.TheVariants.{Plain};
ghost use Rattle.wasm_ast.specs.Types.{ref_type};
ghost use Rattle.wasm_ast.specs.Instructions.{mem_arg, load_code, store_code, op_code, instr_of};

use crate::types::RefTypeWriter;
use std::alloc::Global;
use virt_base::NoMemory;
use wasm_ast::{LoadOp, MemArg, NumericOp, Op, RefType, StoreOp};
use wasm_format::{S32, U32, Writer, put_byte, put_bytes};

/// Places in memory.
#[derive(Clone, Copy)]
struct MemArgWriter;

impl Writer for MemArgWriter {
    type Value = MemArg;

    ghost format = { λ _. mem_arg };

    #[tactic(auto, unfolding(wasm_ast::specs::Instructions::mem_arg))]
    fn write(&self, alloc: Global, out: &mut Vec<u8>, value: &MemArg) -> Result<(), NoMemory> {
        U32.write(alloc, out, &value.align)?;
        U32.write(alloc, out, &value.offset)
    }
}

/// The opcode of a load.
fn load_code(op: LoadOp) -> u8
    ensures { result ≡ load_code op }
{
    match op {
        LoadOp::I32 => 0x28,
        LoadOp::I64 => 0x29,
        LoadOp::I32Narrow8S => 0x2C,
        LoadOp::I32Narrow8U => 0x2D,
        LoadOp::I32Narrow16S => 0x2E,
        LoadOp::I32Narrow16U => 0x2F,
        LoadOp::I64Narrow8S => 0x30,
        LoadOp::I64Narrow8U => 0x31,
        LoadOp::I64Narrow16S => 0x32,
        LoadOp::I64Narrow16U => 0x33,
        LoadOp::I64Narrow32S => 0x34,
        LoadOp::I64Narrow32U => 0x35,
    }
}

/// The opcode of a store.
fn store_code(op: StoreOp) -> u8
    ensures { result ≡ store_code op }
{
    match op {
        StoreOp::I32 => 0x36,
        StoreOp::I64 => 0x37,
        StoreOp::I32Narrow8 => 0x3A,
        StoreOp::I32Narrow16 => 0x3B,
        StoreOp::I64Narrow8 => 0x3C,
        StoreOp::I64Narrow16 => 0x3D,
        StoreOp::I64Narrow32 => 0x3E,
    }
}

#[tactic(auto, using(crate::proofs::Opcodes::load_fits))]
fn put_load(alloc: Global, out: &mut Vec<u8>, op: LoadOp, place: &MemArg) -> Result<(), NoMemory>
    requires { (instr_of (load_code op)).Fits (Plain (Load op place.now)) }
    ensures { OnOk result (out.new.items ≡ out.old.items ++ load_code op ∷ (instr_of (load_code op)).write (Plain (Load op place.now))) }
{
    put_byte(alloc, out, load_code(op))?;
    MemArgWriter.write(alloc, out, place)
}

#[tactic(auto, using(crate::proofs::Opcodes::store_fits))]
fn put_store(alloc: Global, out: &mut Vec<u8>, op: StoreOp, place: &MemArg) -> Result<(), NoMemory>
    requires { (instr_of (store_code op)).Fits (Plain (Store op place.now)) }
    ensures { OnOk result (out.new.items ≡ out.old.items ++ store_code op ∷ (instr_of (store_code op)).write (Plain (Store op place.now))) }
{
    put_byte(alloc, out, store_code(op))?;
    MemArgWriter.write(alloc, out, place)
}

#[tactic(auto, using(crate::proofs::Opcodes::numeric_written))]
fn put_numeric(alloc: Global, out: &mut Vec<u8>, op: NumericOp) -> Result<(), NoMemory>
    ensures { OnOk result (out.new.items ≡ out.old.items ++ op ∷ (instr_of op).write (Plain (Numeric op))) }
{
    put_byte(alloc, out, op.code())
}

/// An opcode, and an index.
#[tactic(auto, unfolding(wasm_format::specs::Format::u32_format))]
fn put_index(alloc: Global, out: &mut Vec<u8>, code: u8, index: u32) -> Result<(), NoMemory>
    ensures { OnOk result (out.new.items ≡ out.old.items ++ code ∷ u32_format.write index) }
{
    put_byte(alloc, out, code)?;
    U32.write(alloc, out, &index)
}

/// An opcode after FC, and an index.
fn put_second(alloc: Global, out: &mut Vec<u8>, code: u8, index: u32) -> Result<(), NoMemory>
    ensures { OnOk result (out.new.items ≡ out.old.items ++ 0xFC ∷ code ∷ u32_format.write index) }
{
    put_byte(alloc, out, 0xFC)?;
    put_index(alloc, out, code, index)
}

/// An opcode after FC, and two indexes.
#[tactic(auto, unfolding(wasm_format::specs::Format::u32_format))]
fn put_two(
    alloc: Global,
    out: &mut Vec<u8>,
    code: u8,
    first: u32,
    second: u32,
) -> Result<(), NoMemory>
    ensures { OnOk result (out.new.items ≡ out.old.items ++ 0xFC ∷ code ∷ (both u32_format u32_format).write (first, second)) }
{
    put_second(alloc, out, code, first)?;
    U32.write(alloc, out, &second)
}

/// `memory.init` of a segment, in memory 0.
fn put_init(alloc: Global, out: &mut Vec<u8>, segment: u32) -> Result<(), NoMemory>
    ensures { OnOk result (out.new.items ≡ out.old.items ++ 0xFC ∷ 0x08 ∷ (closed_by (0 ∷ []) u32_format).write segment) }
{
    put_second(alloc, out, 0x08, segment)?;
    put_byte(alloc, out, 0)
}

/// `i32.const` of a number.
#[tactic(auto, unfolding(wasm_format::specs::Numbers::s32_format))]
fn put_number(alloc: Global, out: &mut Vec<u8>, number: i32) -> Result<(), NoMemory>
    ensures { OnOk result (out.new.items ≡ out.old.items ++ 0x41 ∷ s32_format.write number) }
{
    put_byte(alloc, out, 0x41)?;
    S32.write(alloc, out, &number)
}

/// `ref.null` of a type.
fn put_null(alloc: Global, out: &mut Vec<u8>, ty: RefType) -> Result<(), NoMemory>
    requires { ref_type.Fits ty }
    ensures { OnOk result (out.new.items ≡ out.old.items ++ 0xD0 ∷ ref_type.write ty) }
{
    put_byte(alloc, out, 0xD0)?;
    RefTypeWriter.write(alloc, out, &ty)
}

/// Writes an operation: its opcode, and what stands after it.
#[tactic(auto, unfolding(wasm_ast::specs::Instructions::instr_of, wasm_ast::specs::Instructions::control, wasm_ast::specs::Instructions::op_of, wasm_ast::specs::Instructions::variable_op, wasm_ast::specs::Instructions::memory_op, wasm_ast::specs::Instructions::high_op, wasm_ast::specs::Instructions::second_op))]
pub fn put_op(alloc: Global, out: &mut Vec<u8>, op: &Op) -> Result<(), NoMemory>
    requires { (instr_of (op_code op.now)).Fits (Plain op.now) }
    ensures { OnOk result (out.new.items ≡ out.old.items ++ op_code op.now ∷ (instr_of (op_code op.now)).write (Plain op.now)) }
{
    match op {
        Op::Nop => put_byte(alloc, out, 0x01),
        Op::Drop => put_byte(alloc, out, 0x1A),
        Op::Select => put_byte(alloc, out, 0x1B),
        Op::LocalGet(index) => put_index(alloc, out, 0x20, *index),
        Op::LocalSet(index) => put_index(alloc, out, 0x21, *index),
        Op::LocalTee(index) => put_index(alloc, out, 0x22, *index),
        Op::GlobalGet(index) => put_index(alloc, out, 0x23, *index),
        Op::GlobalSet(index) => put_index(alloc, out, 0x24, *index),
        Op::TableGet(index) => put_index(alloc, out, 0x25, *index),
        Op::TableSet(index) => put_index(alloc, out, 0x26, *index),
        Op::Load(op, place) => put_load(alloc, out, *op, place),
        Op::Store(op, place) => put_store(alloc, out, *op, place),
        Op::MemorySize => put_bytes(alloc, out, &[0x3F, 0]),
        Op::MemoryGrow => put_bytes(alloc, out, &[0x40, 0]),
        Op::I32Const(number) => put_number(alloc, out, *number),
        Op::Numeric(op) => put_numeric(alloc, out, *op),
        Op::RefNull(ty) => put_null(alloc, out, *ty),
        Op::RefIsNull => put_byte(alloc, out, 0xD1),
        Op::RefFunc(index) => put_index(alloc, out, 0xD2, *index),
        Op::MemoryInit(segment) => put_init(alloc, out, *segment),
        Op::DataDrop(segment) => put_second(alloc, out, 0x09, *segment),
        Op::MemoryCopy => put_bytes(alloc, out, &[0xFC, 0x0A, 0, 0]),
        Op::MemoryFill => put_bytes(alloc, out, &[0xFC, 0x0B, 0]),
        Op::TableInit { segment, table } => put_two(alloc, out, 0x0C, *segment, *table),
        Op::ElemDrop(segment) => put_second(alloc, out, 0x0D, *segment),
        Op::TableCopy { to, from } => put_two(alloc, out, 0x0E, *to, *from),
        Op::TableGrow(table) => put_second(alloc, out, 0x0F, *table),
        Op::TableSize(table) => put_second(alloc, out, 0x10, *table),
        Op::TableFill(table) => put_second(alloc, out, 0x11, *table),
    }
}
