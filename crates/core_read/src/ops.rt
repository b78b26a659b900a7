//! Readers of the instructions that go on to the next: on operands, locals, globals, tables and memory (core WebAssembly, Binary Format,
//! "Instructions").

ghost use Rattle.std.specs.Prelude.{◌≡◌, ◌<◌, ◌∷◌, []};
ghost use Rattle.virt_base.specs.Place.{place};
ghost use Rattle.wasm_format.specs.Format.{Format, both, u32_format};
ghost use Rattle.wasm_format.specs.Reads.{Reads};
ghost use Rattle.wasm_ast.specs.Instructions.{mem_arg, indexed, variable_op, loading, load_op, storing, memory_op, second_op, other_op, high_op, op_of};

use crate::types::{RefTypeReader, lacks};
use std::alloc::Global;
use virt_base::{Cursor, next_byte};
use wasm_ast::{LoadOp, MemArg, NumericOp, Op, StoreOp};
use wasm_format::{Reader, S32, Stop, U32, expect_tag};

/// Places in memory.
#[derive(Clone, Copy)]
struct MemArgReader;

impl Reader for MemArgReader {
    type Value = MemArg;

    ghost format = { λ _. mem_arg };

    #[tactic(auto, unfolding(wasm_ast::specs::Instructions::mem_arg))]
    fn read(&self, alloc: Global, c: &mut Cursor<'_>) -> Result<MemArg, Stop> {
        let align = U32.read(alloc, c)?;
        let offset = U32.read(alloc, c)?;
        Ok(MemArg { align, offset })
    }
}

/// Two indexes.
fn pair(alloc: Global, c: &mut Cursor<'_>) -> Result<(u32, u32), Stop>
    ensures input { c.new.bytes ≡ c.old.bytes }
    ensures value { Reads result c.new ((both u32_format u32_format).read (place c.old)) }
{
    let first = U32.read(alloc, c)?;
    let second = U32.read(alloc, c)?;
    Ok((first, second))
}

/// The instruction of an opcode from 1A to 27 that was taken.
#[tactic(auto, unfolding(wasm_ast::specs::Instructions::variable_op))]
fn variable_op(alloc: Global, c: &mut Cursor<'_>, byte: u8) -> Result<Op, Stop>
    requires { 0 < c.old.at }
    ensures input { c.new.bytes ≡ c.old.bytes }
    ensures value { Reads result c.new ((variable_op byte).read (place c.old)) }
{
    match byte {
        0x1A => Ok(Op::Drop),
        0x1B => Ok(Op::Select),
        0x20 => Ok(Op::LocalGet(U32.read(alloc, c)?)),
        0x21 => Ok(Op::LocalSet(U32.read(alloc, c)?)),
        0x22 => Ok(Op::LocalTee(U32.read(alloc, c)?)),
        0x23 => Ok(Op::GlobalGet(U32.read(alloc, c)?)),
        0x24 => Ok(Op::GlobalSet(U32.read(alloc, c)?)),
        0x25 => Ok(Op::TableGet(U32.read(alloc, c)?)),
        0x26 => Ok(Op::TableSet(U32.read(alloc, c)?)),
        _ => Err(lacks(c, byte)),
    }
}

fn load(alloc: Global, c: &mut Cursor<'_>, op: LoadOp) -> Result<Op, Stop>
    ensures input { c.new.bytes ≡ c.old.bytes }
    ensures value { Reads result c.new ((loading op).read (place c.old)) }
{
    let place = MemArgReader.read(alloc, c)?;
    Ok(Op::Load(op, place))
}

/// The load of an opcode from 28 to 35 that was taken.
#[tactic(auto, unfolding(wasm_ast::specs::Instructions::load_op))]
fn load_op(alloc: Global, c: &mut Cursor<'_>, byte: u8) -> Result<Op, Stop>
    requires { 0 < c.old.at }
    ensures input { c.new.bytes ≡ c.old.bytes }
    ensures value { Reads result c.new ((load_op byte).read (place c.old)) }
{
    match byte {
        0x28 => load(alloc, c, LoadOp::I32),
        0x29 => load(alloc, c, LoadOp::I64),
        0x2C => load(alloc, c, LoadOp::I32Narrow8S),
        0x2D => load(alloc, c, LoadOp::I32Narrow8U),
        0x2E => load(alloc, c, LoadOp::I32Narrow16S),
        0x2F => load(alloc, c, LoadOp::I32Narrow16U),
        0x30 => load(alloc, c, LoadOp::I64Narrow8S),
        0x31 => load(alloc, c, LoadOp::I64Narrow8U),
        0x32 => load(alloc, c, LoadOp::I64Narrow16S),
        0x33 => load(alloc, c, LoadOp::I64Narrow16U),
        0x34 => load(alloc, c, LoadOp::I64Narrow32S),
        0x35 => load(alloc, c, LoadOp::I64Narrow32U),
        _ => Err(lacks(c, byte)),
    }
}

fn store(alloc: Global, c: &mut Cursor<'_>, op: StoreOp) -> Result<Op, Stop>
    ensures input { c.new.bytes ≡ c.old.bytes }
    ensures value { Reads result c.new ((storing op).read (place c.old)) }
{
    let place = MemArgReader.read(alloc, c)?;
    Ok(Op::Store(op, place))
}

/// The instruction of an opcode from 36 to 40 that was taken.
#[tactic(auto, unfolding(wasm_ast::specs::Instructions::memory_op))]
fn memory_op(alloc: Global, c: &mut Cursor<'_>, byte: u8) -> Result<Op, Stop>
    requires { 0 < c.old.at }
    ensures input { c.new.bytes ≡ c.old.bytes }
    ensures value { Reads result c.new ((memory_op byte).read (place c.old)) }
{
    match byte {
        0x36 => store(alloc, c, StoreOp::I32),
        0x37 => store(alloc, c, StoreOp::I64),
        0x3A => store(alloc, c, StoreOp::I32Narrow8),
        0x3B => store(alloc, c, StoreOp::I32Narrow16),
        0x3C => store(alloc, c, StoreOp::I64Narrow8),
        0x3D => store(alloc, c, StoreOp::I64Narrow16),
        0x3E => store(alloc, c, StoreOp::I64Narrow32),
        0x3F => {
            expect_tag(c, 0)?;
            Ok(Op::MemorySize)
        }
        0x40 => {
            expect_tag(c, 0)?;
            Ok(Op::MemoryGrow)
        }
        _ => Err(lacks(c, byte)),
    }
}

/// The instruction of an opcode after FC that was taken.
#[tactic(auto, unfolding(wasm_ast::specs::Instructions::second_op))]
fn second_op(alloc: Global, c: &mut Cursor<'_>, byte: u8) -> Result<Op, Stop>
    requires { 0 < c.old.at }
    ensures input { c.new.bytes ≡ c.old.bytes }
    ensures value { Reads result c.new ((second_op byte).read (place c.old)) }
{
    match byte {
        0x08 => {
            let segment = U32.read(alloc, c)?;
            expect_tag(c, 0)?;
            Ok(Op::MemoryInit(segment))
        }
        0x09 => Ok(Op::DataDrop(U32.read(alloc, c)?)),
        0x0A => {
            expect_tag(c, 0)?;
            expect_tag(c, 0)?;
            Ok(Op::MemoryCopy)
        }
        0x0B => {
            expect_tag(c, 0)?;
            Ok(Op::MemoryFill)
        }
        0x0C => {
            let (segment, table) = pair(alloc, c)?;
            Ok(Op::TableInit { segment, table })
        }
        0x0D => Ok(Op::ElemDrop(U32.read(alloc, c)?)),
        0x0E => {
            let (to, from) = pair(alloc, c)?;
            Ok(Op::TableCopy { to, from })
        }
        0x0F => Ok(Op::TableGrow(U32.read(alloc, c)?)),
        0x10 => Ok(Op::TableSize(U32.read(alloc, c)?)),
        0x11 => Ok(Op::TableFill(U32.read(alloc, c)?)),
        _ => Err(lacks(c, byte)),
    }
}

/// The instruction of an opcode from 41 on that was taken, and that is no numeric instruction.
fn other_op(alloc: Global, c: &mut Cursor<'_>, byte: u8) -> Result<Op, Stop>
    requires { 0 < c.old.at }
    ensures input { c.new.bytes ≡ c.old.bytes }
    ensures value { Reads result c.new ((other_op byte).read (place c.old)) }
{
    match byte {
        0x41 => Ok(Op::I32Const(S32.read(alloc, c)?)),
        0xD0 => Ok(Op::RefNull(RefTypeReader.read(alloc, c)?)),
        0xD1 => Ok(Op::RefIsNull),
        0xD2 => Ok(Op::RefFunc(U32.read(alloc, c)?)),
        0xFC => match next_byte(c) {
            None => Err(Stop::Malformed),
            Some(second) => second_op(alloc, c, second),
        },
        _ => Err(lacks(c, byte)),
    }
}

/// The instruction of an opcode from 41 on that was taken.
#[tactic(auto, unfolding(wasm_ast::specs::Instructions::high_op))]
fn high_op(alloc: Global, c: &mut Cursor<'_>, byte: u8) -> Result<Op, Stop>
    requires { 0 < c.old.at }
    ensures input { c.new.bytes ≡ c.old.bytes }
    ensures value { Reads result c.new ((high_op byte).read (place c.old)) }
{
    match NumericOp::new(byte) {
        Some(op) => Ok(Op::Numeric(op)),
        None => other_op(alloc, c, byte),
    }
}

/// The instruction of an opcode from 1A on that was taken.
#[tactic(auto, unfolding(wasm_ast::specs::Instructions::op_of))]
pub fn op_of(alloc: Global, c: &mut Cursor<'_>, byte: u8) -> Result<Op, Stop>
    requires { 0 < c.old.at }
    ensures input { c.new.bytes ≡ c.old.bytes }
    ensures value { Reads result c.new ((op_of byte).read (place c.old)) }
{
    if byte < 0x28 {
        variable_op(alloc, c, byte)
    } else if byte < 0x36 {
        load_op(alloc, c, byte)
    } else if byte < 0x41 {
        memory_op(alloc, c, byte)
    } else {
        high_op(alloc, c, byte)
    }
}
