//! Instructions as a flat list, as the binary format has them (WebAssembly Core 2.0, section 5.4), with types of references and blocks.

use crate::boxed::Boxed;
use crate::few::Few;
use crate::numeric::NumericOp;
use crate::select_types::SelectTypes;
use crate::shared::Shared;
use virt_base::{CoreType, Items};

/// A reference type (WebAssembly Core 2.0, section 2.3.3).
#[derive(Debug, Clone, Copy, PartialEq, Eq)]
pub enum RefType {
    Func,
    Extern,
}

/// The type of a block: no operands, one result, or the function type at an index.
#[derive(Debug, Clone, Copy, PartialEq, Eq)]
pub enum BlockType {
    Empty,
    Value(CoreType),
    Index(u32),
}

/// A place in memory: the alignment as an exponent of 2, and what is added to the operand.
#[derive(Debug, Clone, Copy, PartialEq, Eq)]
pub struct MemArg {
    pub align: u32,
    pub offset: u32,
}

/// What a load reads, and how it is extended.
#[derive(Debug, Clone, Copy, PartialEq, Eq)]
pub enum LoadOp {
    I32,
    I64,
    I32Narrow8S,
    I32Narrow8U,
    I32Narrow16S,
    I32Narrow16U,
    I64Narrow8S,
    I64Narrow8U,
    I64Narrow16S,
    I64Narrow16U,
    I64Narrow32S,
    I64Narrow32U,
}

/// What a store writes.
#[derive(Debug, Clone, Copy, PartialEq, Eq)]
pub enum StoreOp {
    I32,
    I64,
    I32Narrow8,
    I32Narrow16,
    I64Narrow8,
    I64Narrow16,
    I64Narrow32,
}

/// An instruction that works on operands, locals, globals, tables and memory, and goes on to the next.
#[derive(Debug, Clone, Copy, PartialEq, Eq)]
pub enum Op {
    Nop,
    Drop,
    Select,
    LocalGet(u32),
    LocalSet(u32),
    LocalTee(u32),
    GlobalGet(u32),
    GlobalSet(u32),
    TableGet(u32),
    TableSet(u32),
    Load(LoadOp, MemArg),
    Store(StoreOp, MemArg),
    MemorySize,
    MemoryGrow,
    I32Const(i32),
    Numeric(NumericOp),
    RefNull(RefType),
    RefIsNull,
    RefFunc(u32),
    MemoryInit(u32),
    DataDrop(u32),
    MemoryCopy,
    MemoryFill,
    TableInit { segment: u32, table: u32 },
    ElemDrop(u32),
    TableCopy { to: u32, from: u32 },
    TableGrow(u32),
    TableSize(u32),
    TableFill(u32),
}

/// Where a `br_table` leads: by number, and else to the default.
#[derive(Debug, Drop)]
pub struct BranchTable {
    pub labels: Few<u32>,
    pub default: u32,
}

/// An instruction (WebAssembly Core 2.0, section 5.4). The list is flat: `Block`, `Loop`, `If`, `Else` and `End` are items of it.
#[derive(Debug, Drop)]
pub enum Instr {
    Plain(Op),
    I64Const(i64),
    SelectTyped(Shared<SelectTypes>),
    Unreachable,
    Block(BlockType),
    Loop(BlockType),
    If(BlockType),
    Else,
    End,
    Br(u32),
    BrIf(u32),
    BrTable(Boxed<BranchTable>),
    Return,
    Call(u32),
    CallIndirect { ty: u32, table: u32 },
}

/// Instructions in order. The `End` that closes an expression or a body is the last of them.
pub type Instrs = Items<Instr>;
