//! Writers of the types in a core module (core WebAssembly, Binary Format, "Types"), and of types of blocks.

ghost use Rattle.wasm_format.specs.Format.{Format};
ghost use Rattle.wasm_ast.specs.Types.{core_type, ref_type, core_func, limits, table_type, mutability, global_type, block_type};

use std::alloc::Global;
use virt_base::{CoreType, NoMemory};
use wasm_ast::{BlockType, CoreFunc, GlobalType, Limits, RefType, TableType};
use wasm_format::{S33Index, U32, Vecs, Writer, put_byte};

/// Value types.
#[derive(Clone, Copy)]
pub struct CoreTypeWriter;

impl Writer for CoreTypeWriter {
    type Value = CoreType;

    ghost format = { λ _. core_type };

    #[tactic(auto, unfolding(wasm_ast::specs::Types::core_type))]
    fn write(&self, alloc: Global, out: &mut Vec<u8>, value: &CoreType) -> Result<(), NoMemory> {
        match value {
            CoreType::I32 => put_byte(alloc, out, 0x7F),
            CoreType::I64 => put_byte(alloc, out, 0x7E),
            CoreType::Funcref => put_byte(alloc, out, 0x70),
            CoreType::Externref => put_byte(alloc, out, 0x6F),
        }
    }
}

/// Reference types.
#[derive(Clone, Copy)]
pub struct RefTypeWriter;

impl Writer for RefTypeWriter {
    type Value = RefType;

    ghost format = { λ _. ref_type };

    #[tactic(auto, unfolding(wasm_ast::specs::Types::ref_type))]
    fn write(&self, alloc: Global, out: &mut Vec<u8>, value: &RefType) -> Result<(), NoMemory> {
        match value {
            RefType::Func => put_byte(alloc, out, 0x70),
            RefType::Extern => put_byte(alloc, out, 0x6F),
        }
    }
}

/// Function types.
#[derive(Clone, Copy)]
pub struct CoreFuncWriter;

impl Writer for CoreFuncWriter {
    type Value = CoreFunc;

    ghost format = { λ _. core_func };

    #[tactic(auto, unfolding(wasm_ast::specs::Types::core_func))]
    fn write(&self, alloc: Global, out: &mut Vec<u8>, value: &CoreFunc) -> Result<(), NoMemory> {
        put_byte(alloc, out, 0x60)?;
        Vecs(CoreTypeWriter).write(alloc, out, &value.params)?;
        Vecs(CoreTypeWriter).write(alloc, out, &value.results)
    }
}

/// Limits of tables and memories.
#[derive(Clone, Copy)]
pub struct LimitsWriter;

impl Writer for LimitsWriter {
    type Value = Limits;

    ghost format = { λ _. limits };

    #[tactic(auto, unfolding(wasm_ast::specs::Types::limits))]
    fn write(&self, alloc: Global, out: &mut Vec<u8>, value: &Limits) -> Result<(), NoMemory> {
        match value.max {
            None => {
                put_byte(alloc, out, 0)?;
                U32.write(alloc, out, &value.min)
            }
            Some(max) => {
                put_byte(alloc, out, 1)?;
                U32.write(alloc, out, &value.min)?;
                U32.write(alloc, out, &max)
            }
        }
    }
}

/// Types of tables.
#[derive(Clone, Copy)]
pub struct TableTypeWriter;

impl Writer for TableTypeWriter {
    type Value = TableType;

    ghost format = { λ _. table_type };

    #[tactic(auto, unfolding(wasm_ast::specs::Types::table_type))]
    fn write(&self, alloc: Global, out: &mut Vec<u8>, value: &TableType) -> Result<(), NoMemory> {
        RefTypeWriter.write(alloc, out, &value.element)?;
        LimitsWriter.write(alloc, out, &value.limits)
    }
}

/// Whether a global is a variable.
#[derive(Clone, Copy)]
struct MutabilityWriter;

impl Writer for MutabilityWriter {
    type Value = bool;

    ghost format = { λ _. mutability };

    #[tactic(auto, unfolding(wasm_ast::specs::Types::mutability))]
    fn write(&self, alloc: Global, out: &mut Vec<u8>, value: &bool) -> Result<(), NoMemory> {
        if *value {
            put_byte(alloc, out, 1)
        } else {
            put_byte(alloc, out, 0)
        }
    }
}

/// Types of globals.
#[derive(Clone, Copy)]
pub struct GlobalTypeWriter;

impl Writer for GlobalTypeWriter {
    type Value = GlobalType;

    ghost format = { λ _. global_type };

    #[tactic(auto, unfolding(wasm_ast::specs::Types::global_type))]
    fn write(&self, alloc: Global, out: &mut Vec<u8>, value: &GlobalType) -> Result<(), NoMemory> {
        CoreTypeWriter.write(alloc, out, &value.value)?;
        MutabilityWriter.write(alloc, out, &value.variable)
    }
}

/// Types of blocks.
#[derive(Clone, Copy)]
pub struct BlockTypeWriter;

impl Writer for BlockTypeWriter {
    type Value = BlockType;

    ghost format = { λ _. block_type };

    #[tactic(auto, unfolding(wasm_ast::specs::Types::block_type))]
    fn write(&self, alloc: Global, out: &mut Vec<u8>, value: &BlockType) -> Result<(), NoMemory> {
        match value {
            BlockType::Empty => put_byte(alloc, out, 0x40),
            BlockType::Value(CoreType::I32) => put_byte(alloc, out, 0x7F),
            BlockType::Value(CoreType::I64) => put_byte(alloc, out, 0x7E),
            BlockType::Value(CoreType::Funcref) => put_byte(alloc, out, 0x70),
            BlockType::Value(CoreType::Externref) => put_byte(alloc, out, 0x6F),
            BlockType::Index(index) => S33Index.write(alloc, out, index),
        }
    }
}
