//! Readers of the types in a core module (core WebAssembly, Binary Format, "Types"), and of types of blocks.

ghost use Rattle.std.specs.Prelude.{◌≡◌, ◌<◌, ◌-◌};
ghost use Rattle.virt_base.specs.Place.{place};
ghost use Rattle.wasm_format.specs.declared.stop.Stop.TheVariants.{Unsupported};
ghost use Rattle.wasm_format.specs.Format.{Format};
ghost use Rattle.wasm_format.specs.Reads.{Reads};
ghost use Rattle.wasm_ast.specs.Types.{core_type_of, core_type, ref_type, core_func, limits, table_type, mutability, global_type, tagged_block, numbered_block, block_type};

use std::alloc::Global;
use virt_base::{CoreType, Cursor, next_byte};
use wasm_ast::{BlockType, CoreFunc, GlobalType, Limits, RefType, TableType};
use wasm_format::{Reader, S33Index, Stop, U32, Vecs, next_is_tag};

/// The byte before the cursor is a tag that the table of its place lacks.
pub fn lacks(c: &Cursor<'_>, byte: u8) -> Stop
    requires { 0 < c.now.at }
    ensures { result ≡ Unsupported (c.now.at - 1) byte }
{
    Stop::Unsupported { at: c.at - 1, byte }
}

/// The value type of a tag that was taken.
fn core_type_of(c: &mut Cursor<'_>, byte: u8) -> Result<CoreType, Stop>
    requires { 0 < c.old.at }
    ensures input { c.new.bytes ≡ c.old.bytes }
    ensures value { Reads result c.new ((core_type_of byte).read (place c.old)) }
{
    match byte {
        0x7F => Ok(CoreType::I32),
        0x7E => Ok(CoreType::I64),
        0x70 => Ok(CoreType::Funcref),
        0x6F => Ok(CoreType::Externref),
        _ => Err(lacks(c, byte)),
    }
}

/// Value types.
#[derive(Clone, Copy)]
pub struct CoreTypeReader;

impl Reader for CoreTypeReader {
    type Value = CoreType;

    ghost format = { λ _. core_type };

    #[tactic(auto, unfolding(wasm_ast::specs::Types::core_type))]
    fn read(&self, _alloc: Global, c: &mut Cursor<'_>) -> Result<CoreType, Stop> {
        match next_byte(c) {
            None => Err(Stop::Malformed),
            Some(byte) => core_type_of(c, byte),
        }
    }
}

/// Reference types.
#[derive(Clone, Copy)]
pub struct RefTypeReader;

impl Reader for RefTypeReader {
    type Value = RefType;

    ghost format = { λ _. ref_type };

    #[tactic(auto, unfolding(wasm_ast::specs::Types::ref_type))]
    fn read(&self, _alloc: Global, c: &mut Cursor<'_>) -> Result<RefType, Stop> {
        match next_byte(c) {
            None => Err(Stop::Malformed),
            Some(0x70) => Ok(RefType::Func),
            Some(0x6F) => Ok(RefType::Extern),
            Some(byte) => Err(lacks(c, byte)),
        }
    }
}

/// Function types.
#[derive(Clone, Copy)]
pub struct CoreFuncReader;

impl Reader for CoreFuncReader {
    type Value = CoreFunc;

    ghost format = { λ _. core_func };

    #[tactic(auto, unfolding(wasm_ast::specs::Types::core_func))]
    fn read(&self, alloc: Global, c: &mut Cursor<'_>) -> Result<CoreFunc, Stop> {
        match next_byte(c) {
            None => Err(Stop::Malformed),
            Some(0x60) => {
                let params = Vecs(CoreTypeReader).read(alloc, c)?;
                let results = Vecs(CoreTypeReader).read(alloc, c)?;
                Ok(CoreFunc { params, results })
            }
            Some(byte) => Err(lacks(c, byte)),
        }
    }
}

/// Limits of tables and memories.
#[derive(Clone, Copy)]
pub struct LimitsReader;

impl Reader for LimitsReader {
    type Value = Limits;

    ghost format = { λ _. limits };

    #[tactic(auto, unfolding(wasm_ast::specs::Types::limits))]
    fn read(&self, alloc: Global, c: &mut Cursor<'_>) -> Result<Limits, Stop> {
        match next_byte(c) {
            None => Err(Stop::Malformed),
            Some(0) => {
                let min = U32.read(alloc, c)?;
                Ok(Limits { min, max: None })
            }
            Some(1) => {
                let min = U32.read(alloc, c)?;
                let max = U32.read(alloc, c)?;
                Ok(Limits {
                    min,
                    max: Some(max),
                })
            }
            Some(byte) => Err(lacks(c, byte)),
        }
    }
}

/// Types of tables.
#[derive(Clone, Copy)]
pub struct TableTypeReader;

impl Reader for TableTypeReader {
    type Value = TableType;

    ghost format = { λ _. table_type };

    #[tactic(auto, unfolding(wasm_ast::specs::Types::table_type))]
    fn read(&self, alloc: Global, c: &mut Cursor<'_>) -> Result<TableType, Stop> {
        let element = RefTypeReader.read(alloc, c)?;
        let limits = LimitsReader.read(alloc, c)?;
        Ok(TableType { element, limits })
    }
}

#[tactic(auto, unfolding(wasm_ast::specs::Types::mutability))]
fn is_variable(c: &mut Cursor<'_>) -> Result<bool, Stop>
    ensures input { c.new.bytes ≡ c.old.bytes }
    ensures value { Reads result c.new (mutability.read (place c.old)) }
{
    match next_byte(c) {
        None => Err(Stop::Malformed),
        Some(0) => Ok(false),
        Some(1) => Ok(true),
        Some(byte) => Err(lacks(c, byte)),
    }
}

/// Types of globals.
#[derive(Clone, Copy)]
pub struct GlobalTypeReader;

impl Reader for GlobalTypeReader {
    type Value = GlobalType;

    ghost format = { λ _. global_type };

    #[tactic(auto, unfolding(wasm_ast::specs::Types::global_type))]
    fn read(&self, alloc: Global, c: &mut Cursor<'_>) -> Result<GlobalType, Stop> {
        let value = CoreTypeReader.read(alloc, c)?;
        let variable = is_variable(c)?;
        Ok(GlobalType { value, variable })
    }
}

/// The block type of a tag, which is the next byte.
fn tagged_block(c: &mut Cursor<'_>) -> Result<BlockType, Stop>
    ensures input { c.new.bytes ≡ c.old.bytes }
    ensures value { Reads result c.new (tagged_block.read (place c.old)) }
{
    match next_byte(c) {
        None => Err(Stop::Malformed),
        Some(0x40) => Ok(BlockType::Empty),
        Some(byte) => Ok(BlockType::Value(core_type_of(c, byte)?)),
    }
}

/// The block type of an index.
fn numbered_block(alloc: Global, c: &mut Cursor<'_>) -> Result<BlockType, Stop>
    ensures input { c.new.bytes ≡ c.old.bytes }
    ensures value { Reads result c.new (numbered_block.read (place c.old)) }
{
    let index = S33Index.read(alloc, c)?;
    Ok(BlockType::Index(index))
}

/// Types of blocks.
#[derive(Clone, Copy)]
pub struct BlockTypeReader;

impl Reader for BlockTypeReader {
    type Value = BlockType;

    ghost format = { λ _. block_type };

    fn read(&self, alloc: Global, c: &mut Cursor<'_>) -> Result<BlockType, Stop> {
        match next_is_tag(c) {
            None => Err(Stop::Malformed),
            Some(true) => tagged_block(c),
            Some(false) => numbered_block(alloc, c),
        }
    }
}
