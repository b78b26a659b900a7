//! Readers of aliases (Component Model, Binary.md, "Alias Definitions"). Those in instance types are read in `type_items`.

ghost use Rattle.std.specs.Prelude.{◌≡◌, ◌∷◌, []};
ghost use Rattle.virt_base.specs.Place.{place};
ghost use Rattle.wasm_format.specs.Format.{Format, behind};
ghost use Rattle.wasm_format.specs.Reads.{Reads};
ghost use Rattle.wasm_ast.specs.ComponentItems.{from_instance, from_core_instance, from_outside, core_alias_format, type_alias_format, alias};

use crate::externs::lacks;
use std::alloc::Global;
use virt_base::{Cursor, next_byte};
use wasm_ast::{Alias, CoreSort, OuterSort, Sort};
use wasm_format::{Names, Reader, Stop, U32, expect_tag};

/// An instance, and a name of its exports.
fn from_instance(alloc: Global, c: &mut Cursor<'_>, sort: Sort) -> Result<Alias, Stop>
    ensures input { c.new.bytes ≡ c.old.bytes }
    ensures value { Reads result c.new ((from_instance sort).read (place c.old)) }
{
    let instance = U32.read(alloc, c)?;
    let name = Names.read(alloc, c)?;
    Ok(Alias::Export {
        sort,
        instance,
        name,
    })
}

/// The target, a core instance, and a name of its exports.
fn from_core_instance(alloc: Global, c: &mut Cursor<'_>, sort: CoreSort) -> Result<Alias, Stop>
    ensures input { c.new.bytes ≡ c.old.bytes }
    ensures value { Reads result c.new ((behind (1 ∷ []) (from_core_instance sort)).read (place c.old)) }
{
    expect_tag(c, 1)?;
    let instance = U32.read(alloc, c)?;
    let name = Names.read(alloc, c)?;
    Ok(Alias::CoreExport {
        sort,
        instance,
        name,
    })
}

/// A number of scopes, and an index in the scope so far out.
fn from_outside(alloc: Global, c: &mut Cursor<'_>, sort: OuterSort) -> Result<Alias, Stop>
    ensures input { c.new.bytes ≡ c.old.bytes }
    ensures value { Reads result c.new ((from_outside sort).read (place c.old)) }
{
    let count = U32.read(alloc, c)?;
    let index = U32.read(alloc, c)?;
    Ok(Alias::Outer { sort, count, index })
}

/// An alias of a core item, after 00.
#[tactic(auto, unfolding(wasm_ast::specs::ComponentItems::core_alias_format))]
fn core_alias(alloc: Global, c: &mut Cursor<'_>) -> Result<Alias, Stop>
    ensures input { c.new.bytes ≡ c.old.bytes }
    ensures value { Reads result c.new (core_alias_format.read (place c.old)) }
{
    match next_byte(c) {
        None => Err(Stop::Malformed),
        Some(0x00) => from_core_instance(alloc, c, CoreSort::Func),
        Some(0x01) => from_core_instance(alloc, c, CoreSort::Table),
        Some(0x02) => from_core_instance(alloc, c, CoreSort::Memory),
        Some(0x03) => from_core_instance(alloc, c, CoreSort::Global),
        Some(0x11) => {
            expect_tag(c, 2)?;
            from_outside(alloc, c, OuterSort::CoreModule)
        }
        Some(byte) => Err(lacks(c, byte)),
    }
}

/// An alias of a type, after 03.
#[tactic(auto, unfolding(wasm_ast::specs::ComponentItems::type_alias_format))]
fn type_alias(alloc: Global, c: &mut Cursor<'_>) -> Result<Alias, Stop>
    ensures input { c.new.bytes ≡ c.old.bytes }
    ensures value { Reads result c.new (type_alias_format.read (place c.old)) }
{
    match next_byte(c) {
        None => Err(Stop::Malformed),
        Some(0) => from_instance(alloc, c, Sort::Type),
        Some(2) => from_outside(alloc, c, OuterSort::Type),
        Some(byte) => Err(lacks(c, byte)),
    }
}

/// Aliases: a sort, and a target that the sort allows.
#[derive(Clone, Copy)]
pub struct AliasReader;

impl Reader for AliasReader {
    type Value = Alias;

    ghost format = { λ _. alias };

    #[tactic(auto, unfolding(wasm_ast::specs::ComponentItems::alias))]
    fn read(&self, alloc: Global, c: &mut Cursor<'_>) -> Result<Alias, Stop> {
        match next_byte(c) {
            None => Err(Stop::Malformed),
            Some(0) => core_alias(alloc, c),
            Some(1) => {
                expect_tag(c, 0)?;
                from_instance(alloc, c, Sort::Func)
            }
            Some(3) => type_alias(alloc, c),
            Some(4) => {
                expect_tag(c, 2)?;
                from_outside(alloc, c, OuterSort::Component)
            }
            Some(5) => {
                expect_tag(c, 0)?;
                from_instance(alloc, c, Sort::Instance)
            }
            Some(byte) => Err(lacks(c, byte)),
        }
    }
}
