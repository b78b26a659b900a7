//! Readers of sections of types as flat lists: definitions, and the declarations of instance types, at any depth (Component Model,
//! Binary.md, "Type Definitions").

ghost use Rattle.std.specs.Prelude.{◌≡◌, OnOk};
ghost use Rattle.virt_base.specs.Place.{place};
ghost use Rattle.wasm_format.specs.Format.{Format};
ghost use Rattle.wasm_format.specs.Reads.{Reads};
ghost use Rattle.comp_grammar.specs.Types.{declarations_in};
ghost use Rattle.comp_grammar.specs.TypeSections.{type_alias, definition, declaration, declarations_of, after_item, type_walk, type_items};

use crate::aparts::Aparts;
use crate::due::Due;
use crate::externs::{DescReader, ExternNames, lacks};
use crate::types::KeptTypeReader;
use std::alloc::Global;
use virt_base::{Cursor, Items, NoMemory, next_byte};
use wasm_ast::{KeptType, TypeAlias, TypeItem};
use wasm_format::{Names, Reader, Stop, U32, Walk, expect_tag, read_until};

/// Aliases in instance types.
#[derive(Clone, Copy)]
struct TypeAliasReader;

impl Reader for TypeAliasReader {
    type Value = TypeAlias;

    ghost format = { λ _. type_alias };

    #[tactic(auto, unfolding(comp_grammar::specs::TypeSections::type_alias))]
    fn read(&self, alloc: Global, c: &mut Cursor<'_>) -> Result<TypeAlias, Stop> {
        expect_tag(c, 3)?;
        match next_byte(c) {
            None => Err(Stop::Malformed),
            Some(0) => {
                let instance = U32.read(alloc, c)?;
                let name = Aparts(Names).read(alloc, c)?;
                Ok(TypeAlias::Export { instance, name })
            }
            Some(2) => {
                let count = U32.read(alloc, c)?;
                let index = U32.read(alloc, c)?;
                Ok(TypeAlias::Outer { count, index })
            }
            Some(byte) => Err(lacks(c, byte)),
        }
    }
}

/// A definition of the section.
#[tactic(auto, unfolding(comp_grammar::specs::TypeSections::definition))]
fn definition(alloc: Global, c: &mut Cursor<'_>) -> Result<TypeItem, Stop>
    ensures input { c.new.bytes ≡ c.old.bytes }
    ensures value { Reads result c.new (definition.read (place c.old)) }
{
    Ok(TypeItem::Define(KeptTypeReader.read(alloc, c)?))
}

/// What an instance type declares.
#[tactic(auto, unfolding(comp_grammar::specs::TypeSections::declaration))]
fn declaration(alloc: Global, c: &mut Cursor<'_>) -> Result<TypeItem, Stop>
    ensures input { c.new.bytes ≡ c.old.bytes }
    ensures value { Reads result c.new (declaration.read (place c.old)) }
{
    match next_byte(c) {
        None => Err(Stop::Malformed),
        Some(1) => Ok(TypeItem::Define(KeptTypeReader.read(alloc, c)?)),
        Some(2) => Ok(TypeItem::Alias(TypeAliasReader.read(alloc, c)?)),
        Some(4) => {
            let name = Aparts(ExternNames).read(alloc, c)?;
            let desc = DescReader.read(alloc, c)?;
            Ok(TypeItem::Export { name, desc })
        }
        Some(byte) => Err(lacks(c, byte)),
    }
}

/// The number of declarations of an instance type; 0 of every other type.
#[tactic(auto, using(comp_grammar::proofs::Counted::declarations_counted))]
fn declarations_in(def: &KeptType) -> u32
    ensures { result ≡ declarations_in def.now }
{
    def.declarations().unwrap_or(0)
}

/// The number of declarations that an item opens.
fn declarations_of(item: &TypeItem) -> u32
    ensures { result ≡ declarations_of item.now }
{
    match item {
        TypeItem::Define(def) => declarations_in(def),
        TypeItem::Alias(_) | TypeItem::Export { .. } => 0,
    }
}

impl Walk for Due {
    type Item = TypeItem;

    ghost sections = { type_walk };

    #[tactic(auto, unfolding(comp_grammar::specs::TypeSections::type_walk))]
    fn read_item(&self, alloc: Global, c: &mut Cursor<'_>) -> Result<TypeItem, Stop> {
        if self.is_none_open() {
            definition(alloc, c)
        } else {
            declaration(alloc, c)
        }
    }

    #[tactic(auto, unfolding(comp_grammar::specs::TypeSections::type_walk))]
    fn step(&mut self, item: &TypeItem) -> Result<(), NoMemory> {
        self.take_one();
        self.open(declarations_of(item))
    }

    #[tactic(auto, unfolding(comp_grammar::specs::TypeSections::type_walk))]
    fn is_over(&self) -> bool {
        self.is_complete()
    }
}

/// Sections of types, as flat lists.
#[derive(Clone, Copy)]
pub struct TypeItemsReader;

impl Reader for TypeItemsReader {
    type Value = Items<TypeItem>;

    ghost format = { λ _. type_items };

    #[tactic(auto, unfolding(comp_grammar::specs::TypeSections::type_items))]
    fn read(&self, alloc: Global, c: &mut Cursor<'_>) -> Result<Items<TypeItem>, Stop> {
        let types = U32.read(alloc, c)?;
        read_until(alloc, c, Due::all(alloc, types))
    }
}
