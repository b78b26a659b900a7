//! Writers of sections of types as flat lists: definitions, and the declarations of instance types, at any depth (Component Model,
//! Binary.md, "Type Definitions").

ghost use Rattle.std.specs.Prelude.{◌≡◌, ◌++◌, ◌<◌, ◌^◌, [], OnOk, OnErr, IfOk};
ghost use Rattle.wasm_format.specs.Format.{Format, choose};
ghost use Rattle.comp_grammar.specs.TypeSections.{type_alias, definition, declaration, is_none_open, own_types, type_items};
ghost use Rattle.comp_write.specs.Forms.{ItemsFit, items_bytes};

use crate::externs::{DescWriter, ExternNameWriter};
use crate::open_types::OpenTypes;
use crate::types::KeptTypeWriter;
use std::alloc::Global;
use virt_base::{Items, NoMemory, write_u32};
use wasm_ast::{TypeAlias, TypeItem};
use wasm_format::{Names, U32, Writer, put_byte, put_bytes};

/// Aliases in instance types.
#[derive(Clone, Copy)]
struct TypeAliasWriter;

impl Writer for TypeAliasWriter {
    type Value = TypeAlias;

    ghost format = { λ _. type_alias };

    #[tactic(auto, unfolding(comp_grammar::specs::TypeSections::type_alias))]
    fn write(&self, alloc: Global, out: &mut Vec<u8>, value: &TypeAlias) -> Result<(), NoMemory> {
        put_byte(alloc, out, 3)?;
        match value {
            TypeAlias::Export { instance, name } => {
                put_byte(alloc, out, 0)?;
                U32.write(alloc, out, instance)?;
                Names.write(alloc, out, name)
            }
            TypeAlias::Outer { count, index } => {
                put_byte(alloc, out, 2)?;
                U32.write(alloc, out, count)?;
                U32.write(alloc, out, index)
            }
        }
    }
}

/// What an instance type declares.
#[derive(Clone, Copy)]
struct DeclarationWriter;

impl Writer for DeclarationWriter {
    type Value = TypeItem;

    ghost format = { λ _. declaration };

    #[tactic(auto, unfolding(comp_grammar::specs::TypeSections::declaration))]
    fn write(&self, alloc: Global, out: &mut Vec<u8>, value: &TypeItem) -> Result<(), NoMemory> {
        match value {
            TypeItem::Define(def) => {
                put_byte(alloc, out, 1)?;
                KeptTypeWriter.write(alloc, out, def)
            }
            TypeItem::Alias(alias) => {
                put_byte(alloc, out, 2)?;
                TypeAliasWriter.write(alloc, out, alias)
            }
            TypeItem::Export { name, desc } => {
                put_byte(alloc, out, 4)?;
                ExternNameWriter.write(alloc, out, name)?;
                DescWriter.write(alloc, out, desc)
            }
        }
    }
}

/// Definitions of a section.
#[derive(Clone, Copy)]
struct DefinitionWriter;

impl Writer for DefinitionWriter {
    type Value = TypeItem;

    ghost format = { λ _. definition };

    #[tactic(auto, unfolding(comp_grammar::specs::TypeSections::definition))]
    fn write(&self, alloc: Global, out: &mut Vec<u8>, value: &TypeItem) -> Result<(), NoMemory> {
        match value {
            TypeItem::Define(def) => KeptTypeWriter.write(alloc, out, def),
            TypeItem::Alias(_) | TypeItem::Export { .. } => unreachable!(),
        }
    }
}

fn put_item(alloc: Global, out: &mut Vec<u8>, is_own: bool, item: &TypeItem) -> Result<(), NoMemory>
    requires { (choose is_own definition declaration).Fits item.now }
    ensures { OnOk result (out.new.items ≡ out.old.items ++ (choose is_own definition declaration).write item.now) }
{
    if is_own {
        DefinitionWriter.write(alloc, out, item)
    } else {
        DeclarationWriter.write(alloc, out, item)
    }
}

/// Adds the items, and answers how many of them are definitions of the section itself.
fn put_items(alloc: Global, out: &mut Vec<u8>, items: &[TypeItem]) -> Result<u32, NoMemory>
    requires fits { ItemsFit [] items.now }
    requires few { own_types [] items.now < 2 ^ 32 }
    ensures count { IfOk result (λ n. n ≡ own_types [] items.now) }
    ensures bytes { OnOk result (out.new.items ≡ out.old.items ++ items_bytes [] items.now) }
{
    let mut open = OpenTypes::none(alloc);
    let mut count: u32 = 0;
    for item in items {
        let is_own = open.is_none();
        put_item(alloc, out, is_own, item)?;
        open.pass(item)?;
        if is_own {
            count += 1;
        }
    }
    Ok(count)
}

/// Sections of types, as flat lists.
#[derive(Clone, Copy)]
pub struct TypeItemsWriter;

impl Writer for TypeItemsWriter {
    type Value = Items<TypeItem>;

    ghost format = { λ _. type_items };

    #[tactic(auto, using(crate::proofs::TypeForms::items_fit, crate::proofs::TypeForms::few_items))]
    fn write(
        &self,
        alloc: Global,
        out: &mut Vec<u8>,
        value: &Items<TypeItem>,
    ) -> Result<(), NoMemory> {
        let mut content = Vec::new(alloc);
        let count = put_items(alloc, &mut content, value.as_slice())?;
        write_u32(alloc, out, count)?;
        put_bytes(alloc, out, content.as_slice())
    }
}
