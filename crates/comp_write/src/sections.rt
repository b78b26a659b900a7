//! The sections of a component are written in their order: nested ones and custom ones as they stand in the input, the others item by
//! item (Component Model, Binary.md, "Component Definitions").

ghost use Rattle.std.specs.Prelude.{◌≡◌, ◌++◌, ◌∷◌, OnOk};
ghost use Rattle.std.specs.List.{AllByRecursion};
ghost use Rattle.wasm_format.specs.Format.{Format, sized, vec, anything};
ghost use Rattle.comp_grammar.specs.Trees.{plain_section};
ghost use Rattle.comp_write.specs.Copying.{cut, LiesIn, section_bytes, IsWritable};
ghost use Rattle.comp_write.specs.Forms.{AllWritable, bytes_of};

use crate::aliases::AliasWriter;
use crate::canons::CanonWriter;
use crate::core_instances::CoreInstanceWriter;
use crate::externs::{ExportWriter, ImportWriter};
use crate::instances::InstanceWriter;
use crate::type_items::TypeItemsWriter;
use std::alloc::Global;
use virt_base::{Items, NoMemory, write_u32};
use wasm_ast::{Section, Span};
use wasm_format::{Sized, Vecs, Writer, put_byte, put_bytes};

/// Adds a section that is a part of the input.
#[tactic(auto, unfolding(wasm_format::specs::Format::u32_format))]
fn put_copy(
    alloc: Global,
    out: &mut Vec<u8>,
    id: u8,
    source: &[u8],
    span: Span,
) -> Result<(), NoMemory>
    requires { LiesIn span source.now }
    ensures { OnOk result (out.new.items ≡ out.old.items ++ id ∷ (sized anything).write (cut span source.now)) }
{
    let bytes = &source[span.from as usize..span.to as usize];
    put_byte(alloc, out, id)?;
    write_u32(alloc, out, bytes.len() as u32)?;
    put_bytes(alloc, out, bytes)
}

/// Adds a section of items.
fn put_list<W: Writer + Drop>(
    alloc: Global,
    out: &mut Vec<u8>,
    id: u8,
    writer: W,
    items: &Items<W::Value>,
) -> Result<(), NoMemory>
    requires { (sized (vec (W.format writer))).Fits items.now }
    ensures { OnOk result (out.new.items ≡ out.old.items ++ id ∷ (sized (vec (W.format writer))).write items.now) }
{
    put_byte(alloc, out, id)?;
    Sized(Vecs(writer)).write(alloc, out, items)
}

#[tactic(auto, unfolding(comp_grammar::specs::Trees::plain_section))]
fn put_section(
    alloc: Global,
    out: &mut Vec<u8>,
    source: &[u8],
    section: &Section,
) -> Result<(), NoMemory>
    requires { IsWritable source.now (plain_section section.now) }
    ensures { OnOk result (out.new.items ≡ out.old.items ++ section_bytes source.now (plain_section section.now)) }
{
    match section {
        Section::Custom(span) => put_copy(alloc, out, 0, source, *span),
        Section::CoreModule(span, _) => put_copy(alloc, out, 1, source, *span),
        Section::CoreInstances(items) => put_list(alloc, out, 2, CoreInstanceWriter, items),
        Section::Nested(span, _) => put_copy(alloc, out, 4, source, *span),
        Section::Instances(items) => put_list(alloc, out, 5, InstanceWriter, items),
        Section::Aliases(items) => put_list(alloc, out, 6, AliasWriter, items),
        Section::Types(items) => {
            put_byte(alloc, out, 7)?;
            Sized(TypeItemsWriter).write(alloc, out, items)
        }
        Section::Canons(items) => put_list(alloc, out, 8, CanonWriter, items),
        Section::Imports(items) => put_list(alloc, out, 10, ImportWriter, items),
        Section::Exports(items) => put_list(alloc, out, 11, ExportWriter, items),
    }
}

/// Adds the sections.
pub fn put_sections(
    alloc: Global,
    out: &mut Vec<u8>,
    source: &[u8],
    sections: &[Section],
) -> Result<(), NoMemory>
    requires { AllWritable source.now sections.now }
    ensures { OnOk result (out.new.items ≡ out.old.items ++ bytes_of source.now sections.now) }
{
    for section in sections {
        put_section(alloc, out, source, section)?;
    }
    Ok(())
}
