//! Sections, added to a component that is being written (Component Model, Binary.md, "Component Definitions").

ghost use Rattle.std.specs.Prelude.{◌≡◌, ℕ, List, ◌++◌, length, IfOk, OnOk};
ghost use Rattle.wasm_format.specs.Format.{Format};
ghost use Rattle.comp_grammar.specs.Trees.{Tree, Part, Nested, End};
ghost use Rattle.comp_grammar.specs.Components.{add, no_span, preamble};
ghost use Rattle.comp_write.specs.Copying.{SpellsBare};
ghost use Rattle.virt_output.specs.Pieces.{id_of, content_of, ItemsFit, IsPieceOf, Adds, head_of_component};

use crate::fault::PieceFault;
use crate::piece::Piece;
use comp_write::{
    AliasWriter, CanonWriter, CoreInstanceWriter, ExportWriter, ImportWriter, InstanceWriter,
    TypeItemsWriter,
};
use std::alloc::Global;
use virt_base::{NoMemory, write_u32};
use wasm_format::{Vecs, Writer, put_byte, put_bytes};

/// The magic number, the version and the layer (Component Model, Binary.md, "Component Definitions").
const PREAMBLE: [u8; 8] = [0x00, 0x61, 0x73, 0x6D, 0x0D, 0x00, 0x01, 0x00];

/// The most bytes that a size can say.
const MOST: usize = 0xFFFF_FFFF;

/// Adds a section: its id, the size of its content, and that.
#[tactic(auto, unfolding(wasm_format::specs::Format::u32_format))]
fn put_content(alloc: Global, out: &mut Vec<u8>, id: u8, content: &[u8]) -> Result<(), PieceFault>
    ensures { Adds id content.now out.old.items out.new.items result }
{
    if content.len() > MOST {
        return Err(PieceFault::TooLong);
    }
    put_byte(alloc, out, id)?;
    write_u32(alloc, out, content.len() as u32)?;
    put_bytes(alloc, out, content)?;
    Ok(())
}

/// Adds a section of items.
fn put_items<W: Writer + Drop>(
    alloc: Global,
    out: &mut Vec<u8>,
    id: u8,
    writer: W,
    items: &W::Value,
) -> Result<(), PieceFault>
    requires { (W.format writer).Fits items.now }
    ensures { Adds id ((W.format writer).write items.now) out.old.items out.new.items result }
{
    let mut content = Vec::new(alloc);
    writer.write(alloc, &mut content, items)?;
    put_content(alloc, out, id, content.as_slice())
}

/// Adds the section that a piece is.
fn put_section(alloc: Global, out: &mut Vec<u8>, piece: &Piece<'_>) -> Result<(), PieceFault>
    requires { ItemsFit piece.now }
    ensures { Adds (id_of piece.now) (content_of piece.now) out.old.items out.new.items result }
{
    match piece {
        Piece::Component(bytes) => put_content(alloc, out, 4, *bytes),
        Piece::CoreModule(bytes) => put_content(alloc, out, 1, *bytes),
        Piece::CoreInstances(items) => put_items(alloc, out, 2, Vecs(CoreInstanceWriter), items),
        Piece::Instances(items) => put_items(alloc, out, 5, Vecs(InstanceWriter), items),
        Piece::Aliases(items) => put_items(alloc, out, 6, Vecs(AliasWriter), items),
        Piece::Types(items) => put_items(alloc, out, 7, TypeItemsWriter, items),
        Piece::Canons(items) => put_items(alloc, out, 8, Vecs(CanonWriter), items),
        Piece::Imports(items) => put_items(alloc, out, 10, Vecs(ImportWriter), items),
        Piece::Exports(items) => put_items(alloc, out, 11, Vecs(ExportWriter), items),
    }
}

/// The component without sections, to which pieces are added.
pub fn start_component(alloc: Global) -> Result<Vec<u8>, NoMemory>
    ensures written { IfOk result (λ out. out.items ≡ preamble) }
    ensures spelled { IfOk result (λ out. SpellsBare 0 End out.items) }
{
    let mut out = Vec::new(alloc);
    put_bytes(alloc, &mut out, PREAMBLE.as_slice())?;
    Ok(out)
}

/// Adds a section (Component Model, Binary.md, "Component Definitions"). Items are written in their shortest spelling, and the bytes
/// of what is nested as they are. Where the bytes so far spell a component, those after it spell the component with one section more,
/// for each section of which this is a piece.
///
/// `TooLong` exactly where no size can say how long the section's content is. After an error a part of the section may stand in `out`.
pub fn put_piece(alloc: Global, out: &mut Vec<u8>, piece: &Piece<'_>) -> Result<(), PieceFault>
    requires { ItemsFit piece.now }
    ensures added { Adds (id_of piece.now) (content_of piece.now) out.old.items out.new.items result }
    ensures spelled { OnOk result ((t : Tree) → (part : Part) → IsPieceOf piece.now part → SpellsBare 0 t out.old.items → SpellsBare 0 (add t part) out.new.items) }
{
    put_section(alloc, out, piece)
}

/// Adds the head of a nested component that has that many bytes, which are to follow it: they need not be in memory.
#[tactic(auto, unfolding(wasm_format::specs::Format::u32_format))]
pub fn put_component_head(alloc: Global, out: &mut Vec<u8>, size: u32) -> Result<(), NoMemory>
    ensures added { OnOk result (out.new.items ≡ out.old.items ++ head_of_component size) }
    ensures spelled { OnOk result ((t u : Tree) → (bytes : List ℕ) → length bytes ≡ size → SpellsBare 0 u bytes → SpellsBare 0 t out.old.items → SpellsBare 0 (add t (Nested no_span u)) (out.new.items ++ bytes)) }
{
    put_byte(alloc, out, 4)?;
    write_u32(alloc, out, size)?;
    Ok(())
}
