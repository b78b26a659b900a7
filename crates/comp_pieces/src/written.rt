//! Sections are written where they may be, and those that the bytes spell are kept with them.

ghost use Rattle.std.specs.Prelude.{◌≡◌, [], ◌∷◌, ◌++◌, OnOk, IfOk, IfSome, IsTrue};
ghost use Rattle.comp_grammar.specs.Trees.{plain_section};
ghost use Rattle.virt_output.specs.Pieces.{IsPieceOf};
ghost use Rattle.comp_pieces.specs.Extending.{IsPut, Extends, HoldsNone};

use crate::piece_fits::items_fit;
use std::alloc::Global;
use virt_base::NoMemory;
use virt_output::{Piece, PieceFault, put_piece, start_component};
use wasm_ast::Section;

/// Adds a section: `TooLong` where 32 bits can't say a count or a length in it.
pub fn put(alloc: Global, out: &mut Vec<u8>, piece: &Piece<'_>) -> Result<(), PieceFault>
    ensures { OnOk result (IsPut piece.now out.old.items out.new.items) }
{
    if !items_fit(alloc, piece)? {
        return Err(PieceFault::TooLong);
    }
    put_piece(alloc, out, piece)
}

/// The component of these sections, written.
pub fn write_pieces(alloc: Global, pieces: &[Piece<'_>]) -> Result<Vec<u8>, PieceFault> {
    let mut out = start_component(alloc)?;
    for piece in pieces {
        put(alloc, &mut out, piece)?;
    }
    Ok(out)
}

/// The section of a piece that lists items.
#[tactic(auto, unfolding(comp_grammar::specs::Trees::plain_section))]
fn section_of(piece: Piece<'_>) -> Option<Section>
    ensures is { IfSome result (λ s. IsPieceOf piece.entry (plain_section s)) }
    ensures alone { IfSome result HoldsNone }
{
    match piece {
        Piece::CoreInstances(items) => Some(Section::CoreInstances(items)),
        Piece::Instances(items) => Some(Section::Instances(items)),
        Piece::Aliases(items) => Some(Section::Aliases(items)),
        Piece::Types(items) => Some(Section::Types(items)),
        Piece::Canons(items) => Some(Section::Canons(items)),
        Piece::Imports(items) => Some(Section::Imports(items)),
        Piece::Exports(items) => Some(Section::Exports(items)),
        Piece::Component(_) | Piece::CoreModule(_) => None,
    }
}

/// Adds a section that lists items, to bytes and to the sections that these spell. False of a component or a module.
#[tactic(auto, using(crate::proofs::ExtendLaws::one_extends))]
fn put_section(
    alloc: Global,
    out: &mut Vec<u8>,
    to: &mut Vec<Section>,
    piece: Piece<'_>,
) -> Result<bool, PieceFault>
    ensures { IfOk result (λ done. IsTrue done → Extends to.old.items to.new.items out.old.items out.new.items) }
{
    put(alloc, out, &piece)?;
    match section_of(piece) {
        Some(section) => {
            push(to, section)?;
            Ok(true)
        }
        None => Ok(false),
    }
}

fn push(to: &mut Vec<Section>, section: Section) -> Result<(), NoMemory>
    ensures { OnOk result (to.new.items ≡ to.old.items ++ section ∷ []) }
{
    to.push(section)?;
    Ok(())
}

/// Adds sections that list items, to bytes and to the sections that these spell. False where one holds a component or a module.
pub fn put_sections(
    alloc: Global,
    out: &mut Vec<u8>,
    to: &mut Vec<Section>,
    pieces: Vec<Piece<'_>>,
) -> Result<bool, PieceFault>
    ensures { IfOk result (λ done. IsTrue done → Extends to.old.items to.new.items out.old.items out.new.items) }
{
    for piece in pieces {
        if !put_section(alloc, out, to, piece)? {
            return Ok(false);
        }
    }
    Ok(true)
}
