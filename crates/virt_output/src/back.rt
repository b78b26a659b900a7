//! What stands after the bytes of an application that imports nothing: its instance, aliases and exports, written section by section.

ghost use Rattle.virt_output.specs.Pieces.{Adds, ItemsFit, content_of, id_of};
ghost use Rattle.comp_types.specs.Views.{entries_of};
ghost use Rattle.virt_output.specs.Bytes.{AddsExports, CanBeNamed, Ends};

use crate::items::{aliases_of, exports_of, one_instance};
use crate::{Piece, PieceFault, put_piece};
use comp_types::InstanceEntry;
use std::alloc::Global;

/// Adds a section.
fn add(alloc: Global, out: &mut Vec<u8>, piece: Piece<'_>) -> Result<(), PieceFault>
    requires { ItemsFit piece }
    ensures { Adds (id_of piece.entry) (content_of piece.entry) out.old.items out.new.items result }
{
    put_piece(alloc, out, &piece)
}

/// Adds an alias of each export, and an export of each alias; nothing where nothing is exported.
fn add_exports(
    alloc: Global,
    out: &mut Vec<u8>,
    entries: &[InstanceEntry],
) -> Result<(), PieceFault>
    requires { CanBeNamed (entries_of entries.now) }
    ensures { AddsExports (entries_of entries.now) out.old.items out.new.items result }
{
    if entries.is_empty() {
        return Ok(());
    }
    let aliases = aliases_of(alloc, entries)?;
    let exports = exports_of(alloc, entries)?;
    add(alloc, out, Piece::Aliases(aliases))?;
    add(alloc, out, Piece::Exports(exports))
}

/// What stands after the application's bytes: its instance and, where it exports something, aliases and exports of that.
pub fn back(alloc: Global, entries: &[InstanceEntry]) -> Result<Vec<u8>, PieceFault>
    requires { CanBeNamed (entries_of entries.now) }
    ensures { Ends (entries_of entries.now) result }
{
    let instance = one_instance(alloc)?;
    let mut out = Vec::new(alloc);
    add(alloc, &mut out, Piece::Instances(instance))?;
    add_exports(alloc, &mut out, entries)?;
    Ok(out)
}
