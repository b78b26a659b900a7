//! Whether the items of a piece may be written, whatever section it is.

ghost use Rattle.std.specs.Prelude.{IsTrue, IfOk};
ghost use Rattle.virt_output.specs.Pieces.{ItemsFit};

use crate::fits::all_fit;
use crate::type_items::types_fit;
use std::alloc::Global;
use virt_base::NoMemory;
use virt_output::Piece;

/// True only where the items of a piece may be written.
pub fn items_fit(alloc: Global, piece: &Piece<'_>) -> Result<bool, NoMemory>
    ensures { IfOk result (λ fit. IsTrue fit → ItemsFit piece.now) }
{
    match piece {
        Piece::Component(_) => Ok(true),
        Piece::CoreModule(_) => Ok(true),
        Piece::CoreInstances(items) => Ok(all_fit(items.as_slice())),
        Piece::Instances(items) => Ok(all_fit(items.as_slice())),
        Piece::Aliases(items) => Ok(all_fit(items.as_slice())),
        Piece::Types(items) => types_fit(alloc, items.as_slice()),
        Piece::Canons(items) => Ok(all_fit(items.as_slice())),
        Piece::Imports(items) => Ok(all_fit(items.as_slice())),
        Piece::Exports(items) => Ok(all_fit(items.as_slice())),
    }
}
