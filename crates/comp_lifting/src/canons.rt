//! Canonical functions of any form (Component Model, Binary.md, "Canonical Definitions"): rule 3, and then the rules of the form.

ghost use Rattle.std.specs.Prelude.{List, IfOk};
ghost use Rattle.comp_types.specs.Definitions.{ACanon};
ghost use Rattle.comp_types.specs.Spaces.{Space};
ghost use Rattle.comp_scopes.specs.Judged.{Judged};
ghost use Rattle.comp_scopes.specs.Stands.{Stands};

use crate::lifts::define_lift;
use crate::lowers::define_lower;
use crate::resources::{define_drop, define_own};
use comp_indexes::canon_stands;
use comp_scopes::Scope;
use std::alloc::Global;
use virt_base::NoMemory;
use wasm_ast::Canon;

/// A canonical function: the least rule that it breaks, or else it is added.
pub fn define_canon(
    alloc: Global,
    scope: &mut Scope,
    canon: &Canon,
) -> Result<Option<u32>, NoMemory>
    ensures { IfOk result (λ rule. (around : List Space) → (s : Space) → Stands s scope.old → Judged around s (ACanon canon.now) scope.new rule) }
{
    if !canon_stands(&scope.lengths(), canon) {
        return Ok(Some(3));
    }
    match canon {
        Canon::Lift { func, options, ty } => {
            define_lift(alloc, scope, *func, options.as_slice(), *ty)
        }
        Canon::Lower { func, options } => define_lower(alloc, scope, *func, options.as_slice()),
        Canon::ResourceNew(ty) => define_own(alloc, scope, *ty),
        Canon::ResourceDrop(ty) => define_drop(alloc, scope, *ty),
        Canon::ResourceRep(ty) => define_own(alloc, scope, *ty),
    }
}
