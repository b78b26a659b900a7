//! Lowered functions: the rules that are asked of one, and the core function that it adds (Component Model, Binary.md,
//! "Canonical Definitions").

ghost use Rattle.std.specs.Prelude.{◌≡◌, List, IfOk, slice_get, true};
ghost use Rattle.wasm_ast.specs.declared.component.Canon.TheVariants.{Lower};
ghost use Rattle.comp_types.specs.Added.{lowered_at};
ghost use Rattle.comp_types.specs.Definitions.{ACanon};
ghost use Rattle.comp_types.specs.Faults.{fault};
ghost use Rattle.comp_types.specs.Rules.{canon_stands, if_there, lengths_of, lower_options};
ghost use Rattle.comp_types.specs.Spaces.{Space, core_func_at};
ghost use Rattle.comp_scopes.specs.Judged.{Judged};
ghost use Rattle.comp_scopes.specs.Stands.{Stands};

use crate::core_funcs::CoreOf;
use crate::core_types::{add_core_func, lowered_type};
use crate::lower_options;
use comp_scopes::{Scope, facts_of_none};
use std::alloc::Global;
use virt_base::NoMemory;
use wasm_ast::{CanonOption, CoreFunc};

fn options_are_sound(scope: &Scope, func: u32, options: &[CanonOption]) -> bool
    ensures { (s : Space) → Stands s scope.now → result ≡ if_there (λ ty. lower_options (core_func_at s) ty options.now) (slice_get s.functions func) }
{
    match scope.func_at(func) {
        None => true,
        Some(ty) => lower_options(&CoreOf(&scope.core), ty.facts(), options),
    }
}

/// The least rule that a lowered function breaks, whose indexes stand.
fn lower_fault(scope: &Scope, func: u32, options: &[CanonOption]) -> Option<u32>
    ensures { (around : List Space) → (s : Space) → Stands s scope.now → canon_stands (lengths_of s) (Lower func options.now) ≡ true → result ≡ fault around s (ACanon (Lower func options.now)) }
{
    if !options_are_sound(scope, func, options) {
        return Some(17);
    }
    None
}

/// The core type of a function at an index; that of one without parameters and results where there is none.
pub fn lowered_at(alloc: Global, scope: &Scope, func: u32) -> Result<CoreFunc, NoMemory>
    ensures { IfOk result (λ f. (s : Space) → Stands s scope.now → f ≡ lowered_at (slice_get s.functions func)) }
{
    match scope.func_at(func) {
        None => lowered_type(alloc, &facts_of_none()),
        Some(ty) => lowered_type(alloc, ty.facts()),
    }
}

/// A lowered function whose indexes stand: the least rule that it breaks, or else it is added.
pub fn define_lower(
    alloc: Global,
    scope: &mut Scope,
    func: u32,
    options: &[CanonOption],
) -> Result<Option<u32>, NoMemory>
    ensures { IfOk result (λ rule. (around : List Space) → (s : Space) → Stands s scope.old → canon_stands (lengths_of s) (Lower func options.now) ≡ true → Judged around s (ACanon (Lower func options.now)) scope.new rule) }
{
    match lower_fault(scope, func, options) {
        Some(rule) => Ok(Some(rule)),
        None => {
            let ty = lowered_at(alloc, scope, func)?;
            add_core_func(alloc, scope, ty)?;
            Ok(None)
        }
    }
}
