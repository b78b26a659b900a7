//! Lifted functions: the rules that are asked of one, and the function that it adds (Component Model, Binary.md,
//! "Canonical Definitions").

ghost use Rattle.std.specs.Prelude.{◌≡◌, List, IfOk, true};
ghost use Rattle.wasm_ast.specs.declared.component.Canon.TheVariants.{Lift};
ghost use Rattle.comp_types.specs.Definitions.{ACanon};
ghost use Rattle.comp_types.specs.Faults.{fault};
ghost use Rattle.comp_types.specs.Rules.{canon_stands, if_there, is_lifted_from, lengths_of, lift_options};
ghost use Rattle.comp_types.specs.Spaces.{Space, core_func_at, kind_at};
ghost use Rattle.comp_types.specs.Types.{func_in};
ghost use Rattle.comp_types.specs.Views.{kind_of};
ghost use Rattle.comp_scopes.specs.Judged.{Judged};
ghost use Rattle.comp_scopes.specs.Stands.{Stands};

use crate::core_funcs::CoreOf;
use crate::{is_lifted_from, lift_options};
use comp_scopes::{Scope, facts_at, func_at, is_func_at};
use comp_types::TypeItem;
use std::alloc::Global;
use virt_base::NoMemory;
use wasm_ast::{CanonOption, CoreFunc};

fn may_be_lifted(func: &CoreFunc, kind: &TypeItem) -> bool
    ensures { result ≡ is_lifted_from func.now (kind_of kind.now) }
{
    match kind {
        TypeItem::Resource(_) => true,
        TypeItem::Value(_) => true,
        TypeItem::Func(ty) => is_lifted_from(func, ty.facts()),
        TypeItem::Instance(_) => true,
    }
}

/// Whether the core function at an index has the flat type of the function type at another, where both are there.
fn lifts_flat(scope: &Scope, func: u32, ty: u32) -> bool
    ensures { (s : Space) → Stands s scope.now → result ≡ if_there (λ f. if_there (is_lifted_from f) (kind_at s ty)) (core_func_at s func) }
{
    let Some(func) = scope.core.func_at(func) else {
        return true;
    };
    match scope.kind_at(ty) {
        None => true,
        Some(kind) => may_be_lifted(func, kind),
    }
}

fn options_are_sound(scope: &Scope, ty: u32, options: &[CanonOption]) -> bool
    ensures { (s : Space) → Stands s scope.now → result ≡ lift_options (core_func_at s) (func_in (kind_at s ty)) options.now }
{
    lift_options(&CoreOf(&scope.core), &facts_at(scope, ty), options)
}

/// The least rule that a lifted function breaks, whose indexes stand.
fn lift_fault(scope: &Scope, func: u32, options: &[CanonOption], ty: u32) -> Option<u32>
    ensures { (around : List Space) → (s : Space) → Stands s scope.now → canon_stands (lengths_of s) (Lift func options.now ty) ≡ true → result ≡ fault around s (ACanon (Lift func options.now ty)) }
{
    if !is_func_at(scope, ty) {
        return Some(11);
    }
    if !lifts_flat(scope, func, ty) {
        return Some(16);
    }
    if !options_are_sound(scope, ty, options) {
        return Some(17);
    }
    None
}

/// A lifted function whose indexes stand: the least rule that it breaks, or else it is added.
pub fn define_lift(
    alloc: Global,
    scope: &mut Scope,
    func: u32,
    options: &[CanonOption],
    ty: u32,
) -> Result<Option<u32>, NoMemory>
    ensures { IfOk result (λ rule. (around : List Space) → (s : Space) → Stands s scope.old → canon_stands (lengths_of s) (Lift func options.now ty) ≡ true → Judged around s (ACanon (Lift func options.now ty)) scope.new rule) }
{
    match lift_fault(scope, func, options, ty) {
        Some(rule) => Ok(Some(rule)),
        None => {
            let known = func_at(alloc, scope, ty)?;
            scope.add_func(known)?;
            Ok(None)
        }
    }
}
