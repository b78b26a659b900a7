//! The rules that are asked of a definition of a type, in order, and the least that it breaks.

ghost use Rattle.std.specs.Prelude.{◌≡◌, ◌&&◌, not, nat_le, List, IfOk};
ghost use Rattle.wasm_ast.specs.declared.component.TypeDef.TheVariants.{Func};
ghost use Rattle.comp_facts.specs.Handles.{has_borrow};
ghost use Rattle.comp_types.specs.Declarations.{ATypeDef};
ghost use Rattle.comp_types.specs.Definitions.{AType};
ghost use Rattle.comp_types.specs.Faults.{fault};
ghost use Rattle.comp_types.specs.Rules.{functions_are_sound, if_there, resources_are_sound};
ghost use Rattle.comp_types.specs.Spaces.{Space, core_func_at};
ghost use Rattle.comp_types.specs.Rules.{is_destructor as is_destructor_type};
ghost use Rattle.comp_types.specs.Types.{kind_of as kind_due, value_of};
ghost use Rattle.comp_scopes.specs.Stands.{Stands};
ghost use Rattle.comp_types.specs.Measures.{kind_depth, kind_parts};
ghost use Rattle.comp_types.specs.Views.{kind_of};

use crate::{def_has_values, resources_are_due, value_at};
use comp_indexes::{def_is_filled, def_labels_are_legal, def_stands, names_differ};
use comp_lifting::is_destructor;
use comp_scopes::Scope;
use comp_types::TypeItem;
use std::alloc::Global;
use virt_base::NoMemory;
use wasm_ast::{LabelType, TypeDef, ValType};

/// Whether a type keeps the limits on depth and parts.
#[tactic(auto, using(crate::proofs::TypeLemmas::under))]
fn is_small(kind: &TypeItem) -> bool
    ensures { result ≡ (nat_le (kind_depth (kind_of kind.now)) 100 && nat_le (kind_parts (kind_of kind.now)) 1000000) }
{
    kind.depth() <= 100 && kind.parts() <= 1_000_000
}

fn answer_is_sound(alloc: Global, scope: &Scope, answer: Option<ValType>) -> Result<bool, NoMemory>
    ensures { IfOk result (λ sound. (s : Space) → Stands s scope.now → sound ≡ if_there (λ v. not (has_borrow (value_of s v))) answer) }
{
    match answer {
        None => Ok(true),
        Some(value) => {
            let value = value_at(alloc, scope, value)?;
            Ok(!value.facts().borrows)
        }
    }
}

fn func_is_sound(
    alloc: Global,
    scope: &Scope,
    params: &[LabelType],
    answer: Option<ValType>,
) -> Result<bool, NoMemory>
    ensures { IfOk result (λ sound. (s : Space) → Stands s scope.now → sound ≡ functions_are_sound s (AType (ATypeDef (Func params.now answer)))) }
{
    let differ = names_differ(alloc, params)?;
    if !differ {
        return Ok(false);
    }
    answer_is_sound(alloc, scope, answer)
}

/// Whether a function's parameters have names that differ, and its result holds no borrowed handle.
fn functions_are_sound(alloc: Global, scope: &Scope, def: &TypeDef) -> Result<bool, NoMemory>
    ensures { IfOk result (λ sound. (s : Space) → Stands s scope.now → sound ≡ functions_are_sound s (AType (ATypeDef def.now))) }
{
    match def {
        TypeDef::Func { params, result } => {
            func_is_sound(alloc, scope, params.as_slice(), result.get())
        }
        TypeDef::Primitive(_) => Ok(true),
        TypeDef::Record { fields: _ } => Ok(true),
        TypeDef::Variant { cases: _ } => Ok(true),
        TypeDef::List(_) => Ok(true),
        TypeDef::Tuple { types: _ } => Ok(true),
        TypeDef::Flags { labels: _ } => Ok(true),
        TypeDef::Enum { labels: _ } => Ok(true),
        TypeDef::Option(_) => Ok(true),
        TypeDef::Result { ok: _, err: _ } => Ok(true),
        TypeDef::Own(_) => Ok(true),
        TypeDef::Borrow(_) => Ok(true),
        TypeDef::Instance { declarations: _ } => Ok(true),
        TypeDef::Resource { destructor: _ } => Ok(true),
    }
}

fn destructor_is_sound(scope: &Scope, destructor: Option<u32>) -> bool
    ensures { (s : Space) → Stands s scope.now → result ≡ if_there (λ i. if_there is_destructor_type (core_func_at s i)) destructor }
{
    let Some(index) = destructor else {
        return true;
    };
    match scope.core.func_at(index) {
        None => true,
        Some(func) => is_destructor(func),
    }
}

/// Whether a resource is defined by a component, with a destructor of its type if it has one.
fn resources_are_sound(scope: &Scope, def: &TypeDef) -> bool
    ensures { (s : Space) → Stands s scope.now → result ≡ resources_are_sound s (AType (ATypeDef def.now)) }
{
    match def {
        TypeDef::Resource { destructor } => {
            scope.is_component && destructor_is_sound(scope, *destructor)
        }
        TypeDef::Primitive(_) => true,
        TypeDef::Record { fields: _ } => true,
        TypeDef::Variant { cases: _ } => true,
        TypeDef::List(_) => true,
        TypeDef::Tuple { types: _ } => true,
        TypeDef::Flags { labels: _ } => true,
        TypeDef::Enum { labels: _ } => true,
        TypeDef::Option(_) => true,
        TypeDef::Result { ok: _, err: _ } => true,
        TypeDef::Own(_) => true,
        TypeDef::Borrow(_) => true,
        TypeDef::Func {
            params: _,
            result: _,
        } => true,
        TypeDef::Instance { declarations: _ } => true,
    }
}

/// The least rule that a definition breaks, which stands for this type.
pub fn type_fault(
    alloc: Global,
    scope: &Scope,
    def: &TypeDef,
    kind: &TypeItem,
) -> Result<Option<u32>, NoMemory>
    ensures { IfOk result (λ rule. (around : List Space) → (s : Space) → Stands s scope.now → kind_of kind.now ≡ kind_due s def.now → rule ≡ fault around s (AType (ATypeDef def.now))) }
{
    if !def_stands(&scope.lengths(), def) {
        return Ok(Some(3));
    }
    let filled = def_is_filled(alloc, def)?;
    if !filled {
        return Ok(Some(9));
    }
    if !is_small(kind) {
        return Ok(Some(10));
    }
    if !def_has_values(scope, def) {
        return Ok(Some(11));
    }
    if !resources_are_due(scope, def) {
        return Ok(Some(12));
    }
    let sound = functions_are_sound(alloc, scope, def)?;
    if !sound {
        return Ok(Some(13));
    }
    if !resources_are_sound(scope, def) {
        return Ok(Some(14));
    }
    if !def_labels_are_legal(def) {
        return Ok(Some(20));
    }
    Ok(None)
}
