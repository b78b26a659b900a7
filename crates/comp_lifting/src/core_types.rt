//! The types of core functions that canonical functions add: flattened from a function type, or those of resources (Component Model,
//! CanonicalABI.md, "Flattening").

ghost use Rattle.std.specs.Prelude.{◌≡◌, ◌∷◌, [], IfOk, OnOk};
ghost use Rattle.virt_base.specs.declared.core_type.CoreType.TheVariants.{I32};
ghost use Rattle.wit_types.specs.Plain.{PlainFunc};
ghost use Rattle.comp_facts.specs.Facts.{IsFuncFactsOf};
ghost use Rattle.comp_types.specs.Added.{takes_and_gives, takes_one};
ghost use Rattle.comp_types.specs.Flat.{lowered_type};
ghost use Rattle.comp_types.specs.Spaces.{Space, and_core_item};
ghost use Rattle.core_validate.specs.declared.item.CoreItem.TheVariants.{Func};
ghost use Rattle.comp_scopes.specs.Stands.{Stands};
ghost use Rattle.abi_layout.specs.Functions.{core_params, lowered};

use comp_facts::FuncFacts;
use comp_scopes::{Scope, SharedItem};
use core_validate::{CoreItem, Shared};
use std::alloc::Global;
use virt_base::{CoreType, Items, NoMemory};
use wasm_ast::CoreFunc;

fn one_number(alloc: Global) -> Result<Vec<CoreType>, NoMemory>
    ensures { IfOk result (λ types. types.items ≡ I32 ∷ []) }
{
    Ok(Vec::from_slice(alloc, &[CoreType::I32])?)
}

/// The type of `resource.new` and `resource.rep`.
pub fn takes_and_gives(alloc: Global) -> Result<CoreFunc, NoMemory>
    ensures { IfOk result (λ f. f ≡ takes_and_gives) }
{
    Ok(CoreFunc {
        params: Items::new(one_number(alloc)?),
        results: Items::new(one_number(alloc)?),
    })
}

/// The type of `resource.drop`.
pub fn takes_one(alloc: Global) -> Result<CoreFunc, NoMemory>
    ensures { IfOk result (λ f. f ≡ takes_one) }
{
    Ok(CoreFunc {
        params: Items::new(one_number(alloc)?),
        results: Items::empty(alloc),
    })
}

/// The flat parameters.
fn core_params(alloc: Global, ty: &FuncFacts) -> Result<Vec<CoreType>, NoMemory>
    ensures { IfOk result (λ types. (t : PlainFunc) → IsFuncFactsOf t ty.now → types.items ≡ core_params t) }
{
    if ty.params_spill() {
        return one_number(alloc);
    }
    let flat = ty.params.fields;
    Ok(Vec::from_slice(alloc, &flat.types[..flat.count as usize])?)
}

/// The parameters of a core function that is lowered: the place for results that spill is one more.
fn params_of(alloc: Global, ty: &FuncFacts) -> Result<Vec<CoreType>, NoMemory>
    ensures { IfOk result (λ types. (t : PlainFunc) → IsFuncFactsOf t ty.now → types.items ≡ (lowered t).params) }
{
    let mut params = core_params(alloc, ty)?;
    if !ty.result_spills() {
        return Ok(params);
    }
    params.push(CoreType::I32)?;
    Ok(params)
}

/// The results of a core function that is lowered.
fn results_of(alloc: Global, ty: &FuncFacts) -> Result<Vec<CoreType>, NoMemory>
    ensures { IfOk result (λ types. (t : PlainFunc) → IsFuncFactsOf t ty.now → types.items ≡ (lowered t).results) }
{
    if ty.result_spills() {
        return Ok(Vec::new(alloc));
    }
    match &ty.answer {
        None => Ok(Vec::new(alloc)),
        Some(answer) => {
            let flat = &answer.flat;
            Ok(Vec::from_slice(alloc, &flat.types[..flat.count as usize])?)
        }
    }
}

/// The type of a core function that is lowered from a function of this type.
pub fn lowered_type(alloc: Global, ty: &FuncFacts) -> Result<CoreFunc, NoMemory>
    ensures { IfOk result (λ f. (t : PlainFunc) → IsFuncFactsOf t ty.now → f ≡ lowered_type t) }
{
    Ok(CoreFunc {
        params: Items::new(params_of(alloc, ty)?),
        results: Items::new(results_of(alloc, ty)?),
    })
}

/// Adds a core function of this type.
pub fn add_core_func(alloc: Global, scope: &mut Scope, ty: CoreFunc) -> Result<(), NoMemory>
    ensures { OnOk result ((s : Space) → Stands s scope.old → Stands (and_core_item s (Func ty)) scope.new) }
{
    let ty = Shared::new(alloc, ty)?;
    scope.core.add_item(SharedItem::new(CoreItem::Func(ty)))
}
