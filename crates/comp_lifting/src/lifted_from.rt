//! Whether a core function has the type that is needed of it: of what is lifted, a post-return, a destructor or a realloc (Component
//! Model, CanonicalABI.md, "Flattening"). Types are compared as they stand, and none is made.

ghost use Rattle.std.specs.Prelude.{◌≡◌, ◌∷◌, [], if◌then◌else◌};
ghost use Rattle.std.specs.Cmp.Lexicographic.{pointwise};
ghost use Rattle.virt_base.specs.declared.core_type.CoreType.TheVariants.{I32};
ghost use Rattle.wit_types.specs.Plain.{PlainFunc};
ghost use Rattle.abi_layout.specs.Functions.{core_params, lifted};
ghost use Rattle.comp_types.specs.CoreMatching.{same_core, same_func};
ghost use Rattle.comp_types.specs.Flat.{lifted_type};
ghost use Rattle.comp_types.specs.Rules.{is_destructor, post_return_type, realloc_type};
ghost use Rattle.comp_facts.specs.Facts.{IsFuncFactsOf};

use abi_layout::Flat;
use comp_facts::FuncFacts;
use virt_base::CoreType;
use wasm_ast::CoreFunc;

fn same_core(one: CoreType, other: CoreType) -> bool
    ensures { result ≡ same_core one other }
{
    match (one, other) {
        (CoreType::I32, CoreType::I32) => true,
        (CoreType::I64, CoreType::I64) => true,
        (CoreType::Funcref, CoreType::Funcref) => true,
        (CoreType::Externref, CoreType::Externref) => true,
        _ => false,
    }
}

/// Whether types are the same in order.
pub fn same_types(these: &[CoreType], others: &[CoreType]) -> bool
    ensures { result ≡ pointwise same_core these.now others.now }
{
    let mut left = these;
    let mut right = others;
    while let Some((one, more)) = left.split_first() {
        let Some((other, rest)) = right.split_first() else {
            return false;
        };
        if !same_core(*one, *other) {
            return false;
        }
        left = more;
        right = rest;
    }
    right.is_empty()
}

fn is_one_number(types: &[CoreType]) -> bool
    ensures { result ≡ pointwise same_core types.now (I32 ∷ []) }
{
    same_types(types, &[CoreType::I32])
}

/// Whether these are the core parameters of a function.
fn are_params_of(types: &[CoreType], ty: &FuncFacts) -> bool
    ensures { (t : PlainFunc) → IsFuncFactsOf t ty.now → result ≡ pointwise same_core types.now (core_params t) }
{
    if ty.params_spill() {
        return is_one_number(types);
    }
    let flat = ty.params.fields;
    same_types(types, &flat.types[..flat.count as usize])
}

/// Whether these are what the core function gives that is lifted to a function.
fn are_results_of(types: &[CoreType], ty: &FuncFacts) -> bool
    ensures { (t : PlainFunc) → IsFuncFactsOf t ty.now → result ≡ pointwise same_core types.now (lifted t).results }
{
    if ty.result_spills() {
        return is_one_number(types);
    }
    match &ty.answer {
        None => types.is_empty(),
        Some(answer) => same_types(types, &answer.flat.types[..answer.flat.count as usize]),
    }
}

/// Whether a core function may be lifted to a function of this type.
pub fn is_lifted_from(func: &CoreFunc, ty: &FuncFacts) -> bool
    ensures { (t : PlainFunc) → IsFuncFactsOf t ty.now → result ≡ same_func func.now (lifted_type t) }
{
    are_params_of(func.params.as_slice(), ty) && are_results_of(func.results.as_slice(), ty)
}

/// Whether a core function may be the post-return of a lifted function of this type.
pub fn is_post_return_of(func: &CoreFunc, ty: &FuncFacts) -> bool
    ensures { (t : PlainFunc) → IsFuncFactsOf t ty.now → result ≡ same_func func.now (post_return_type t) }
{
    are_results_of(func.params.as_slice(), ty) && func.results.is_empty()
}

/// Whether a core function may be the destructor of a resource.
pub fn is_destructor(func: &CoreFunc) -> bool
    ensures { result ≡ is_destructor func.now }
{
    is_one_number(func.params.as_slice()) && func.results.is_empty()
}

/// Whether a core function may give new bytes for old ones.
pub fn is_realloc(func: &CoreFunc) -> bool
    ensures { result ≡ same_func func.now realloc_type }
{
    let params = [CoreType::I32; 4];
    same_types(func.params.as_slice(), &params) && is_one_number(func.results.as_slice())
}
