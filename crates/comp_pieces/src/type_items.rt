//! Which sections of types may be written: definitions alone, or one instance type with what it declares.

ghost use Rattle.std.specs.Prelude.{◌≡◌, ◌∷◌, length, IfOk, IfSome, IsTrue};
ghost use Rattle.std.specs.List.{AllByRecursion};
ghost use Rattle.wasm_format.specs.Format.{Format};
ghost use Rattle.wasm_ast.specs.declared.component.TypeDef.TheVariants.{Instance};
ghost use Rattle.wasm_ast.specs.declared.component.TypeItem.TheVariants.{Alias, Define};
ghost use Rattle.comp_grammar.specs.TypeSections.{type_items};
ghost use Rattle.comp_pieces.specs.Typing.{IsDefined, IsDeclared};

use crate::fits::{Fit, MOST, number_fits, text_fits};
use crate::types::kept_fits;
use std::alloc::Global;
use virt_base::NoMemory;
use wasm_ast::{TypeAlias, TypeItem};

#[tactic(auto, using(crate::proofs::TypeFits::define_defined))]
fn is_defined(alloc: Global, item: &TypeItem) -> Result<bool, NoMemory>
    ensures { IfOk result (λ fit. IsTrue fit → IsDefined item.now) }
{
    match item {
        TypeItem::Define(kept) => {
            let fit = kept_fits(alloc, kept)?;
            Ok(fit)
        }
        TypeItem::Alias(_) | TypeItem::Export { .. } => Ok(false),
    }
}

/// Definitions without instance types.
fn are_defined(alloc: Global, items: &[TypeItem]) -> Result<bool, NoMemory>
    ensures { IfOk result (λ fit. IsTrue fit → AllByRecursion IsDefined items.now) }
{
    let mut rest = items;
    while let Some((first, more)) = rest.split_first() {
        if !is_defined(alloc, first)? {
            return Ok(false);
        }
        rest = more;
    }
    Ok(true)
}

#[tactic(auto, using(crate::proofs::TypeFits::alias_export_law, crate::proofs::TypeFits::alias_outer_law))]
fn alias_is_declared(alias: &TypeAlias) -> bool
    ensures { IsTrue result → IsDeclared (Alias alias.now) }
{
    match alias {
        TypeAlias::Export { instance, name } => {
            if !number_fits(*instance) {
                return false;
            }
            text_fits(name)
        }
        TypeAlias::Outer { count, index } => {
            if !number_fits(*count) {
                return false;
            }
            number_fits(*index)
        }
    }
}

#[tactic(auto, using(crate::proofs::TypeFits::define_declared, crate::proofs::TypeFits::export_declared))]
fn is_declared(alloc: Global, item: &TypeItem) -> Result<bool, NoMemory>
    ensures { IfOk result (λ fit. IsTrue fit → IsDeclared item.now) }
{
    match item {
        TypeItem::Define(kept) => {
            let fit = kept_fits(alloc, kept)?;
            Ok(fit)
        }
        TypeItem::Alias(alias) => Ok(alias_is_declared(alias)),
        TypeItem::Export { name, desc } => {
            if !text_fits(name) {
                return Ok(false);
            }
            Ok(desc.fits())
        }
    }
}

/// What one instance type declares, without instance types in it.
fn are_declared(alloc: Global, items: &[TypeItem]) -> Result<bool, NoMemory>
    ensures { IfOk result (λ fit. IsTrue fit → AllByRecursion IsDeclared items.now) }
{
    let mut rest = items;
    while let Some((first, more)) = rest.split_first() {
        if !is_declared(alloc, first)? {
            return Ok(false);
        }
        rest = more;
    }
    Ok(true)
}

/// How many declarations the instance type has that an item defines.
#[tactic(auto, using(crate::proofs::TypeFits::counted))]
fn declarations_of(item: &TypeItem) -> Option<u32>
    ensures { IfSome result (λ count. item.now ≡ Define (Instance count)) }
{
    match item {
        TypeItem::Define(kept) => kept.declarations(),
        TypeItem::Alias(_) | TypeItem::Export { .. } => None,
    }
}

/// An instance type of that many declarations, and those.
#[tactic(auto, using(crate::proofs::TypeFits::instance_law))]
fn instance_fits(
    alloc: Global,
    items: &[TypeItem],
    first: &TypeItem,
    rest: &[TypeItem],
    count: u32,
) -> Result<bool, NoMemory>
    requires items { items.now ≡ first.now ∷ rest.now }
    requires first { first.now ≡ Define (Instance count) }
    ensures { IfOk result (λ fit. IsTrue fit → type_items.Fits items.now) }
{
    if count as usize != rest.len() {
        return Ok(false);
    }
    if !number_fits(count) {
        return Ok(false);
    }
    let fit = are_declared(alloc, rest)?;
    Ok(fit)
}

#[tactic(auto, using(crate::proofs::TypeFits::definitions_law))]
fn definitions_fit(alloc: Global, items: &[TypeItem]) -> Result<bool, NoMemory>
    ensures { IfOk result (λ fit. IsTrue fit → type_items.Fits items.now) }
{
    if items.len() > MOST {
        return Ok(false);
    }
    let fit = are_defined(alloc, items)?;
    Ok(fit)
}

/// True only where the items of a section of types may be written: they are definitions, or one instance type with what it declares.
pub fn types_fit(alloc: Global, items: &[TypeItem]) -> Result<bool, NoMemory>
    ensures { IfOk result (λ fit. IsTrue fit → type_items.Fits items.now) }
{
    match items.split_first() {
        None => Ok(false),
        Some((first, rest)) => match declarations_of(first) {
            Some(count) => instance_fits(alloc, items, first, rest, count),
            None => definitions_fit(alloc, items),
        },
    }
}
