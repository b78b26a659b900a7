//! Outer aliases of types, modules and components: the rules that are asked of them, and what they add to the innermost scope (Component
//! Model, Binary.md, "Alias Definitions").

ghost use Rattle.std.specs.Prelude.{◌≡◌, ◌∷◌, List, IfOk, OnOk, slice_get};
ghost use Rattle.std.specs.Option.{option_and_then};
ghost use Rattle.wasm_ast.specs.declared.component.Alias.TheVariants.{Outer};
ghost use Rattle.wasm_ast.specs.declared.component.OuterSort.TheVariants as outer_sorts;
ghost use Rattle.comp_types.specs.Added.{and_outer};
ghost use Rattle.comp_types.specs.Definitions.{AnAlias};
ghost use Rattle.comp_types.specs.Faults.{fault};
ghost use Rattle.comp_types.specs.Spaces.{Space};
ghost use Rattle.comp_scopes.specs.Found.{EachSome, IsKnownModule};
ghost use Rattle.comp_scopes.specs.Stands.{IsEntry, IsNested};
ghost use Rattle.comp_defining.specs.Around.{StandAll};
ghost use Rattle.comp_defining.specs.Outer.{IsOuter};

use crate::Scopes;
use comp_scopes::{KnownComponent, KnownEntry, KnownModule, Shared};
use std::alloc::Global;
use type_relations::names_none;
use virt_base::NoMemory;

fn type_fault(
    alloc: Global,
    scopes: &Scopes,
    count: u32,
    index: u32,
) -> Result<Option<u32>, NoMemory>
    ensures { IfOk result (λ rule. (around : List Space) → (s : Space) → StandAll around s scopes.now → rule ≡ fault around s (AnAlias (Outer outer_sorts.Type count index))) }
{
    let Some(scope) = scopes.scope_at(count) else {
        return Ok(Some(8));
    };
    let Some(entry) = scope.entry_at(index) else {
        return Ok(Some(3));
    };
    if !scopes.leaves(count) {
        return Ok(None);
    }
    let none = names_none(alloc, &scopes.types, &entry.kind)?;
    if none { Ok(None) } else { Ok(Some(8)) }
}

fn type_at(scopes: &Scopes, count: u32, index: u32) -> Result<Option<KnownEntry>, NoMemory>
    ensures { IfOk result (λ entry. (around : List Space) → (s : Space) → StandAll around s scopes.now → EachSome IsEntry (option_and_then (λ (t : Space). slice_get t.types index) (slice_get (s ∷ around) count)) entry) }
{
    let Some(scope) = scopes.scope_at(count) else {
        return Ok(None);
    };
    let Some(entry) = scope.entry_at(index) else {
        return Ok(None);
    };
    let kind = entry.kind.copy()?;
    Ok(Some(KnownEntry {
        kind,
        depth: entry.depth,
    }))
}

fn add_type(scopes: &mut Scopes, count: u32, index: u32) -> Result<(), NoMemory>
    ensures { OnOk result ((around : List Space) → (s : Space) → StandAll around s scopes.old → StandAll around (and_outer s outer_sorts.Type (slice_get (s ∷ around) count) index) scopes.new) }
{
    match type_at(scopes, count, index)? {
        None => Ok(()),
        Some(entry) => scopes.inner.add_entry(entry),
    }
}

/// An outer alias of a type.
pub fn outer_type(
    alloc: Global,
    scopes: &mut Scopes,
    count: u32,
    index: u32,
) -> Result<Option<u32>, NoMemory>
    ensures { IfOk result (λ rule. (around : List Space) → (s : Space) → StandAll around s scopes.old → IsOuter around s outer_sorts.Type count index scopes.new rule) }
{
    match type_fault(alloc, scopes, count, index)? {
        Some(rule) => Ok(Some(rule)),
        None => {
            add_type(scopes, count, index)?;
            Ok(None)
        }
    }
}

fn module_fault(scopes: &Scopes, count: u32, index: u32) -> Option<u32>
    ensures { (around : List Space) → (s : Space) → StandAll around s scopes.now → result ≡ fault around s (AnAlias (Outer outer_sorts.CoreModule count index)) }
{
    let Some(scope) = scopes.scope_at(count) else {
        return Some(8);
    };
    match scope.core.module_at(index) {
        None => Some(3),
        Some(_) => None,
    }
}

fn module_at(
    scopes: &Scopes,
    count: u32,
    index: u32,
) -> Result<Option<Shared<KnownModule>>, NoMemory>
    ensures { IfOk result (λ known. (around : List Space) → (s : Space) → StandAll around s scopes.now → EachSome IsKnownModule (option_and_then (λ (t : Space). slice_get t.core_modules index) (slice_get (s ∷ around) count)) known) }
{
    let Some(scope) = scopes.scope_at(count) else {
        return Ok(None);
    };
    match scope.core.module_at(index) {
        None => Ok(None),
        Some(known) => Ok(Some(known.share()?)),
    }
}

fn add_module(scopes: &mut Scopes, count: u32, index: u32) -> Result<(), NoMemory>
    ensures { OnOk result ((around : List Space) → (s : Space) → StandAll around s scopes.old → StandAll around (and_outer s outer_sorts.CoreModule (slice_get (s ∷ around) count) index) scopes.new) }
{
    match module_at(scopes, count, index)? {
        None => Ok(()),
        Some(known) => scopes.inner.add_module(known),
    }
}

/// An outer alias of a module.
pub fn outer_module(scopes: &mut Scopes, count: u32, index: u32) -> Result<Option<u32>, NoMemory>
    ensures { IfOk result (λ rule. (around : List Space) → (s : Space) → StandAll around s scopes.old → IsOuter around s outer_sorts.CoreModule count index scopes.new rule) }
{
    match module_fault(scopes, count, index) {
        Some(rule) => Ok(Some(rule)),
        None => {
            add_module(scopes, count, index)?;
            Ok(None)
        }
    }
}

fn component_fault(scopes: &Scopes, count: u32, index: u32) -> Option<u32>
    ensures { (around : List Space) → (s : Space) → StandAll around s scopes.now → result ≡ fault around s (AnAlias (Outer outer_sorts.Component count index)) }
{
    let Some(scope) = scopes.scope_at(count) else {
        return Some(8);
    };
    match scope.component_at(index) {
        None => Some(3),
        Some(_) => None,
    }
}

fn component_at(
    scopes: &Scopes,
    count: u32,
    index: u32,
) -> Result<Option<Shared<KnownComponent>>, NoMemory>
    ensures { IfOk result (λ known. (around : List Space) → (s : Space) → StandAll around s scopes.now → EachSome IsNested (option_and_then (λ (t : Space). slice_get t.components index) (slice_get (s ∷ around) count)) known) }
{
    let Some(scope) = scopes.scope_at(count) else {
        return Ok(None);
    };
    match scope.component_at(index) {
        None => Ok(None),
        Some(known) => Ok(Some(known.share()?)),
    }
}

fn add_component(scopes: &mut Scopes, count: u32, index: u32) -> Result<(), NoMemory>
    ensures { OnOk result ((around : List Space) → (s : Space) → StandAll around s scopes.old → StandAll around (and_outer s outer_sorts.Component (slice_get (s ∷ around) count) index) scopes.new) }
{
    match component_at(scopes, count, index)? {
        None => Ok(()),
        Some(known) => scopes.inner.add_component(known),
    }
}

/// An outer alias of a component.
pub fn outer_component(scopes: &mut Scopes, count: u32, index: u32) -> Result<Option<u32>, NoMemory>
    ensures { IfOk result (λ rule. (around : List Space) → (s : Space) → StandAll around s scopes.old → IsOuter around s outer_sorts.Component count index scopes.new rule) }
{
    match component_fault(scopes, count, index) {
        Some(rule) => Ok(Some(rule)),
        None => {
            add_component(scopes, count, index)?;
            Ok(None)
        }
    }
}
