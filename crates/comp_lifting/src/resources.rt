//! The canonical functions `resource.new`, `resource.rep` and `resource.drop`: the rules that are asked of them, and what they add
//! (Component Model, Binary.md, "Canonical Definitions").

ghost use Rattle.std.specs.Prelude.{◌≡◌, List, IfOk, true};
ghost use Rattle.wasm_ast.specs.declared.component.Canon.TheVariants.{ResourceDrop, ResourceNew, ResourceRep};
ghost use Rattle.comp_types.specs.Definitions.{ACanon};
ghost use Rattle.comp_types.specs.Faults.{fault};
ghost use Rattle.comp_types.specs.Rules.{canon_stands, if_there, is_defined_here, is_resource, lengths_of};
ghost use Rattle.comp_types.specs.Spaces.{Space, kind_at};
ghost use Rattle.comp_types.specs.Views.{kind_of};
ghost use Rattle.comp_scopes.specs.Judged.{Judged};
ghost use Rattle.comp_scopes.specs.Stands.{Stands};

use crate::core_types::{add_core_func, takes_and_gives, takes_one};
use comp_scopes::Scope;
use comp_types::TypeItem;
use std::alloc::Global;
use virt_base::NoMemory;

fn is_resource(kind: &TypeItem) -> bool
    ensures { result ≡ is_resource (kind_of kind.now) }
{
    match kind {
        TypeItem::Resource(_) => true,
        TypeItem::Value(_) => false,
        TypeItem::Func(_) => false,
        TypeItem::Instance(_) => false,
    }
}

/// Whether the type at an index, if it is there, is a resource.
fn is_resource_at(scope: &Scope, index: u32) -> bool
    ensures { (s : Space) → Stands s scope.now → result ≡ if_there is_resource (kind_at s index) }
{
    match scope.kind_at(index) {
        None => true,
        Some(kind) => is_resource(kind),
    }
}

fn is_defined_here(scope: &Scope, kind: &TypeItem) -> bool
    ensures { (s : Space) → Stands s scope.now → result ≡ is_defined_here s (kind_of kind.now) }
{
    match kind {
        TypeItem::Resource(number) => scope.defined.has(*number),
        TypeItem::Value(_) => true,
        TypeItem::Func(_) => true,
        TypeItem::Instance(_) => true,
    }
}

/// Whether the type at an index is no resource of another component.
fn is_own_at(scope: &Scope, index: u32) -> bool
    ensures { (s : Space) → Stands s scope.now → result ≡ if_there (is_defined_here s) (kind_at s index) }
{
    match scope.kind_at(index) {
        None => true,
        Some(kind) => is_defined_here(scope, kind),
    }
}

/// The least rule that `resource.new` and `resource.rep` break, whose index stands.
fn own_fault(scope: &Scope, ty: u32) -> Option<u32>
    ensures new { (around : List Space) → (s : Space) → Stands s scope.now → canon_stands (lengths_of s) (ResourceNew ty) ≡ true → result ≡ fault around s (ACanon (ResourceNew ty)) }
    ensures rep { (around : List Space) → (s : Space) → Stands s scope.now → canon_stands (lengths_of s) (ResourceRep ty) ≡ true → result ≡ fault around s (ACanon (ResourceRep ty)) }
{
    if !is_resource_at(scope, ty) {
        return Some(12);
    }
    if !is_own_at(scope, ty) {
        return Some(18);
    }
    None
}

/// `resource.new` or `resource.rep` whose index stands: the least rule that it breaks, or else it is added.
pub fn define_own(alloc: Global, scope: &mut Scope, ty: u32) -> Result<Option<u32>, NoMemory>
    ensures new { IfOk result (λ rule. (around : List Space) → (s : Space) → Stands s scope.old → canon_stands (lengths_of s) (ResourceNew ty) ≡ true → Judged around s (ACanon (ResourceNew ty)) scope.new rule) }
    ensures rep { IfOk result (λ rule. (around : List Space) → (s : Space) → Stands s scope.old → canon_stands (lengths_of s) (ResourceRep ty) ≡ true → Judged around s (ACanon (ResourceRep ty)) scope.new rule) }
{
    match own_fault(scope, ty) {
        Some(rule) => Ok(Some(rule)),
        None => {
            let func = takes_and_gives(alloc)?;
            add_core_func(alloc, scope, func)?;
            Ok(None)
        }
    }
}

/// The least rule that `resource.drop` breaks, whose index stands.
fn drop_fault(scope: &Scope, ty: u32) -> Option<u32>
    ensures { (around : List Space) → (s : Space) → Stands s scope.now → canon_stands (lengths_of s) (ResourceDrop ty) ≡ true → result ≡ fault around s (ACanon (ResourceDrop ty)) }
{
    if is_resource_at(scope, ty) {
        None
    } else {
        Some(12)
    }
}

/// `resource.drop` whose index stands: the least rule that it breaks, or else it is added.
pub fn define_drop(alloc: Global, scope: &mut Scope, ty: u32) -> Result<Option<u32>, NoMemory>
    ensures { IfOk result (λ rule. (around : List Space) → (s : Space) → Stands s scope.old → canon_stands (lengths_of s) (ResourceDrop ty) ≡ true → Judged around s (ACanon (ResourceDrop ty)) scope.new rule) }
{
    match drop_fault(scope, ty) {
        Some(rule) => Ok(Some(rule)),
        None => {
            let func = takes_one(alloc)?;
            add_core_func(alloc, scope, func)?;
            Ok(None)
        }
    }
}
