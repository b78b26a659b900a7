//! Whether imports match a module, which is asked before instantiation (WebAssembly Core 2.0, sections 3.2.8 and 4.5.1).

ghost use Rattle.std.specs.Prelude.{◌≡◌, ◌↔◌, IsTrue, slice_get};
ghost use Rattle.core_store.specs.Eval.{type_of as type_of_function};
ghost use Rattle.core_instance.specs.Matching.{IsOfType, MatchesItem, ImportsMatch};

use crate::external::{Extern, Externs};
use core_store::{Store, StoreFunc, function, functions};
use virt_base::CoreType;
use wasm_ast::{CoreFunc, ImportItem, Module};

fn type_of(function: &StoreFunc) -> &CoreFunc
    ensures { result.now ≡ type_of_function function.now }
{
    match function {
        StoreFunc::Inside { ty, .. } => ty.get(),
        StoreFunc::Outside { ty, .. } => ty.get(),
    }
}

fn same_types(a: &[CoreType], b: &[CoreType]) -> bool
    ensures { IsTrue result ↔ (a.now ≡ b.now) }
{
    *a == *b
}

fn same_func(a: &CoreFunc, b: &CoreFunc) -> bool
    ensures { IsTrue result ↔ (a.now ≡ b.now) }
{
    same_types(a.params.as_slice(), b.params.as_slice())
        && same_types(a.results.as_slice(), b.results.as_slice())
}

// Whether there is a function at a place of the store, and of the type at an index.
fn is_of_type(store: &Store, types: &[CoreFunc], ty: u32, at: u32) -> bool
    ensures { IsTrue result ↔ IsOfType (slice_get types.now ty) (slice_get store.now.functions at) }
{
    match types.get(ty as usize) {
        Some(declared) => {
            at < functions(store) && same_func(declared, type_of(function(store, at)))
        }
        None => false,
    }
}

// Whether an item of the store is of the kind that is imported, and a function of the declared type.
fn matches_item(store: &Store, types: &[CoreFunc], item: ImportItem, given: Extern) -> bool
    ensures { IsTrue result ↔ MatchesItem store.now types.now item given }
{
    match item {
        ImportItem::Func(ty) => match given {
            Extern::Func(at) => is_of_type(store, types, ty, at),
            Extern::Table(_) | Extern::Memory(_) | Extern::Global(_) => false,
        },
        ImportItem::Table(_) => matches!(given, Extern::Table(_)),
        ImportItem::Memory(_) => matches!(given, Extern::Memory(_)),
        ImportItem::Global(_) => matches!(given, Extern::Global(_)),
    }
}

/// Whether imports match a module (WebAssembly Core 2.0, sections 3.2.8 and 4.5.1): as many as the module declares, each of
/// the declared kind, and each function in the store and of the declared type.
#[tactic(auto, using(crate::proofs::DecideLemmas::other_count))]
pub fn imports_match(store: &Store, core: &Module, imports: &Externs) -> bool
    ensures { IsTrue result ↔ ImportsMatch store.now core.now imports.now }
{
    let wanted = core.imports.as_slice();
    let given = imports.as_slice();
    if wanted.len() != given.len() {
        return false;
    }
    let types = core.types.as_slice();
    for i in 0..wanted.len() {
        if !matches_item(store, types, wanted[i].item, given[i]) {
            return false;
        }
    }
    true
}
