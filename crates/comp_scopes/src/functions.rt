//! The function type at an index, and what is kept of it. For what is none stands one without parameters and results, since another rule
//! is at fault then.

ghost use Rattle.std.specs.Prelude.{◌≡◌, IfOk, Some};
ghost use Rattle.comp_types.specs.Views.{kind_of};
ghost use Rattle.comp_facts.specs.Facts.{IsFuncFactsOf};
ghost use Rattle.comp_types.specs.Spaces.{Space, kind_at};
ghost use Rattle.comp_types.specs.Types.{func_in, no_func};
ghost use Rattle.comp_scopes.specs.Stands.{Stands};

use crate::Scope;
use comp_facts::{FuncFacts, PartFacts};
use comp_types::{KnownFunc, TypeItem};
use std::alloc::Global;
use std::rc::Rc;
use virt_base::{Items, NoMemory};
use wit_types::{Fields, FuncType};

/// What is kept of a function without parameters and results.
pub fn facts_of_none() -> FuncFacts
    ensures { IsFuncFactsOf no_func result }
{
    FuncFacts {
        params: PartFacts::none(),
        answer: None,
    }
}

fn facts_of(kind: &TypeItem) -> FuncFacts
    ensures { IsFuncFactsOf (func_in (Some (kind_of kind.now))) result }
{
    match kind {
        TypeItem::Resource(_) => facts_of_none(),
        TypeItem::Value(_) => facts_of_none(),
        TypeItem::Func(ty) => *ty.facts(),
        TypeItem::Instance(_) => facts_of_none(),
    }
}

/// What is kept of the function type at an index; one without parameters and results stands for what is none.
pub fn facts_at(scope: &Scope, index: u32) -> FuncFacts
    ensures { (s : Space) → Stands s scope.now → IsFuncFactsOf (func_in (kind_at s index)) result }
{
    match scope.kind_at(index) {
        None => facts_of_none(),
        Some(kind) => facts_of(kind),
    }
}

/// The type of a function without parameters and results.
pub fn no_func(alloc: Global) -> Result<Rc<KnownFunc>, NoMemory>
    ensures { IfOk result (λ f. f.value ≡ no_func) }
{
    let params = Fields {
        items: Vec::new(alloc),
    };
    let ty = FuncType {
        params,
        result: None,
    };
    match Rc::new(
        alloc,
        KnownFunc::new(ty, facts_of_none(), Items::empty(alloc)),
    ) {
        Ok(known) => Ok(known),
        Err(_) => Err(NoMemory),
    }
}

fn func_of(alloc: Global, kind: &TypeItem) -> Result<Rc<KnownFunc>, NoMemory>
    ensures { IfOk result (λ f. f.value ≡ func_in (Some (kind_of kind.now))) }
{
    match kind {
        TypeItem::Resource(_) => no_func(alloc),
        TypeItem::Value(_) => no_func(alloc),
        TypeItem::Func(ty) => Ok(ty.clone()?),
        TypeItem::Instance(_) => no_func(alloc),
    }
}

/// The function type at an index; one without parameters and results stands for what is none.
pub fn func_at(alloc: Global, scope: &Scope, index: u32) -> Result<Rc<KnownFunc>, NoMemory>
    ensures { IfOk result (λ f. (s : Space) → Stands s scope.now → f.value ≡ func_in (kind_at s index)) }
{
    match scope.kind_at(index) {
        None => no_func(alloc),
        Some(kind) => func_of(alloc, kind),
    }
}
