//! What a section of types plans: each definition with its declarations is taken as one, and a resource is planned with its destructor.

ghost use Rattle.std.specs.Prelude.{◌≡◌, ◌≤◌, List, IfOk, OnOk, length};
ghost use Rattle.wasm_ast.specs.Boxed.{Held};
ghost use Rattle.wasm_ast.specs.declared.module.Module.{Module};
ghost use Rattle.comp_linking.specs.Drafts.{some_item};
ghost use Rattle.comp_linking.specs.Firsts.{PlansFirst, declared_by, destructor_in, of_item, taken};
ghost use Rattle.comp_linking.specs.Goes.{PlansAll};
ghost use Rattle.comp_link.specs.Planned.{PlannedComponent};
ghost use Rattle.comp_types.specs.Declarations.{grouped};
ghost use Rattle.comp_types.specs.Definitions.{types_in};
ghost use Rattle.comp_types.specs.Spaces.{Space};
ghost use Rattle.comp_scopes.specs.Stands.{Stands};

use crate::planner::Planner;
use comp_link::PlanItem;
use comp_scopes::Scope;
use comp_validate::define_types;
use std::alloc::Global;
use virt_base::NoMemory;
use wasm_ast::TypeItem;

/// How many declarations stand after an item.
#[tactic(auto, using(crate::proofs::FirstLemmas::declarations_counted))]
fn declared_by(item: &TypeItem) -> u32
    ensures { result ≡ declared_by item.now }
{
    match item {
        TypeItem::Define(def) => def.declarations().unwrap_or(0),
        TypeItem::Alias(_) => 0,
        TypeItem::Export { name: _, desc: _ } => 0,
    }
}

/// How many items the first definition takes, with what it declares.
fn first_length(items: &[TypeItem]) -> Result<usize, NoMemory>
    ensures taken { IfOk result (λ n. n ≡ taken 1 items.now) }
    ensures within { IfOk result (λ n. n ≤ length items.now) }
{
    let mut rest = items;
    let mut due: u64 = 1;
    let mut count: usize = 0;
    while let Some((item, more)) = rest.split_first() {
        if due == 0 {
            return Ok(count);
        }
        let Some(next) = (due - 1).checked_add(declared_by(item) as u64) else {
            return Err(NoMemory);
        };
        due = next;
        count += 1;
        rest = more;
    }
    Ok(count)
}

/// The destructor of a resource; nothing of another type.
#[tactic(auto, using(crate::proofs::FirstLemmas::destructor_told))]
fn destructor_in(item: &TypeItem) -> Option<Option<u32>>
    ensures { result ≡ destructor_in item.now }
{
    match item {
        TypeItem::Define(def) => def.destructor(),
        TypeItem::Alias(_) => None,
        TypeItem::Export { name: _, desc: _ } => None,
    }
}

/// What the first item plans.
fn type_item(scope: &Scope, item: &TypeItem) -> Option<PlanItem>
    ensures { (ms : List (Held Module)) (cs : List PlannedComponent) (s : Space) → Stands s scope.now → some_item ms cs result ≡ of_item s item.now }
{
    match destructor_in(item) {
        None => None,
        Some(destructor) => Some(PlanItem::NewResource {
            resource: scope.next,
            destructor,
        }),
    }
}

/// A definition, which the first item begins.
fn plan_type(
    alloc: Global,
    planner: &mut Planner,
    item: &TypeItem,
    first: &[TypeItem],
) -> Result<(), NoMemory>
    ensures { OnOk result (PlansFirst item.now first.now planner.old planner.new) }
{
    let item = type_item(&planner.scopes.inner, item);
    define_types(alloc, &mut planner.scopes, first)?;
    planner.inner.add(item)?;
    Ok(())
}

/// A section of types.
pub fn plan_types(alloc: Global, planner: &mut Planner, items: &[TypeItem]) -> Result<(), NoMemory>
    ensures { OnOk result (PlansAll (types_in (grouped items.now)) planner.old planner.new) }
{
    let mut rest = items;
    while let Some((item, _)) = rest.split_first() {
        let length = first_length(rest)?;
        let (first, behind) = rest.split_at(length);
        plan_type(alloc, planner, item, first)?;
        rest = behind;
    }
    Ok(())
}
