//! What a canonical definition plans (Component Model, Binary.md, "Canonical Definitions").

ghost use Rattle.std.specs.Prelude.{◌≡◌, List, IfOk};
ghost use Rattle.wasm_ast.specs.Boxed.{Held};
ghost use Rattle.wasm_ast.specs.declared.component.Canon.TheVariants.{Lift, Lower};
ghost use Rattle.wasm_ast.specs.declared.module.Module.{Module};
ghost use Rattle.comp_link.specs.Plans.{of_canon};
ghost use Rattle.comp_link.specs.Planned.{PlannedComponent, plan_item};
ghost use Rattle.comp_types.specs.Spaces.{Space};
ghost use Rattle.comp_scopes.specs.Stands.{Stands};
ghost use Rattle.comp_linking.specs.Drafts.{some_item};

use crate::resource_at;
use comp_lifting::lowered_at;
use comp_link::PlanItem;
use comp_scopes::{Scope, func_at};
use std::alloc::Global;
use virt_base::{Items, NoMemory};
use wasm_ast::{Canon, CanonOption};

fn copy_options(alloc: Global, options: &[CanonOption]) -> Result<Items<CanonOption>, NoMemory>
    ensures { IfOk result (λ copy. copy ≡ options.now) }
{
    Ok(Items::new(Vec::from_slice(alloc, options)?))
}

fn lift_item(
    alloc: Global,
    scope: &Scope,
    func: u32,
    options: &[CanonOption],
    ty: u32,
) -> Result<PlanItem, NoMemory>
    ensures { IfOk result (λ item. (ms : List (Held Module)) (cs : List PlannedComponent) (s : Space) → Stands s scope.now → plan_item ms cs item ≡ of_canon s (Lift func options.now ty)) }
{
    let options = copy_options(alloc, options)?;
    let ty = func_at(alloc, scope, ty)?;
    Ok(PlanItem::Lifts { func, options, ty })
}

fn lower_item(
    alloc: Global,
    scope: &Scope,
    func: u32,
    options: &[CanonOption],
) -> Result<PlanItem, NoMemory>
    ensures { IfOk result (λ item. (ms : List (Held Module)) (cs : List PlannedComponent) (s : Space) → Stands s scope.now → plan_item ms cs item ≡ of_canon s (Lower func options.now)) }
{
    let options = copy_options(alloc, options)?;
    let ty = lowered_at(alloc, scope, func)?;
    Ok(PlanItem::Lowers { func, options, ty })
}

/// What a canonical function plans.
pub fn canon_item(alloc: Global, scope: &Scope, canon: &Canon) -> Result<Option<PlanItem>, NoMemory>
    ensures { IfOk result (λ item. (ms : List (Held Module)) (cs : List PlannedComponent) (s : Space) → Stands s scope.now → some_item ms cs item ≡ of_canon s canon.now) }
{
    match canon {
        Canon::Lift { func, options, ty } => {
            let item = lift_item(alloc, scope, *func, options.as_slice(), *ty)?;
            Ok(Some(item))
        }
        Canon::Lower { func, options } => {
            let item = lower_item(alloc, scope, *func, options.as_slice())?;
            Ok(Some(item))
        }
        Canon::ResourceNew(ty) => match resource_at(scope, *ty) {
            None => Ok(None),
            Some(resource) => Ok(Some(PlanItem::MakesResource(resource))),
        },
        Canon::ResourceDrop(ty) => match resource_at(scope, *ty) {
            None => Ok(None),
            Some(resource) => Ok(Some(PlanItem::DropsResource(resource))),
        },
        Canon::ResourceRep(ty) => match resource_at(scope, *ty) {
            None => Ok(None),
            Some(resource) => Ok(Some(PlanItem::ReadsResource(resource))),
        },
    }
}
