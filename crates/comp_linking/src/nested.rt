//! Components and modules in a component: the walk enters a nested component and leaves it, and its plan is kept; a module gets the next
//! number.

ghost use Rattle.std.specs.Prelude.{◌∷◌, List, OnOk};
ghost use Rattle.wasm_ast.specs.Boxed.{Held};
ghost use Rattle.wasm_ast.specs.declared.component.Span.{Span};
ghost use Rattle.wasm_ast.specs.declared.module.Module.{Module};
ghost use Rattle.comp_grammar.specs.Trees.{CoreModule};
ghost use Rattle.comp_linking.specs.Goes.{PlansPart};
ghost use Rattle.comp_linking.specs.Walks.{At, Leaves, Walks, at_entered, at_nested};

use crate::Draft;
use crate::planner::Planner;
use comp_instances::own_resources;
use comp_link::ComponentPlan;
use comp_validate::{close_nested, define_module};
use std::alloc::Global;
use std::mem;
use virt_base::{Items, NoMemory};

/// Begins a component in the component.
pub fn enter(alloc: Global, planner: &mut Planner) -> Result<(), NoMemory>
    ensures { OnOk result ((ms todo : List (Held Module)) (outer : List At) (a : At) → Walks ms todo outer a planner.old → Walks ms todo (a ∷ outer) (at_entered a) planner.new) }
{
    planner.scopes.enter(alloc)?;
    let inner = Draft::new(alloc);
    let draft = mem::replace(&mut planner.inner, inner);
    planner.outer.push(draft)?;
    Ok(())
}

/// Adds the plan of the component that was walked over, whose own resources these are: it can be named in the one around it.
fn keep_plan(planner: &mut Planner, own: Items<u32>) -> Result<(), NoMemory>
    ensures { OnOk result ((ms todo : List (Held Module)) (outer : List At) (t a : At) → Leaves ms todo outer t a own planner.old → Walks ms todo outer (at_nested t a) planner.new) }
{
    let Some(draft) = planner.outer.pop() else {
        return Ok(());
    };
    let Ok(number) = u32::try_from(planner.components.len()) else {
        return Err(NoMemory);
    };
    let ended = mem::replace(&mut planner.inner, draft);
    let items = Items::new(ended.items);
    planner.components.push(ComponentPlan { items, own })?;
    planner.inner.components.push(number)?;
    Ok(())
}

/// Ends a component in a component.
pub fn leave(alloc: Global, planner: &mut Planner) -> Result<(), NoMemory>
    ensures { OnOk result ((ms todo : List (Held Module)) (outer : List At) (t a : At) → Walks ms todo (t ∷ outer) a planner.old → Walks ms todo outer (at_nested t a) planner.new) }
{
    let exports = planner.scopes.inner.exports.entries();
    let own = own_resources(
        alloc,
        &planner.scopes.types,
        exports,
        &planner.scopes.inner.imported,
    )?;
    close_nested(alloc, &mut planner.scopes)?;
    keep_plan(planner, own)
}

/// A module: it has the next number.
pub fn plan_module(
    alloc: Global,
    planner: &mut Planner,
    core: &wasm_ast::Module,
) -> Result<(), NoMemory>
    ensures { OnOk result ((span : Span) → PlansPart (CoreModule span core.now) planner.old planner.new) }
{
    define_module(alloc, &mut planner.scopes, core)?;
    let Some(count) = planner.count.checked_add(1) else {
        return Err(NoMemory);
    };
    planner.inner.modules.push(planner.count)?;
    planner.count = count;
    Ok(())
}
