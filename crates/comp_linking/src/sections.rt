//! The walk over the sections of a component and, by recursion, of those in it.

ghost use Rattle.std.specs.Prelude.{OnOk};
ghost use Rattle.wasm_ast.specs.declared.component.Span.{Span};
ghost use Rattle.comp_grammar.specs.Trees.{Nested, plain, plain_section, plain_sections};
ghost use Rattle.comp_linking.specs.Goes.{PlansPart, PlansTree};

use crate::definitions::plan_all;
use crate::nested::{enter, leave, plan_module};
use crate::planner::Planner;
use crate::types::plan_types;
use std::alloc::Global;
use virt_base::NoMemory;
use wasm_ast::{Component, Section};

/// A component in the component.
#[cycle(plan_sections)]
fn plan_nested(alloc: Global, planner: &mut Planner, component: &Component) -> Result<(), NoMemory>
    ensures { OnOk result ((span : Span) → PlansPart (Nested span (plain component.now)) planner.old planner.new) }
{
    enter(alloc, planner)?;
    plan_sections(alloc, planner, component.sections.as_slice())?;
    leave(alloc, planner)
}

/// A section.
#[cycle(plan_sections)]
fn plan_section(alloc: Global, planner: &mut Planner, section: &Section) -> Result<(), NoMemory>
    ensures { OnOk result (PlansPart (plain_section section.now) planner.old planner.new) }
{
    match section {
        Section::CoreModule(_, module) => plan_module(alloc, planner, module),
        Section::Nested(_, component) => plan_nested(alloc, planner, component),
        Section::CoreInstances(items) => plan_all(alloc, planner, items.as_slice()),
        Section::Instances(items) => plan_all(alloc, planner, items.as_slice()),
        Section::Aliases(items) => plan_all(alloc, planner, items.as_slice()),
        Section::Types(items) => plan_types(alloc, planner, items.as_slice()),
        Section::Canons(items) => plan_all(alloc, planner, items.as_slice()),
        Section::Imports(items) => plan_all(alloc, planner, items.as_slice()),
        Section::Exports(items) => plan_all(alloc, planner, items.as_slice()),
        Section::Custom(_) => Ok(()),
    }
}

/// The sections of a component in order.
#[cycle(plan_sections)]
pub fn plan_sections(
    alloc: Global,
    planner: &mut Planner,
    sections: &[Section],
) -> Result<(), NoMemory>
    ensures { OnOk result (PlansTree (plain_sections sections.now) planner.old planner.new) }
{
    for section in sections {
        plan_section(alloc, planner, section)?;
    }
    Ok(())
}
