//! What an outer alias plans: the number of a module or a component further out comes into the draft, and a type only into the scope.

#![tactic(auto, using(crate::proofs::NameLemmas::behind))]

ghost use Rattle.std.specs.Prelude.{◌≡◌, ◌++◌, OnOk, option_to_list};
ghost use Rattle.wasm_ast.specs.declared.component.Alias.TheVariants.{Outer};
ghost use Rattle.wasm_ast.specs.declared.component.OuterSort.TheVariants as outer_sorts;
ghost use Rattle.comp_types.specs.Definitions.{AnAlias};
ghost use Rattle.comp_linking.specs.Goes.{Plans};
ghost use Rattle.comp_linking.specs.Names.{NumbersComponent, NumbersModule};

use crate::planner::Planner;
use comp_defining::define_outer_alias;
use std::alloc::Global;
use virt_base::NoMemory;
use wasm_ast::OuterSort;

/// The number of the module at an index of a component further out.
fn module_at(planner: &Planner, count: u32, index: u32) -> Option<u32>
    ensures { NumbersModule planner.now count index result }
{
    let Some(draft) = planner.draft_at(count) else {
        return None;
    };
    match draft.module_at(index) {
        None => None,
        Some(number) => Some(*number),
    }
}

/// The number of the component at an index of a component further out.
fn component_at(planner: &Planner, count: u32, index: u32) -> Option<u32>
    ensures { NumbersComponent planner.now count index result }
{
    let Some(draft) = planner.draft_at(count) else {
        return None;
    };
    match draft.component_at(index) {
        None => None,
        Some(number) => Some(*number),
    }
}

/// Adds a number, if there is one.
fn push_some(numbers: &mut Vec<u32>, number: Option<u32>) -> Result<(), NoMemory>
    ensures { OnOk result (numbers.new.items ≡ numbers.old.items ++ option_to_list number) }
{
    match number {
        None => Ok(()),
        Some(number) => {
            numbers.push(number)?;
            Ok(())
        }
    }
}

/// An outer alias of a module.
fn plan_outer_module(
    alloc: Global,
    planner: &mut Planner,
    count: u32,
    index: u32,
) -> Result<(), NoMemory>
    ensures { OnOk result (Plans (AnAlias (Outer outer_sorts.CoreModule count index)) planner.old planner.new) }
{
    let number = module_at(planner, count, index);
    define_outer_alias(
        alloc,
        &mut planner.scopes,
        OuterSort::CoreModule,
        count,
        index,
    )?;
    push_some(&mut planner.inner.modules, number)?;
    Ok(())
}

/// An outer alias of a component.
fn plan_outer_component(
    alloc: Global,
    planner: &mut Planner,
    count: u32,
    index: u32,
) -> Result<(), NoMemory>
    ensures { OnOk result (Plans (AnAlias (Outer outer_sorts.Component count index)) planner.old planner.new) }
{
    let number = component_at(planner, count, index);
    define_outer_alias(
        alloc,
        &mut planner.scopes,
        OuterSort::Component,
        count,
        index,
    )?;
    push_some(&mut planner.inner.components, number)?;
    Ok(())
}

/// An outer alias of a type, which nothing is planned for.
fn plan_outer_type(
    alloc: Global,
    planner: &mut Planner,
    count: u32,
    index: u32,
) -> Result<(), NoMemory>
    ensures { OnOk result (Plans (AnAlias (Outer outer_sorts.Type count index)) planner.old planner.new) }
{
    define_outer_alias(alloc, &mut planner.scopes, OuterSort::Type, count, index)?;
    Ok(())
}

/// An outer alias.
pub fn plan_outer_alias(
    alloc: Global,
    planner: &mut Planner,
    sort: OuterSort,
    count: u32,
    index: u32,
) -> Result<(), NoMemory>
    ensures { OnOk result (Plans (AnAlias (Outer sort count index)) planner.old planner.new) }
{
    match sort {
        OuterSort::CoreModule => plan_outer_module(alloc, planner, count, index),
        OuterSort::Component => plan_outer_component(alloc, planner, count, index),
        OuterSort::Type => plan_outer_type(alloc, planner, count, index),
    }
}
