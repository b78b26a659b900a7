//! Outer aliases by where they stand: in a component, or among the declarations of an instance type, where they name types alone.

ghost use Rattle.std.specs.Prelude.{List, IfOk};
ghost use Rattle.wasm_ast.specs.declared.component.Alias.TheVariants.{Outer as OuterAlias};
ghost use Rattle.wasm_ast.specs.declared.component.TypeAlias.TheVariants.{Outer as OuterType};
ghost use Rattle.comp_types.specs.Declarations.{ATypeAlias};
ghost use Rattle.comp_types.specs.Definitions.{AType, AnAlias};
ghost use Rattle.comp_types.specs.Spaces.{Space};
ghost use Rattle.comp_defining.specs.Around.{StandAll};
ghost use Rattle.comp_defining.specs.Judged.{JudgedIn};
ghost use Rattle.comp_defining.specs.Outer.{IsOuter};

use crate::Scopes;
use crate::outer::{outer_component, outer_module, outer_type};
use std::alloc::Global;
use virt_base::NoMemory;
use wasm_ast::OuterSort;

fn outer_item(
    alloc: Global,
    scopes: &mut Scopes,
    sort: OuterSort,
    count: u32,
    index: u32,
) -> Result<Option<u32>, NoMemory>
    ensures { IfOk result (λ rule. (around : List Space) → (s : Space) → StandAll around s scopes.old → IsOuter around s sort count index scopes.new rule) }
{
    match sort {
        OuterSort::CoreModule => outer_module(scopes, count, index),
        OuterSort::Type => outer_type(alloc, scopes, count, index),
        OuterSort::Component => outer_component(scopes, count, index),
    }
}

/// An outer alias in a component: the least rule that it breaks, or else it is added.
pub fn define_outer_alias(
    alloc: Global,
    scopes: &mut Scopes,
    sort: OuterSort,
    count: u32,
    index: u32,
) -> Result<Option<u32>, NoMemory>
    ensures { IfOk result (λ rule. (around : List Space) → (s : Space) → StandAll around s scopes.old → JudgedIn around s (AnAlias (OuterAlias sort count index)) scopes.new rule) }
{
    outer_item(alloc, scopes, sort, count, index)
}

/// An outer alias of a type in an instance type: the least rule that it breaks, or else it is added.
pub fn define_outer_type(
    alloc: Global,
    scopes: &mut Scopes,
    count: u32,
    index: u32,
) -> Result<Option<u32>, NoMemory>
    ensures { IfOk result (λ rule. (around : List Space) → (s : Space) → StandAll around s scopes.old → JudgedIn around s (AType (ATypeAlias (OuterType count index))) scopes.new rule) }
{
    outer_type(alloc, scopes, count, index)
}
