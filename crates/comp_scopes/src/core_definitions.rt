//! Definitions of core items, judged in a whole scope and added to it. What they do in the core index spaces stands in `instances` and
//! `aliases`.

ghost use Rattle.std.specs.Prelude.{List, IfOk};
ghost use Rattle.wasm_ast.specs.declared.component.Alias.TheVariants.{CoreExport};
ghost use Rattle.comp_types.specs.Definitions.{ACoreInstance, AnAlias};
ghost use Rattle.comp_types.specs.Spaces.{Space};
ghost use Rattle.comp_scopes.specs.Judged.{Judged};
ghost use Rattle.comp_scopes.specs.Stands.{Stands};

use crate::scope::Scope;
use crate::{add_core_alias, add_core_instance, core_alias_fault, core_instance_fault};
use std::alloc::Global;
use virt_base::{NoMemory, Text};
use wasm_ast::{CoreInstance, CoreSort};

/// A core instance: the least rule that it breaks, or else it is added.
pub fn define_core_instance(
    alloc: Global,
    scope: &mut Scope,
    instance: &CoreInstance,
) -> Result<Option<u32>, NoMemory>
    ensures { IfOk result (λ rule. (around : List Space) → (s : Space) → Stands s scope.old → Judged around s (ACoreInstance instance.now) scope.new rule) }
{
    let lengths = scope.lengths();
    match core_instance_fault(alloc, &scope.core, &lengths, instance)? {
        Some(rule) => Ok(Some(rule)),
        None => {
            add_core_instance(alloc, &mut scope.core, instance)?;
            Ok(None)
        }
    }
}

/// An alias of a core export: the least rule that it breaks, or else it is added.
pub fn define_core_alias(
    scope: &mut Scope,
    sort: CoreSort,
    instance: u32,
    name: &Text,
) -> Result<Option<u32>, NoMemory>
    ensures { IfOk result (λ rule. (around : List Space) → (s : Space) → Stands s scope.old → Judged around s (AnAlias (CoreExport sort instance name.now)) scope.new rule) }
{
    match core_alias_fault(&scope.core, sort, instance, name) {
        Some(rule) => Ok(Some(rule)),
        None => {
            add_core_alias(&mut scope.core, instance, name)?;
            Ok(None)
        }
    }
}
