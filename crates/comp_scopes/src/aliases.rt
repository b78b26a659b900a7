//! Aliases of what core instances export (Component Model, Binary.md, "Alias Definitions").

ghost use Rattle.std.specs.Prelude.{◌≡◌, List, IfOk, OnOk, slice_get};
ghost use Rattle.std.specs.Option.{option_and_then};
ghost use Rattle.wasm_ast.specs.declared.component.Alias.TheVariants.{CoreExport};
ghost use Rattle.wasm_ast.specs.declared.component.CoreSort.{CoreSort};
ghost use Rattle.comp_types.specs.Added.{after};
ghost use Rattle.comp_types.specs.CoreMatching.{core_look_up};
ghost use Rattle.comp_types.specs.Definitions.{AnAlias};
ghost use Rattle.comp_types.specs.Faults.{fault};
ghost use Rattle.comp_types.specs.Spaces.{Space};
ghost use Rattle.comp_scopes.specs.Scopes.{IsCoreOf};

use crate::core_scope::CoreScope;
use crate::items::SharedItem;
use virt_base::{NoMemory, Text};
use wasm_ast::CoreSort;

/// The least rule that an alias of a core export breaks.
pub fn core_alias_fault(
    scope: &CoreScope,
    sort: CoreSort,
    instance: u32,
    name: &Text,
) -> Option<u32>
    ensures { (around : List Space) → (s : Space) → IsCoreOf s scope.now → result ≡ fault around s (AnAlias (CoreExport sort instance name.now)) }
{
    let Some(exports) = scope.instance_at(instance) else {
        return Some(3);
    };
    match exports.get().get(name) {
        None => Some(7),
        Some(item) => { if item.is_of_sort(sort) { None } else { Some(7) } }
    }
}

/// The item that an instance exports by a name.
fn exported(scope: &CoreScope, instance: u32, name: &Text) -> Result<Option<SharedItem>, NoMemory>
    ensures { IfOk result (λ item. (s : Space) → IsCoreOf s scope.now → item ≡ option_and_then (core_look_up name.now) (slice_get s.core_instances instance)) }
{
    let Some(exports) = scope.instance_at(instance) else {
        return Ok(None);
    };
    match exports.get().get(name) {
        None => Ok(None),
        Some(item) => Ok(Some(item.share()?)),
    }
}

/// Adds an alias of a core export, if it is there.
pub fn add_core_alias(scope: &mut CoreScope, instance: u32, name: &Text) -> Result<(), NoMemory>
    ensures { OnOk result ((around : List Space) → (s : Space) → (sort : CoreSort) → IsCoreOf s scope.old → IsCoreOf (after around s (AnAlias (CoreExport sort instance name.now))) scope.new) }
{
    match exported(scope, instance, name)? {
        None => Ok(()),
        Some(item) => scope.add_item(item),
    }
}
