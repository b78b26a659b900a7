//! A component in the component, when all its sections are judged: what is kept of its scope becomes an item of the next scope.

ghost use Rattle.std.specs.Prelude.{IfOk, OnOk};
ghost use Rattle.comp_types.specs.Added.{and_nested, nested_of};
ghost use Rattle.comp_types.specs.Spaces.{Space};
ghost use Rattle.comp_scopes.specs.Stands.{IsNested, Stands};
ghost use Rattle.type_table.specs.Covers.{Covers};

use comp_instances::own_resources;
use comp_scopes::{KnownComponent, Scope, Shared};
use std::alloc::Global;
use type_table::TypeTable;
use virt_base::NoMemory;

/// What is kept of a component, by its scope.
fn known_component(
    alloc: Global,
    types: &TypeTable,
    inner: Scope,
) -> Result<KnownComponent, NoMemory>
    ensures { IfOk result (λ known. (s : Space) → Stands s inner → Covers types.now s → IsNested (nested_of s) known) }
{
    let Scope {
        imports,
        exports,
        imported,
        ..
    } = inner;
    let exports = exports.into_entries();
    let own = own_resources(alloc, types, &exports, &imported)?;
    let imports = imports.into_entries();
    Ok(KnownComponent {
        imports,
        exports,
        own,
    })
}

/// Adds the component whose scope this is.
pub fn add_nested(
    alloc: Global,
    scope: &mut Scope,
    types: &TypeTable,
    inner: Scope,
) -> Result<(), NoMemory>
    ensures { OnOk result ((t s : Space) → Stands t scope.old → Stands s inner → Covers types.now s → Stands (and_nested t s) scope.new) }
{
    let next = inner.next;
    let known = known_component(alloc, types, inner)?;
    scope.add_component(Shared::new(alloc, known)?)?;
    scope.next = next;
    Ok(())
}
