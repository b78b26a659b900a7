//! What an import or an export plans, with the type that it states (Component Model, Binary.md, "Import and Export Definitions").

ghost use Rattle.std.specs.Prelude.{◌≡◌, List, IfOk, option_map};
ghost use Rattle.wasm_ast.specs.Boxed.{Held};
ghost use Rattle.wasm_ast.specs.declared.module.Module.{Module};
ghost use Rattle.comp_link.specs.Plans.{Exports, Imports, just, named_by};
ghost use Rattle.comp_link.specs.Planned.{PlannedComponent, plan_item};
ghost use Rattle.comp_types.specs.Added.{described};
ghost use Rattle.comp_types.specs.Spaces.{Space};
ghost use Rattle.comp_scopes.specs.Stands.{Stands};
ghost use Rattle.comp_types.specs.Views.{item_of};
ghost use Rattle.type_table.specs.Covers.{Covers};
ghost use Rattle.type_table.specs.Tables.{Grew};

use crate::arguments::item_at;
use comp_instances::describe;
use comp_link::PlanItem;
use comp_scopes::Scope;
use comp_types::ItemType;
use std::alloc::Global;
use type_table::TypeTable;
use virt_base::NoMemory;
use wasm_ast::{ComponentExport, ComponentImport, ExternDesc};

fn described(
    alloc: Global,
    scope: &Scope,
    types: &mut TypeTable,
    desc: ExternDesc,
) -> Result<ItemType, NoMemory>
    ensures { IfOk result (λ item. (s : Space) → Stands s scope.now → Covers types.old s → (item_of item ≡ described s desc) × Grew types.old types.new) }
{
    let described = describe(alloc, scope, types, desc)?;
    Ok(described.item)
}

/// What an import plans.
pub fn import_item(
    alloc: Global,
    scope: &Scope,
    types: &mut TypeTable,
    import: &ComponentImport,
) -> Result<PlanItem, NoMemory>
    ensures { IfOk result (λ item. (ms : List (Held Module)) (cs : List PlannedComponent) (s : Space) → Stands s scope.now → Covers types.old s → (plan_item ms cs item ≡ just (Imports import.now.name (described s import.now.desc))) × Grew types.old types.new) }
{
    let name = import.name.copy(alloc)?;
    let item = described(alloc, scope, types, import.desc)?;
    Ok(PlanItem::Imports { name, item })
}

/// The type that an export states, if it states one.
fn stated(
    alloc: Global,
    scope: &Scope,
    types: &mut TypeTable,
    desc: Option<ExternDesc>,
) -> Result<Option<ItemType>, NoMemory>
    ensures { IfOk result (λ item. (s : Space) → Stands s scope.now → Covers types.old s → (option_map item_of item ≡ option_map (described s) desc) × Grew types.old types.new) }
{
    match desc {
        None => Ok(None),
        Some(desc) => {
            let item = described(alloc, scope, types, desc)?;
            Ok(Some(item))
        }
    }
}

/// What an export plans.
pub fn export_item(
    alloc: Global,
    scope: &Scope,
    types: &mut TypeTable,
    export: &ComponentExport,
) -> Result<PlanItem, NoMemory>
    ensures { IfOk result (λ item. (ms : List (Held Module)) (cs : List PlannedComponent) (s : Space) → Stands s scope.now → Covers types.old s → (plan_item ms cs item ≡ just (Exports export.now.name (named_by s export.now.sort export.now.index) (option_map (described s) export.now.desc))) × Grew types.old types.new) }
{
    let name = export.name.copy(alloc)?;
    let item = item_at(scope, export.sort, export.index);
    let stated = stated(alloc, scope, types, export.desc)?;
    Ok(PlanItem::Exports { name, item, stated })
}
