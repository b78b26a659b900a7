//! An exported item once more: an export adds its item to the index space of its sort (Component Model, Binary.md, "Import and Export
//! Definitions").

ghost use Rattle.std.specs.Prelude.{◌≡◌, IfOk, OnOk, Some, slice_get};
ghost use Rattle.comp_types.specs.Views.{item_of};
ghost use Rattle.comp_types.specs.Added.{and_again, and_some_type};
ghost use Rattle.comp_types.specs.Spaces.{Space, TypeEntry, item_at};
ghost use Rattle.comp_scopes.specs.Stands.{IsEntry, Stands};

use crate::add_type_again;
use comp_scopes::Scope;
use comp_types::ItemType;
use virt_base::NoMemory;
use wasm_ast::Sort;

/// Adds the item at an index once more.
pub fn add_again(scope: &mut Scope, sort: Sort, index: u32, item: &ItemType) -> Result<(), NoMemory>
    ensures { OnOk result ((s : Space) → Stands s scope.old → item_at s sort index ≡ Some (item_of item.now) → Stands (and_again s sort index) scope.new) }
{
    match sort {
        Sort::Type => {
            add_type_again(scope, index)?;
            Ok(())
        }
        Sort::Func => {
            scope.add_item(item.copy()?)?;
            Ok(())
        }
        Sort::Instance => {
            scope.add_item(item.copy()?)?;
            Ok(())
        }
    }
}
