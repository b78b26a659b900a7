//! A type once more in the index space of types, since an export or an import that equals it has an index of its own.

ghost use Rattle.std.specs.Prelude.{◌≡◌, IfOk, OnOk, Some, slice_get};
ghost use Rattle.comp_types.specs.Views.{item_of};
ghost use Rattle.comp_types.specs.Added.{and_again, and_some_type};
ghost use Rattle.comp_types.specs.Spaces.{Space, TypeEntry, item_at};
ghost use Rattle.comp_scopes.specs.Stands.{IsEntry, Stands};

use comp_scopes::{KnownEntry, Scope};
use comp_types::ItemType;
use virt_base::NoMemory;
use wasm_ast::Sort;

fn copy_entry(entry: &KnownEntry) -> Result<KnownEntry, NoMemory>
    ensures { IfOk result (λ copy. (e : TypeEntry) → IsEntry e entry.now → IsEntry e copy) }
{
    Ok(KnownEntry {
        kind: entry.kind.copy()?,
        depth: entry.depth,
    })
}

/// Adds the type at an index once more, as deep as it is there.
pub fn add_type_again(scope: &mut Scope, index: u32) -> Result<(), NoMemory>
    ensures { OnOk result ((s : Space) → Stands s scope.old → Stands (and_some_type s (slice_get s.types index)) scope.new) }
{
    let Some(entry) = scope.entry_at(index) else {
        return Ok(());
    };
    let copy = copy_entry(entry)?;
    scope.add_entry(copy)?;
    Ok(())
}
