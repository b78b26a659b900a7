//! Exports are searched for resource types and handles: no export of a listed component holds one.

ghost use Rattle.std.specs.Prelude.{◌≡◌, false, MatchOption};
ghost use Rattle.comp_types.specs.Resources.{entries_have_resource};
ghost use Rattle.wasi_match.specs.Verdicts.{HasHandle};

use comp_types::InstanceEntries;
use virt_base::Text;

/// The first export in which a resource type or a handle stands.
pub fn first_with_handle(exports: &InstanceEntries) -> Option<&Text>
    ensures { MatchOption result (entries_have_resource exports.now ≡ false) (λ name. HasHandle exports.now name.now) }
{
    let entries = exports.as_slice();
    for i in 0..entries.len() {
        if entries[i].ty.has_resource() {
            return Some(&entries[i].name);
        }
    }
    None
}
