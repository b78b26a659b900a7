//! Whether the names in a list are legal, as labels or as names of imports and exports (Component Model, Explainer.md, "Import and Export
//! Definitions").

ghost use Rattle.std.specs.Prelude.{◌≡◌, map};
ghost use Rattle.std.specs.List.{list_all};
ghost use Rattle.comp_names.specs.Labels.{is_label};
ghost use Rattle.comp_names.specs.Names.{is_legal};

use crate::named::Named;
use comp_names::{is_label, is_legal};

/// Whether each name is a label.
pub fn labels_are_legal<T: Named>(items: &[T]) -> bool
    ensures { result ≡ list_all is_label (map T.name items.now) }
{
    let mut rest = items;
    while let Some((item, more)) = rest.split_first() {
        if !is_label(item.name().bytes()) {
            return false;
        }
        rest = more;
    }
    true
}

/// Whether each name is one by which a component may import or export.
pub fn names_are_legal<T: Named>(items: &[T]) -> bool
    ensures { result ≡ list_all is_legal (map T.name items.now) }
{
    let mut rest = items;
    while let Some((item, more)) = rest.split_first() {
        if !is_legal(item.name().bytes()) {
            return false;
        }
        rest = more;
    }
    true
}
