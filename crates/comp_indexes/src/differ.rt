//! Whether the names in a list differ (Component Model, Explainer.md, "Name Uniqueness").

ghost use Rattle.std.specs.Prelude.{◌≡◌, map, IfOk};
ghost use Rattle.comp_names.specs.Same.{is_same_name};
ghost use Rattle.comp_types.specs.CoreMatching.{same_text};
ghost use Rattle.comp_types.specs.Rules.{all_differ};

use crate::named::Named;
use comp_names::{SeenNames, SeenTexts};
use std::alloc::Global;
use virt_base::NoMemory;

/// Whether no two names are alike, where letters of either case are.
pub fn names_differ<T: Named>(alloc: Global, items: &[T]) -> Result<bool, NoMemory>
    ensures { IfOk result (λ differ. differ ≡ all_differ is_same_name (map T.name items.now)) }
{
    let mut seen = SeenNames::new(alloc);
    let mut rest = items;
    while let Some((item, more)) = rest.split_first() {
        if !seen.add(alloc, item.name().as_str())? {
            return Ok(false);
        }
        rest = more;
    }
    Ok(true)
}

/// Whether no two names are the same.
pub fn texts_differ<T: Named>(alloc: Global, items: &[T]) -> Result<bool, NoMemory>
    ensures { IfOk result (λ differ. differ ≡ all_differ same_text (map T.name items.now)) }
{
    let mut seen = SeenTexts::new(alloc);
    let mut rest = items;
    while let Some((item, more)) = rest.split_first() {
        if !seen.add(item.name().as_str())? {
            return Ok(false);
        }
        rest = more;
    }
    Ok(true)
}
