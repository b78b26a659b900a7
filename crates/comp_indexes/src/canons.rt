//! Whether the indexes that canonical functions and exports name are there (Component Model, Explainer.md, "Index Spaces").

ghost use Rattle.std.specs.Prelude.{◌≡◌};
ghost use Rattle.std.specs.List.{list_all};
ghost use Rattle.comp_types.specs.Rules.{canon_stands, export_stands, option_stands};

use crate::instances::item_stands;
use crate::types::{desc_stands, is_below};
use comp_types::Lengths;
use wasm_ast::{Canon, CanonOption, ComponentExport};

fn option_stands(lengths: &Lengths, option: CanonOption) -> bool
    ensures { result ≡ option_stands lengths.now option }
{
    match option {
        CanonOption::Utf8 => true,
        CanonOption::Memory(index) => is_below(index, lengths.core_memories),
        CanonOption::Realloc(index) => is_below(index, lengths.core_functions),
        CanonOption::PostReturn(index) => is_below(index, lengths.core_functions),
    }
}

fn options_stand(lengths: &Lengths, options: &[CanonOption]) -> bool
    ensures { result ≡ list_all (option_stands lengths.now) options.now }
{
    options.iter().all(|o| option_stands(lengths, *o))
}

/// The indexes of a canonical function.
pub fn canon_stands(lengths: &Lengths, canon: &Canon) -> bool
    ensures { result ≡ canon_stands lengths.now canon.now }
{
    match canon {
        Canon::Lift { func, options, ty } => {
            is_below(*func, lengths.core_functions)
                && is_below(*ty, lengths.types)
                && options_stand(lengths, options.as_slice())
        }
        Canon::Lower { func, options } => {
            is_below(*func, lengths.functions) && options_stand(lengths, options.as_slice())
        }
        Canon::ResourceNew(ty) => is_below(*ty, lengths.types),
        Canon::ResourceDrop(ty) => is_below(*ty, lengths.types),
        Canon::ResourceRep(ty) => is_below(*ty, lengths.types),
    }
}

/// The indexes of an export.
pub fn export_stands(lengths: &Lengths, export: &ComponentExport) -> bool
    ensures { result ≡ export_stands lengths.now export.now }
{
    item_stands(lengths, export.sort, export.index)
        && match export.desc {
            None => true,
            Some(desc) => desc_stands(lengths, desc),
        }
}
