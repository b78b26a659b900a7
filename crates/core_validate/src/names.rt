//! Names that were met.

ghost use Rattle.std.specs.Prelude.{◌≡◌, List, ℕ, ◌++◌, ◌∷◌, [], IfOk, not, is_some};
ghost use Rattle.std.specs.List.{list_any};
ghost use Rattle.std.specs.Str.{bytes_eq};
ghost use Rattle.core_validate.specs.Seen.{Knows};

use std::alloc::Global as Heap;
use std::collections::BTreeMap;
use virt_base::NoMemory;

/// Adds a name. Whether it is new.
pub fn add<'a>(seen: &mut BTreeMap<&'a str, bool>, name: &'a str) -> Result<bool, NoMemory>
    ensures { IfOk result (λ new. (names : List (List ℕ)) → Knows seen.old names → Knows seen.new (names ++ name.now ∷ []) × (new ≡ not (list_any (bytes_eq name.now) names))) }
{
    let old = seen.insert(name, true)?;
    Ok(old.is_none())
}

/// No name so far.
pub fn none<'a>(alloc: Heap) -> BTreeMap<&'a str, bool>
    ensures { Knows result [] }
{
    BTreeMap::new(alloc)
}
