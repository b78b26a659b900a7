//! The three relations by which types are judged: equal, may be given for another one, and arguments that fit the imports of a component
//! (Component Model, Explainer.md, "Subtyping").

ghost use Rattle.std.specs.Prelude.{◌≡◌, IfOk};
ghost use Rattle.std.specs.Bool.{Decides};
ghost use Rattle.comp_types.specs.Equality.{IsEqualType};
ghost use Rattle.comp_types.specs.Subtyping.{IsSubtype, MeetsImports};
ghost use Rattle.comp_types.specs.Views.{item_of};
ghost use Rattle.type_table.specs.Tables.{HasItem, HasEntries};

use crate::item_matching::{match_arguments, match_entries, match_item};
use comp_types::{InstanceEntries, InstanceType, ItemType, Substitution, are_same};
use std::alloc::Global;
use type_table::{Matching, TypeTable};
use virt_base::NoMemory;

/// Whether two types are equal by structure, up to the numbers of the resources that instance types in them declare.
pub fn equal(alloc: Global, types: &TypeTable, a: &ItemType, b: &ItemType) -> Result<bool, NoMemory>
    ensures { IfOk result (λ same. HasItem types.now (item_of a.now) → HasItem types.now (item_of b.now) → Decides same (IsEqualType (item_of a.now) (item_of b.now))) }
{
    let mut walk = Matching::new(alloc, types, Substitution::empty(alloc));
    if !match_item(alloc, &mut walk, a, b)? {
        return Ok(false);
    }
    Ok(are_same(walk.pairs()))
}

/// Whether an instance of the first type may be given where one of the second is asked for. Each resource of the second that
/// is matched has its partner there; the others have whatever partner fits.
pub fn subtype(
    alloc: Global,
    types: &TypeTable,
    a: &InstanceType,
    b: &InstanceType,
    matched: &Substitution,
) -> Result<bool, NoMemory>
    ensures { IfOk result (λ fits. HasEntries types.now a.now.entries → HasEntries types.now b.now.entries → Decides fits (IsSubtype a.now.entries b.now.entries matched.now)) }
{
    let _distinct = matched.len();
    let by = matched.copy()?;
    let mut walk = Matching::new(alloc, types, by);
    let fits = match_entries(alloc, &mut walk, &a.entries, b.entries.as_slice())?;
    Ok(fits)
}

/// Whether each import of a component is given an argument that fits, with one partner for each resource of the imports.
pub fn is_given(
    alloc: Global,
    types: &TypeTable,
    args: &InstanceEntries,
    imports: &InstanceEntries,
) -> Result<bool, NoMemory>
    ensures { IfOk result (λ fits. HasEntries types.now args.now → HasEntries types.now imports.now → Decides fits (MeetsImports args.now imports.now)) }
{
    let mut walk = Matching::new(alloc, types, Substitution::empty(alloc));
    let fits = match_arguments(alloc, &mut walk, args, imports.as_slice())?;
    Ok(fits)
}
