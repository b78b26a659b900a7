//! Lists of resources by number: whether some are among others, and those in a component's exports that no import gives.

ghost use Rattle.std.specs.Prelude.{◌≡◌, ◌++◌, [], ◌∷◌, List, ℕ, IfOk, OnOk};
ghost use Rattle.std.specs.List.{list_all};
ghost use Rattle.comp_types.specs.GivenResources.{distinct, is_among, named_in, without};
ghost use Rattle.comp_scopes.specs.Numbers.{HasNumbers};
ghost use Rattle.type_table.specs.Tables.{HasEntries};

use comp_scopes::Numbers;
use comp_types::InstanceEntries;
use std::alloc::Global;
use type_relations::{Resources, resources_of_entries};
use type_table::TypeTable;
use virt_base::{Items, NoMemory};

/// Adds numbers in order.
pub fn push_all(numbers: &mut Numbers, list: &[u32]) -> Result<(), NoMemory>
    ensures { OnOk result ((rs : List ℕ) → HasNumbers rs numbers.old → HasNumbers (rs ++ list.now) numbers.new) }
{
    for number in list {
        numbers.push(*number)?;
    }
    Ok(())
}

/// Whether each of these is among others.
pub fn are_among(these: &[u32], others: &Numbers) -> bool
    ensures { (rs : List ℕ) → HasNumbers rs others.now → result ≡ list_all (is_among rs) these.now }
{
    for number in these {
        if !others.has(*number) {
            return false;
        }
    }
    true
}

fn push_unless(own: &mut Items<u32>, number: u32, others: &Numbers) -> Result<(), NoMemory>
    ensures { OnOk result ((rs : List ℕ) → HasNumbers rs others.now → own.new ≡ own.old ++ without rs (number ∷ [])) }
{
    if others.has(number) {
        return Ok(());
    }
    own.push(number)?;
    Ok(())
}

fn those_without(alloc: Global, these: &[u32], others: &Numbers) -> Result<Items<u32>, NoMemory>
    ensures { IfOk result (λ own. (rs : List ℕ) → HasNumbers rs others.now → own ≡ without rs these.now) }
{
    let mut own = Items::empty(alloc);
    for number in these {
        push_unless(&mut own, *number, others)?;
    }
    Ok(own)
}

/// The resources in what a component exports that no import gives.
pub fn own_resources(
    alloc: Global,
    types: &TypeTable,
    exports: &InstanceEntries,
    imported: &Numbers,
) -> Result<Items<u32>, NoMemory>
    ensures { IfOk result (λ own. HasEntries types.now exports.now → (rs : List ℕ) → HasNumbers rs imported.now → own ≡ without rs (distinct (named_in exports.now))) }
{
    let found = resources_of_entries(alloc, types, exports)?;
    let own = those_without(alloc, found.as_slice(), imported)?;
    Ok(own)
}
