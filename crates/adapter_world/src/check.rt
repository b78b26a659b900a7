//! Whether the imports of a component are those that are needed.

ghost use Rattle.std.specs.Prelude.{◌≡◌, ◌++◌, IfOk, OnOk, IsTrue, map};
ghost use Rattle.comp_types.specs.Views.{item_of, entries_of};
ghost use Rattle.comp_signature.specs.Signatures.{component_signature};
ghost use Rattle.adapter_world.specs.Names.{named};
ghost use Rattle.adapter_world.specs.Imports.{AreListedBy, import_names, names_in, names_of};

use crate::needs::NeededInterface;
use comp_signature::ComponentType;
use comp_types::{InstanceEntry, ItemType};
use std::alloc::Global;
use virt_base::{Items, NoMemory, Text};
use wasi_match::{MatchFault, match_imports};
use wit_types::Labels;

fn push_copies(alloc: Global, names: &[Text], all: &mut Labels) -> Result<(), NoMemory>
    ensures { OnOk result (all.new ≡ all.old ++ names.now) }
{
    for i in 0..names.len() {
        let name = names[i].copy(alloc)?;
        all.push(name)?;
    }
    Ok(())
}

/// All names in a needed interface.
fn all_names(alloc: Global, one: &NeededInterface) -> Result<Labels, NoMemory>
    ensures { IfOk result (λ all. all ≡ (one.now.uses ++ one.now.types) ++ one.now.names) }
{
    let mut all = Items::empty(alloc);
    push_copies(alloc, one.uses.as_slice(), &mut all)?;
    push_copies(alloc, one.types.as_slice(), &mut all)?;
    push_copies(alloc, one.names.as_slice(), &mut all)?;
    Ok(all)
}

fn have_names(entries: &[InstanceEntry], names: &[Text]) -> bool
    ensures { IsTrue result → names_in (entries_of entries.now) ≡ names.now }
{
    if entries.len() != names.len() {
        return false;
    }
    for i in 0..entries.len() {
        if !entries[i].name.is_same(&names[i]) {
            return false;
        }
    }
    true
}

fn has_names(item: &ItemType, names: &[Text]) -> bool
    ensures { IsTrue result → names_of (item_of item.now) ≡ names.now }
{
    match item {
        ItemType::Instance(instance) => have_names(instance.entries.as_slice(), names),
        ItemType::Func(_) => false,
        ItemType::Kind(_) => false,
    }
}

fn is_import(alloc: Global, entry: &InstanceEntry, one: &NeededInterface) -> Result<bool, NoMemory>
    ensures { IfOk result (λ good. IsTrue good → (entry.now.name, names_of (item_of entry.now.ty)) ≡ named one.now) }
{
    if !entry.name.is_same(&one.name) {
        return Ok(false);
    }
    let names = all_names(alloc, one)?;
    let good = has_names(&entry.ty, names.as_slice());
    Ok(good)
}

fn are_imports(
    alloc: Global,
    entries: &[InstanceEntry],
    needed: &[NeededInterface],
) -> Result<bool, NoMemory>
    ensures { IfOk result (λ good. IsTrue good → import_names (entries_of entries.now) ≡ map named needed.now) }
{
    if entries.len() != needed.len() {
        return Ok(false);
    }
    for i in 0..entries.len() {
        if !is_import(alloc, &entries[i], &needed[i])? {
            return Ok(false);
        }
    }
    Ok(true)
}

/// Whether the imports of an output, or of an adapter, are exactly those that are needed, with the listed types. What it exports does
/// not matter.
pub fn are_needed(
    alloc: Global,
    needed: &[NeededInterface],
    out: &ComponentType,
) -> Result<bool, NoMemory>
    ensures { IfOk result (λ good. IsTrue good → AreListedBy (map named needed.now) (component_signature out.now).imports) }
{
    match match_imports(alloc, out) {
        Ok(_) => are_imports(alloc, out.imports.as_slice(), needed),
        Err(MatchFault::HandleExport(_)) => are_imports(alloc, out.imports.as_slice(), needed),
        Err(MatchFault::NoMemory) => Err(NoMemory),
        Err(MatchFault::Unlisted(_)) => Ok(false),
        Err(MatchFault::WrongType(_)) => Ok(false),
        Err(MatchFault::TwoVersions(_)) => Ok(false),
    }
}
