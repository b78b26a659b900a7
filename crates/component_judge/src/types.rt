//! Whether a component of a type can be run over a host that answers by a script: its imports are asked, and then its exports.

ghost use Rattle.std.specs.Prelude.{◌≡◌, option_map};
ghost use Rattle.comp_signature.specs.Signatures.{component_signature};
ghost use Rattle.comp_types.specs.Views.{item_of, entries_of};
ghost use Rattle.component_judge.specs.Types.{is_met, are_plain, is_plain, first_unmet, first_handle, Fits};

use crate::refusal::Refusal;
use comp_signature::ComponentType;
use comp_types::{InstanceEntry, ItemType};
use std::alloc::Global;
use virt_base::{AppFault, Text};

/// Whether an entry of an import is a function or a type.
fn is_plain(ty: &ItemType) -> bool
    ensures { result ≡ is_plain (item_of ty.now) }
{
    match ty {
        ItemType::Func(_) => true,
        ItemType::Instance(_) => false,
        ItemType::Kind(_) => true,
    }
}

fn are_plain(entries: &[InstanceEntry]) -> bool
    ensures { result ≡ are_plain (entries_of entries.now) }
{
    for entry in entries {
        if !is_plain(&entry.ty) {
            return false;
        }
    }
    true
}

/// Whether a host can meet an import.
fn is_met(ty: &ItemType) -> bool
    ensures { result ≡ is_met (item_of ty.now) }
{
    match ty {
        ItemType::Func(_) => false,
        ItemType::Instance(instance) => are_plain(instance.entries.as_slice()),
        ItemType::Kind(_) => false,
    }
}

/// The first import that no host can meet.
fn first_unmet(imports: &[InstanceEntry]) -> Option<&Text>
    ensures { option_map (λ name. name.now) result ≡ first_unmet (entries_of imports.now) }
{
    for import in imports {
        if !is_met(&import.ty) {
            return Some(&import.name);
        }
    }
    None
}

/// The first export in which a resource type or a handle stands.
fn first_handle(exports: &[InstanceEntry]) -> Option<&Text>
    ensures { option_map (λ name. name.now) result ≡ first_handle (entries_of exports.now) }
{
    for export in exports {
        if export.ty.has_resource() {
            return Some(&export.name);
        }
    }
    None
}

/// Refuses a type that can not be run: imports are asked first, and then exports.
pub fn test_type(alloc: Global, ty: &ComponentType) -> Result<(), Refusal>
    ensures { Fits (component_signature ty.now) result }
{
    if let Some(name) = first_unmet(ty.imports.as_slice()) {
        return Err(Refusal::Refused(AppFault::Unlisted(name.copy(alloc)?)));
    }
    if let Some(name) = first_handle(ty.exports.as_slice()) {
        return Err(Refusal::Refused(AppFault::HandleExport(name.copy(alloc)?)));
    }
    Ok(())
}
