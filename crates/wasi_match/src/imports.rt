//! The imports of a component, matched with the listed interfaces one after another, to its verdict: listed, or the first fault at a name.

ghost use Rattle.std.specs.Prelude.{◌≡◌, ◌<◌, IfOk, nat_eq};
ghost use Rattle.std.specs.List.{list_any};
ghost use Rattle.wit_types.specs.Plain.{Name};
ghost use Rattle.comp_types.specs.Items.{Item, Entries};
ghost use Rattle.comp_types.specs.Views.{item_of};
ghost use Rattle.comp_signature.specs.Signatures.{component_signature};
ghost use Rattle.wasi_match.specs.VersionsViews.{plain_name};
ghost use Rattle.wasi_match.specs.Listed.{IsNamed, interfaces};
ghost use Rattle.wasi_match.specs.Verdicts.{Answers};
ghost use Rattle.wasi_match.specs.Walk.{HasOneVerdict};
ghost use Rattle.wasi_match.specs.Begun.{IsBegun, Fits, Steps};

use crate::entries::{match_entries, places};
use crate::exports::first_with_handle;
use crate::fault::{Cause, MatchFault, fault_at};
use crate::kinds::are_apart;
use crate::listed::{Listed, ListedUse, ListedUses};
use crate::offered::offer_of;
use crate::{ListedName, listed_name};
use comp_signature::ComponentType;
use comp_types::{InstanceEntry, InstanceType, ItemType, Substitution};
use std::alloc::Global;
use virt_base::{Items, NoMemory, Text};
use wasi_listed::INTERFACES;

/// The imports that were matched, and the kinds of their resources.
#[derive(Debug, Drop)]
struct Matched {
    uses: ListedUses,
    kinds: Substitution,
}

fn has_use(uses: &[ListedUse], interface: u32) -> bool
    ensures { result ≡ list_any (λ u. nat_eq interface u.interface) uses.now }
{
    uses.iter().any(|u| interface == u.interface)
}

/// Whether one of these is an import of the interface.
fn is_used(uses: &[ListedUse], interface: u32) -> bool
    ensures { result ≡ list_any (nat_eq interface) (interfaces uses.now) }
{
    has_use(uses, interface)
}

/// The functions of an instance that is imported of an interface, if it asks for no more than that offers.
fn fit(
    alloc: Global,
    kinds: &mut Substitution,
    interface: u32,
    instance: &InstanceType,
) -> Result<Option<Items<u32>>, NoMemory>
    requires { interface < INTERFACES }
    ensures { IfOk result (λ functions. Fits functions kinds.old kinds.new interface instance.now.entries) }
{
    let offered = offer_of(alloc, interface)?;
    let entries = instance.entries.as_slice();
    if !match_entries(kinds, &offered, entries)? {
        return Ok(None);
    }
    if !are_apart(alloc, kinds)? {
        return Ok(None);
    }
    let functions = places(alloc, offered.functions.as_slice(), entries)?;
    Ok(Some(functions))
}

/// One import more of an interface; what is at fault with it, if something is.
fn match_instance(
    alloc: Global,
    matched: &mut Matched,
    name: ListedName<'_>,
    instance: &InstanceType,
) -> Result<Option<Cause>, NoMemory>
    requires { name.interface < INTERFACES }
    ensures { IfOk result (λ cause. (before : Entries) → (text : Name) → (item : Item) → IsBegun before matched.old.uses matched.old.kinds → IsNamed text item (plain_name name.entry) instance.now.entries → Steps cause before text item matched.old.uses matched.new.uses matched.new.kinds) }
{
    if is_used(matched.uses.as_slice(), name.interface) {
        return Ok(Some(Cause::TwoVersions));
    }
    match fit(alloc, &mut matched.kinds, name.interface, instance)? {
        None => Ok(Some(Cause::WrongType)),
        Some(functions) => {
            let version = Text::from_str(alloc, name.version)?;
            matched.uses.push(ListedUse {
                interface: name.interface,
                version,
                functions,
            })?;
            Ok(None)
        }
    }
}

/// One import more; what is at fault with it, if something is.
fn match_import(
    alloc: Global,
    matched: &mut Matched,
    import: &InstanceEntry,
) -> Result<Option<Cause>, NoMemory>
    ensures { IfOk result (λ cause. (before : Entries) → IsBegun before matched.old.uses matched.old.kinds → Steps cause before import.now.name (item_of import.now.ty) matched.old.uses matched.new.uses matched.new.kinds) }
{
    match &import.ty {
        ItemType::Func(_) => Ok(Some(Cause::Unlisted)),
        ItemType::Kind(_) => Ok(Some(Cause::Unlisted)),
        ItemType::Instance(instance) => match listed_name(import.name.as_str()) {
            None => Ok(Some(Cause::Unlisted)),
            Some(name) => {
                let cause = match_instance(alloc, matched, name, instance)?;
                Ok(cause)
            }
        },
    }
}

/// Matches the imports with the listed interfaces, in order, and looks for handles in the exports after them. Ok exactly where
/// the component is listed.
pub fn match_imports(alloc: Global, ty: &ComponentType) -> Result<Listed, MatchFault>
    ensures { Answers (component_signature ty.now) result }
{
    let mut matched = Matched {
        uses: Items::empty(alloc),
        kinds: Substitution::empty(alloc),
    };
    let imports = ty.imports.as_slice();
    for i in 0..imports.len() {
        if let Some(cause) = match_import(alloc, &mut matched, &imports[i])? {
            return Err(fault_at(cause, imports[i].name.copy(alloc)?));
        }
    }
    match first_with_handle(&ty.exports) {
        None => Ok(Listed { uses: matched.uses }),
        Some(name) => Err(fault_at(Cause::HandleExport, name.copy(alloc)?)),
    }
}

/// Of each component exactly one verdict holds, so that the contract of `match_imports` allows one answer, unless memory runs out.
pub fn has_one_verdict()
    ensures { HasOneVerdict }
{}
