//! An import from the host.

ghost use Rattle.std.specs.Prelude.{◌≡◌, ◌<◌, IfOk, IfSome, is_some};
ghost use Rattle.std.specs.List.{list_any};
ghost use Rattle.comp_types.specs.Views.{item_of};
ghost use Rattle.comp_types.specs.Matching.{GoesOn, matched_entries};
ghost use Rattle.wasi_listed.specs.Listed.{described};
ghost use Rattle.wasi_match.specs.VersionsViews.{plain_name};
ghost use Rattle.wasi_match.specs.Names.{listed_as};
ghost use Rattle.wasi_match.specs.Offered.{offered};
ghost use Rattle.wasi_match.specs.Listed.{places};
ghost use Rattle.wasi_match.specs.Walk.{instance_in};
ghost use Rattle.plug_match.specs.Steps.{Came};
ghost use Rattle.plug_match.specs.Walk.{is_host_of, is_other_version, is_twice, host_use, host_step};

use crate::numbers::add_behind;
use crate::source::{Plugging, Source};
use comp_types::{InstanceEntries, InstanceEntry, InstanceType, ItemType, Substitution};
use std::alloc::Global;
use virt_base::{Items, NoMemory, Text};
use wasi_listed::INTERFACES;
use wasi_match::{
    Cause, ListedName, ListedUse, are_apart, listed_name, match_entries, offer_of, places,
};

/// The places of the functions among entries, if the interface offers all that these ask for.
pub fn fit(
    alloc: Global,
    by: &mut Substitution,
    interface: u32,
    entries: &InstanceEntries,
) -> Result<Option<Items<u32>>, NoMemory>
    requires { interface < INTERFACES }
    ensures met { IfOk result (λ found. GoesOn (is_some found) by.new (matched_entries by.old (offered interface) entries.now)) }
    ensures places { IfOk result (λ found. IfSome found (λ functions. functions ≡ places (described interface).functions entries.now)) }
{
    let offered = offer_of(alloc, interface)?;
    if !match_entries(by, &offered, entries.as_slice())? {
        return Ok(None);
    }
    let functions = places(alloc, offered.functions.as_slice(), entries.as_slice())?;
    Ok(Some(functions))
}

fn is_host_of(interface: u32, source: &Source) -> bool
    ensures { result ≡ is_host_of interface source.now }
{
    match source {
        Source::Met => false,
        Source::Host(other) => interface == other.interface,
    }
}

fn is_other_version(name: ListedName<'_>, other: &ListedUse) -> bool
    ensures { result ≡ is_other_version (plain_name name.entry) other.now }
{
    name.interface == other.interface && name.version.as_bytes() != other.version.bytes()
}

fn has_host_of(sources: &[Source], interface: u32) -> bool
    ensures { result ≡ list_any (is_host_of interface) sources.now }
{
    sources.iter().any(|s| is_host_of(interface, s))
}

fn has_other_version(uses: &[ListedUse], name: ListedName<'_>) -> bool
    ensures { result ≡ list_any (is_other_version (plain_name name.entry)) uses.now }
{
    uses.iter().any(|u| is_other_version(name, u))
}

/// Whether the second has the interface from the host already, or the first has it in another version.
fn is_twice(uses: &[ListedUse], sources: &[Source], name: ListedName<'_>) -> bool
    ensures { result ≡ is_twice uses.now sources.now (plain_name name.entry) }
{
    has_host_of(sources, name.interface) || has_other_version(uses, name)
}

/// One import more from an interface; what is at fault with it, if something is.
fn host_use(
    alloc: Global,
    uses: &[ListedUse],
    plugging: &mut Plugging,
    name: ListedName<'_>,
    instance: &InstanceType,
) -> Result<Option<Cause>, NoMemory>
    requires { name.interface < INTERFACES }
    ensures { IfOk result (λ cause. Came cause plugging.new (host_use uses.now plugging.old (plain_name name.entry) instance.now.entries)) }
{
    if is_twice(uses, plugging.sources.as_slice(), name) {
        return Ok(Some(Cause::TwoVersions));
    }
    let known = plugging.by.len();
    let Some(functions) = fit(alloc, &mut plugging.by, name.interface, &instance.entries)? else {
        return Ok(Some(Cause::WrongType));
    };
    add_behind(&mut plugging.own, &plugging.by, known)?;
    if !are_apart(alloc, &plugging.own)? {
        return Ok(Some(Cause::WrongType));
    }
    let version = Text::from_str(alloc, name.version)?;
    plugging.sources.push(Source::Host(ListedUse {
        interface: name.interface,
        version,
        functions,
    }))?;
    Ok(None)
}

/// One import more from the host; what is at fault with it, if something is.
pub fn host_step(
    alloc: Global,
    uses: &[ListedUse],
    plugging: &mut Plugging,
    import: &InstanceEntry,
) -> Result<Option<Cause>, NoMemory>
    ensures { IfOk result (λ cause. Came cause plugging.new (host_step uses.now plugging.old (listed_as import.now.name) (instance_in (item_of import.now.ty)))) }
{
    let Some(name) = listed_name(import.name.as_str()) else {
        return Ok(Some(Cause::Unlisted));
    };
    match &import.ty {
        ItemType::Func(_) => Ok(Some(Cause::Unlisted)),
        ItemType::Kind(_) => Ok(Some(Cause::Unlisted)),
        ItemType::Instance(instance) => {
            let cause = host_use(alloc, uses, plugging, name, instance)?;
            Ok(cause)
        }
    }
}
