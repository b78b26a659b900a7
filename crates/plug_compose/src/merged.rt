//! What two components ask of the host together.

ghost use Rattle.std.specs.Prelude.{◌≡◌, ◌==◌, ◌<◌, ◌++◌, ◌∷◌, [], IfOk, OnOk, IsTrue, nat_eq, length};
ghost use Rattle.std.specs.Option.{option_copied};
ghost use Rattle.std.specs.List.{list_any, find};
ghost use Rattle.wasi_listed.specs.Listed.{described};
ghost use Rattle.adapter_world.specs.Needed.{is_asked, takes};
ghost use Rattle.adapter_world.specs.Behind.{below};
ghost use Rattle.plug_compose.specs.Merged.{if_asked, places_asked, use_of, whole_use, whole_uses};
ghost use Rattle.plug_compose.specs.Sources.{host_use, host_uses};

use plug_match::Source;
use std::alloc::Global;
use virt_base::{Items, NoMemory};
use wasi_listed::{INTERFACES, describe};
use wasi_match::{ListedUse, ListedUses};

fn copy_numbers(alloc: Global, numbers: &[u32]) -> Result<Items<u32>, NoMemory>
    ensures { IfOk result (λ copy. copy ≡ numbers.now) }
{
    Ok(Items::new(Vec::from_slice(alloc, numbers)?))
}

fn copy_use(alloc: Global, one: &ListedUse) -> Result<ListedUse, NoMemory>
    ensures { IfOk result (λ copy. copy ≡ one.now) }
{
    Ok(ListedUse {
        interface: one.interface,
        version: one.version.copy(alloc)?,
        functions: copy_numbers(alloc, one.functions.as_slice())?,
    })
}

fn push_copy(alloc: Global, one: &ListedUse, all: &mut ListedUses) -> Result<(), NoMemory>
    ensures { OnOk result (all.new ≡ all.old ++ one.now ∷ []) }
{
    let copy = copy_use(alloc, one)?;
    all.push(copy)
}

fn push_copies(alloc: Global, uses: &[ListedUse], all: &mut ListedUses) -> Result<(), NoMemory>
    ensures { OnOk result (all.new ≡ all.old ++ uses.now) }
{
    for i in 0..uses.len() {
        push_copy(alloc, &uses[i], all)?;
    }
    Ok(())
}

fn push_source(alloc: Global, source: &Source, all: &mut ListedUses) -> Result<(), NoMemory>
    ensures { OnOk result (all.new ≡ all.old ++ host_use source.now) }
{
    match source {
        Source::Met => Ok(()),
        Source::Host(one) => push_copy(alloc, one, all),
    }
}

fn push_sources(alloc: Global, sources: &[Source], all: &mut ListedUses) -> Result<(), NoMemory>
    ensures { OnOk result (all.new ≡ all.old ++ host_uses sources.now) }
{
    for i in 0..sources.len() {
        push_source(alloc, &sources[i], all)?;
    }
    Ok(())
}

/// What the first component asks of the host, and then what the second does.
pub fn all_uses(
    alloc: Global,
    uses: &[ListedUse],
    sources: &[Source],
) -> Result<ListedUses, NoMemory>
    ensures { IfOk result (λ all. all ≡ uses.now ++ host_uses sources.now) }
{
    let mut all = Items::empty(alloc);
    push_copies(alloc, uses, &mut all)?;
    push_sources(alloc, sources, &mut all)?;
    Ok(all)
}

fn has_place(places: &[u32], place: u32) -> bool
    ensures { result ≡ list_any (nat_eq place) places.now }
{
    places.iter().any(|p| place == *p)
}

fn takes(one: &ListedUse, interface: u32, place: u32) -> bool
    ensures { result ≡ takes one.now interface place }
{
    interface == one.interface && has_place(one.functions.as_slice(), place)
}

/// Whether one of the uses asks for the function at a place of an interface.
fn is_asked(uses: &[ListedUse], interface: u32, place: u32) -> bool
    ensures { result ≡ is_asked uses.now interface place }
{
    uses.iter().any(|u| takes(u, interface, place))
}

fn push_if_asked(
    uses: &[ListedUse],
    interface: u32,
    place: u32,
    places: &mut Items<u32>,
) -> Result<(), NoMemory>
    ensures { OnOk result (places.new ≡ places.old ++ if_asked uses.now interface place) }
{
    if is_asked(uses, interface, place) {
        places.push(place)
    } else {
        Ok(())
    }
}

/// The places below this one of the functions of an interface that the uses ask for.
#[tactic(auto, using(adapter_world::proofs::Below::counting))]
fn places_below(
    alloc: Global,
    uses: &[ListedUse],
    interface: u32,
    count: u32,
) -> Result<Items<u32>, NoMemory>
    ensures { IfOk result (λ places. places ≡ below (if_asked uses.now interface) count) }
{
    let mut places = Items::empty(alloc);
    for place in 0..count {
        push_if_asked(uses, interface, place, &mut places)?;
    }
    Ok(places)
}

fn count_of(interface: u32, alloc: Global) -> Result<u32, NoMemory>
    requires { interface < INTERFACES }
    ensures { IfOk result (λ count. count ≡ length (described interface).functions) }
{
    let described = describe(alloc, interface)?;
    match u32::try_from(described.functions.len()) {
        Ok(count) => Ok(count),
        Err(_) => Err(NoMemory),
    }
}

fn use_of(uses: &[ListedUse], interface: u32) -> Option<&ListedUse>
    ensures { option_copied result ≡ use_of uses.now interface }
{
    uses.iter().find(|u| u.interface == interface)
}

/// Adds an interface where one of the uses is of it: with the functions that all ask for.
fn push_whole(
    alloc: Global,
    uses: &[ListedUse],
    interface: u32,
    whole: &mut ListedUses,
) -> Result<(), NoMemory>
    requires { interface < INTERFACES }
    ensures { OnOk result (whole.new ≡ whole.old ++ whole_use uses.now interface) }
{
    match use_of(uses, interface) {
        None => Ok(()),
        Some(one) => {
            let version = one.version.copy(alloc)?;
            let count = count_of(interface, alloc)?;
            let functions = places_below(alloc, uses, interface, count)?;
            whole.push(ListedUse {
                interface,
                version,
                functions,
            })
        }
    }
}

/// Each interface that the uses are of once, in the order of their numbers.
#[tactic(auto, using(adapter_world::proofs::Below::counting), unfolding(crate::specs::Merged::whole_uses))]
pub fn whole_uses(alloc: Global, uses: &[ListedUse]) -> Result<ListedUses, NoMemory>
    ensures { IfOk result (λ whole. whole ≡ whole_uses uses.now) }
{
    let mut whole = Items::empty(alloc);
    for interface in 0..INTERFACES {
        push_whole(alloc, uses, interface, &mut whole)?;
    }
    Ok(whole)
}

fn same_numbers(a: &[u32], b: &[u32]) -> bool
    ensures { IsTrue result → a.now ≡ b.now }
{
    a == b
}

fn is_same(a: &ListedUse, b: &ListedUse) -> bool
    ensures { IsTrue result → a.now ≡ b.now }
{
    if a.interface != b.interface {
        return false;
    }
    if !a.version.is_same(&b.version) {
        return false;
    }
    same_numbers(a.functions.as_slice(), b.functions.as_slice())
}

/// True only where both are the same uses in the same order.
pub fn same_uses(a: &[ListedUse], b: &[ListedUse]) -> bool
    ensures { IsTrue result → a.now ≡ b.now }
{
    if a.len() != b.len() {
        return false;
    }
    for i in 0..a.len() {
        if !is_same(&a[i], &b[i]) {
            return false;
        }
    }
    true
}
