//! The functions of the host that an output needs: its application asks for them, and under the policy some call of them asks the host.
//! They are found by their names, and by their places among all that the application asks for.

ghost use Rattle.std.specs.Prelude.{◌≡◌, ◌++◌, IfOk, OnOk, map, nat_eq};
ghost use Rattle.std.specs.List.{list_any};
ghost use Rattle.ref_rules.specs.Seen.{access_of};
ghost use Rattle.reference_step.specs.Access.{access, is_hosted};
ghost use Rattle.reference_step.specs.Refused.{by_rules};
ghost use Rattle.wasi_table.specs.Plain.{plain_named_func};
ghost use Rattle.adapter_world.specs.Needed.{has_host_call, is_asked, is_needed, is_shut, is_shut_in, if_needed, is_needed_at, func_name, needed_from, takes};

use crate::borrows::fields_borrow;
use policy_data::{NetRules, Policy, Sockets};
use ref_rules::{Access, function_access};
use std::alloc::Global;
use virt_base::{Items, NoMemory};
use wasi_match::ListedUse;
use wasi_table::NamedFunc;
use wit_types::Labels;

fn by_rules(sockets: Sockets) -> bool
    ensures { result ≡ by_rules sockets }
{
    match sockets {
        Sockets::Allow => false,
        Sockets::Deny => false,
        Sockets::Rules => true,
    }
}

fn is_shut_in(net: &NetRules, function: &str) -> bool
    ensures { result ≡ is_shut_in net.now function.now }
{
    if function == "[method]tcp-socket.start-connect" {
        net.connect.is_empty()
    } else if function == "[method]tcp-socket.start-bind" {
        net.bind.is_empty()
    } else if function == "[method]udp-socket.start-bind" {
        net.bind.is_empty()
    } else if function == "resolve-addresses" {
        !net.names
    } else {
        false
    }
}

/// Whether the rules on addresses and names allow nothing to a function.
pub fn is_shut(policy: &Policy, function: &str) -> bool
    ensures { result ≡ is_shut policy.now function.now }
{
    by_rules(policy.sockets) && is_shut_in(&policy.net, function)
}

fn is_hosted(access: Access) -> bool
    ensures { result ≡ is_hosted (access_of access) }
{
    match access {
        Access::Hosted => true,
        Access::Denied => false,
        Access::Virtual => false,
    }
}

/// Whether some call of a function asks the host, where handles that it is given are the host's.
fn has_host_call(policy: &Policy, interface: u32, function: &str) -> bool
    ensures { result ≡ has_host_call policy.now interface function.now }
{
    is_hosted(function_access(policy, interface, function)) && !is_shut(policy, function)
}

/// Whether a function of an interface is needed where an application asks for it.
fn is_needed(policy: &Policy, interface: u32, function: &NamedFunc) -> bool
    ensures { result ≡ is_needed policy.now interface (plain_named_func function.now) }
{
    has_host_call(policy, interface, function.name.as_str())
        && !fields_borrow(policy, &function.ty.params.items)
}

fn has_place(places: &[u32], place: usize) -> bool
    ensures { result ≡ list_any (nat_eq place) places.now }
{
    places.iter().any(|p| place == *p as usize)
}

fn takes(one: &ListedUse, interface: u32, place: usize) -> bool
    ensures { result ≡ takes one.now interface place }
{
    interface == one.interface && has_place(one.functions.as_slice(), place)
}

/// Whether an application asks for the function at a place of an interface.
pub fn is_asked(uses: &[ListedUse], interface: u32, place: usize) -> bool
    ensures { result ≡ is_asked uses.now interface place }
{
    uses.iter().any(|u| takes(u, interface, place))
}

/// Whether an output needs the function at a place of an interface.
pub fn is_needed_at(
    policy: &Policy,
    uses: &[ListedUse],
    interface: u32,
    place: usize,
    function: &NamedFunc,
) -> bool
    ensures { result ≡ is_needed_at policy.now uses.now interface place (plain_named_func function.now) }
{
    is_asked(uses, interface, place) && is_needed(policy, interface, function)
}

fn push_if_needed(
    alloc: Global,
    policy: &Policy,
    uses: &[ListedUse],
    interface: u32,
    place: usize,
    function: &NamedFunc,
    names: &mut Labels,
) -> Result<(), NoMemory>
    ensures { OnOk result (names.new ≡ names.old ++ map func_name (if_needed policy.now uses.now interface place (plain_named_func function.now))) }
{
    if is_needed_at(policy, uses, interface, place, function) {
        let name = function.name.copy(alloc)?;
        names.push(name)
    } else {
        Ok(())
    }
}

/// The names of those functions of an interface that an output needs.
pub fn needed_functions(
    alloc: Global,
    policy: &Policy,
    uses: &[ListedUse],
    interface: u32,
    functions: &[NamedFunc],
) -> Result<Labels, NoMemory>
    ensures { IfOk result (λ names. names ≡ map func_name (needed_from policy.now uses.now interface 0 (map plain_named_func functions.now))) }
{
    let mut names = Items::empty(alloc);
    for place in 0..functions.len() {
        let function = &functions[place];
        push_if_needed(alloc, policy, uses, interface, place, function, &mut names)?;
    }
    Ok(names)
}

fn count_before(one: &ListedUse, interface: u32, place: usize) -> u32 {
    let mut count: u32 = 0;
    for p in one.functions.as_slice() {
        if one.interface < interface || (one.interface == interface && (*p as usize) < place) {
            count = count.saturating_add(1);
        }
    }
    count
}

/// How many functions an application asks for before the one at a place of an interface.
fn asked_before(uses: &[ListedUse], interface: u32, place: usize) -> u32 {
    let mut count: u32 = 0;
    for one in uses {
        count = count.saturating_add(count_before(one, interface, place));
    }
    count
}

/// The places of an interface's needed functions among all that the application asks for, in the order of their numbers.
pub fn needed_places(
    alloc: Global,
    policy: &Policy,
    uses: &[ListedUse],
    interface: u32,
    functions: &[NamedFunc],
) -> Result<Items<u32>, NoMemory> {
    let mut places = Items::empty(alloc);
    for place in 0..functions.len() {
        if is_needed_at(policy, uses, interface, place, &functions[place]) {
            places.push(asked_before(uses, interface, place))?;
        }
    }
    Ok(places)
}
