//! The gate of the rules on addresses: what stands before the host call of a function that they name.

use crate::address_rules::find_rule;
use crate::addresses::{
    ADDRESS_PAIRS, Address, address_of, datagram_address, flat_address, has_address,
};
use crate::static_lists::IoData;
use adapter_code::IntOp;
use adapter_pass::{Frame, ListAt, Routine, net_code};
use policy_data::Policy;

/// The name of the loop over datagrams.
const DATAGRAMS: u32 = 0;

/// The bytes of a datagram in a list.
const DATAGRAM: u64 = 44;

fn denied(f: &Frame) -> Routine {
    f.err(net_code::ACCESS_DENIED)
}

// Goes on where a rule allows the address; else the answer is the error. It takes one pair of spare locals and loses seven more.
fn check(f: &Frame, rules: ListAt, address: &Address) -> Routine {
    let found = f.spare.narrow(0);
    find_rule(&f.inside(1), rules, address, found).unless(found, denied(f))
}

// The address stands in the arguments from a local on.
fn check_flat(f: &Frame, rules: ListAt, from: u32) -> Routine {
    let address = address_of(f);
    flat_address(f, from, &address).part(check(&f.inside(ADDRESS_PAIRS), rules, &address))
}

fn start_connect(f: &Frame, d: &IoData) -> Routine {
    check_flat(f, d.connect, f.arg(2))
}

fn start_bind(f: &Frame, d: &IoData) -> Routine {
    check_flat(f, d.bind, f.arg(2))
}

// The address is optional.
fn stream(f: &Frame, d: &IoData) -> Routine {
    let some = f.arg(1);
    f.routine()
        .when(some, check_flat(f, d.connect, some.saturating_add(1)))
}

// Each datagram may have an address.
fn send(f: &Frame, d: &IoData) -> Routine {
    let list = f.arg(1);
    let at = f.spare.narrow(0);
    let some = f.spare.narrow(1);
    let inner = f.inside(2);
    let address = address_of(&inner);
    let checked = datagram_address(&inner, at, &address).part(check(
        &inner.inside(ADDRESS_PAIRS),
        d.connect,
        &address,
    ));
    let turn = has_address(&inner, at, some)
        .when(some, checked)
        .with(IntOp::Add, at, at, DATAGRAM, some);
    f.routine()
        .copy(at, list)
        .repeat(DATAGRAMS, list.saturating_add(1), turn)
}

fn resolve_addresses(f: &Frame, policy: &Policy) -> Routine {
    if policy.net.names {
        f.routine()
    } else {
        denied(f)
    }
}

/// What stands before the host call of a function, by its name without the resource: where the rules allow what is asked for it goes
/// on, and else it answers that the access is denied. None where the rules do not name the function. It may lose fifteen pairs of
/// spare locals.
pub fn gate(f: &Frame, policy: &Policy, d: &IoData, name: &str) -> Option<Routine> {
    match name {
        "start-connect" => Some(start_connect(f, d)),
        "start-bind" => Some(start_bind(f, d)),
        "stream" => Some(stream(f, d)),
        "send" => Some(send(f, d)),
        "resolve-addresses" => Some(resolve_addresses(f, policy)),
        _ => None,
    }
}
