//! Whether rules allow an address: one of them has a network that holds it and a range that holds its port.

ghost use Rattle.std.specs.Prelude.{◌≡◌, ◌↔◌, IsTrue};
ghost use Rattle.std.specs.List.{list_any};
ghost use Rattle.policy_data.specs.Addresses.{IsAllowed};
ghost use Rattle.wit_types.specs.PlainValue.{plain_value};
ghost use Rattle.net_policy.specs.Allowed.{address_in, allows_one, holds_port, is_in_network, is_allowed, address_of};
ghost use Rattle.net_policy.specs.Seen.{seen};

use crate::address::{Address, address_in};
use crate::network::are_alike;
use policy_data::{PortRange, Rule, Rules};
use wit_types::Value;

fn holds_port(range: &PortRange, port: u128) -> bool
    ensures { result ≡ holds_port port range.now }
{
    u128::from(range.from) <= port && port <= u128::from(range.to)
}

/// Whether the rule's network holds the address.
fn is_in_network(rule: &Rule, address: &Address<'_>) -> bool
    ensures { result ≡ is_in_network rule.now (address_of address.now.six (seen address.now.numbers) address.now.port) }
{
    if rule.six != address.six {
        return false;
    }
    let width = if rule.six { 16 } else { 8 };
    are_alike(
        rule.numbers.as_slice(),
        address.numbers,
        width,
        u32::from(rule.length),
    )
}

fn holds_some_port(ranges: &[PortRange], port: u128) -> bool
    ensures { result ≡ list_any (holds_port port) ranges.now }
{
    ranges.iter().any(|range| holds_port(range, port))
}

fn allows_one(rule: &Rule, address: &Address<'_>) -> bool
    ensures { result ≡ allows_one (address_of address.now.six (seen address.now.numbers) address.now.port) rule.now }
{
    is_in_network(rule, address) && holds_some_port(rule.ports.as_slice(), address.port)
}

fn some_allows(rules: &[Rule], address: &Address<'_>) -> bool
    ensures { result ≡ is_allowed rules.now (address_of address.now.six (seen address.now.numbers) address.now.port) }
{
    rules.iter().any(|rule| allows_one(rule, address))
}

/// Whether some rule allows the address, which is a value of the type `ip-socket-address`: of any other value it has no
/// meaning. It takes no memory.
pub fn allows(rules: &Rules, address: &Value) -> bool
    ensures value { result ≡ is_allowed rules.now (address_in (plain_value address.now)) }
    ensures rule { IsTrue result ↔ IsAllowed rules.now (address_in (plain_value address.now)) }
{
    let address = address_in(address);
    some_allows(rules.as_slice(), &address)
}
