//! What a policy leaves of an imported function: denied, decided by the policy, or asked of the machine.

ghost use Rattle.std.specs.Prelude.{◌≡◌};
ghost use Rattle.reference_step.specs.Refused.{by_rules};
ghost use Rattle.ref_rules.specs.Seen.{access_of};
ghost use Rattle.wasi_table.specs.Plain.{plain_named_func};
ghost use Rattle.inspect_engine.specs.Fates.{by_access, fate, of_hosted, reached, takes_address, unreached};

use adapter_world::{is_needed_at, is_shut};
use policy_data::{Policy, Sockets};
use ref_rules::{Access, function_access};
use wasi_match::ListedUse;
use wasi_table::NamedFunc;

/// What becomes of the calls of an imported function under a policy.
#[derive(Debug, Clone, Copy, PartialEq, Eq)]
pub enum Fate {
    /// Some call reaches the machine.
    Asked,
    /// Some call reaches the machine, where the policy's rules allow its address. The others are refused.
    Ruled,
    /// No call reaches the machine: each is refused.
    Refused,
    /// No call reaches the machine: the policy itself says what each answers.
    Value,
    /// No call reaches the machine: each goes by a handle that it is given, and no such handle comes from the machine.
    Own,
}

fn by_rules(sockets: Sockets) -> bool
    ensures { result ≡ by_rules sockets }
{
    match sockets {
        Sockets::Allow => false,
        Sockets::Deny => false,
        Sockets::Rules => true,
    }
}

/// Whether some calls of a function name an address.
fn takes_address(function: &str) -> bool
    ensures { result ≡ takes_address function.now }
{
    if function == "[method]tcp-socket.start-connect" {
        true
    } else if function == "[method]tcp-socket.start-bind" {
        true
    } else if function == "[method]udp-socket.start-bind" {
        true
    } else if function == "[method]udp-socket.stream" {
        true
    } else {
        function == "[method]outgoing-datagram-stream.send"
    }
}

fn reached(policy: &Policy, function: &str) -> Fate
    ensures { result ≡ reached policy.now function.now }
{
    if by_rules(policy.sockets) && takes_address(function) {
        Fate::Ruled
    } else {
        Fate::Asked
    }
}

fn of_hosted(policy: &Policy, function: &str) -> Fate
    ensures { result ≡ of_hosted policy.now function.now }
{
    if is_shut(policy, function) {
        Fate::Refused
    } else {
        Fate::Own
    }
}

fn by_access(access: Access, policy: &Policy, function: &str) -> Fate
    ensures { result ≡ by_access (access_of access) policy.now function.now }
{
    match access {
        Access::Hosted => of_hosted(policy, function),
        Access::Denied => Fate::Refused,
        Access::Virtual => Fate::Value,
    }
}

fn unreached(policy: &Policy, interface: u32, function: &str) -> Fate
    ensures { result ≡ unreached policy.now interface function.now }
{
    by_access(
        function_access(policy, interface, function),
        policy,
        function,
    )
}

/// The fate of the function at a place of an interface, which an application imports.
pub fn fate_of(
    policy: &Policy,
    uses: &[ListedUse],
    interface: u32,
    place: usize,
    function: &NamedFunc,
) -> Fate
    ensures { result ≡ fate policy.now uses.now interface place (plain_named_func function.now) }
{
    if is_needed_at(policy, uses, interface, place, function) {
        reached(policy, function.name.as_str())
    } else {
        unreached(policy, interface, function.name.as_str())
    }
}
