//! What is asked of a call before it is answered: its types, which function it is, and whether the host is asked.

ghost use Rattle.std.specs.Prelude.{◌≡◌, ◌&&◌, codes, not};
ghost use Rattle.std.specs.Str.{bytes_eq};
ghost use Rattle.wit_types.specs.HasType.{are_of};
ghost use Rattle.tree_table.specs.Tables.{Forest};
ghost use Rattle.host_port.specs.Calls.{plain_call};
ghost use Rattle.reference_step.specs.Access.{access, is_hosted};
ghost use Rattle.reference_step.specs.Atoms.{handle_in, handles};
ghost use Rattle.reference_step.specs.Rules.{alike_results, given};
ghost use Rattle.reference_step.specs.Steps as reference;
ghost use Rattle.ref_answers.specs.Seen.{live_in};
ghost use Rattle.ref_guards.specs.Noted.{shown, shown_all};
ghost use Rattle.ref_host_calls.specs.Requests.{IsNoted, listed_of, call_of};
ghost use Rattle.ref_answers.specs.Versions.{plain_found};
ghost use Rattle.ref_rules.specs.Seen.{access_of};

use host_port::{Host, HostCall};
use policy_data::Policy;
use ref_answers::Found;
use ref_guards::{Atom, alike_results, are_arguments, are_host};
use ref_host_calls::Request;
use ref_rules::{Access, LiveHandles, function_access};

/// The number of wasi:cli/environment.
const ENVIRONMENT: u32 = 3;

/// The number of wasi:filesystem/preopens.
const PREOPENS: u32 = 19;

/// Whether a call has the types of the listed function.
pub fn has_types(found: Found<'_>, call: &HostCall) -> bool
    ensures { result ≡ (are_of (plain_found found.entry).function.ty.params (plain_call call.now).args && alike_results (plain_found found.entry).function.ty.answer (plain_call call.now).answer) }
{
    are_arguments(&call.args, &found.function.ty.params)
        && alike_results(&found.function.ty.result, &call.func.result)
}

fn is_handle<H: Host>(atom: Atom) -> bool
    ensures { reference.is_none_given H.step (handle_in (shown atom)) ≡ not result }
{
    match atom {
        Atom::Handle(_, _) => true,
        Atom::Text(_) => false,
        Atom::Elements(_, _) => false,
    }
}

/// Whether no handle is among these.
fn have_no_handle<H: Host>(noted: &[Atom]) -> bool
    ensures { result ≡ reference.is_none_given H.step (handles (shown_all noted.now)) }
{
    for atom in noted {
        if is_handle::<H>(*atom) {
            return false;
        }
    }
    true
}

/// Whether a function is `get-environment`.
pub fn is_environment<H: Host>(found: Found<'_>) -> bool
    ensures { result ≡ reference.is_environment H.step (plain_found found.entry) }
{
    found.interface == ENVIRONMENT && found.function.name.as_str() == "get-environment"
}

/// Whether a function is `get-directories`.
pub fn is_folders<H: Host>(found: Found<'_>) -> bool
    ensures { result ≡ reference.is_folders H.step (plain_found found.entry) }
{
    found.interface == PREOPENS
}

fn is_hosted(access: Access) -> bool
    ensures { result ≡ is_hosted (access_of access) }
{
    match access {
        Access::Hosted => true,
        Access::Denied => false,
        Access::Virtual => false,
    }
}

/// Whether the policy says that the host is asked.
fn is_by_host(request: Request<'_>) -> bool
    ensures { result ≡ is_hosted (access request.entry.policy.now (listed_of request.entry).interface (listed_of request.entry).function.name) }
{
    let found = request.found;
    is_hosted(function_access(
        request.policy,
        found.interface,
        found.function.name.as_str(),
    ))
}

fn is_empty_poll<H: Host>(found: Found<'_>, noted: &[Atom]) -> bool
    ensures { result ≡ (bytes_eq (plain_found found.entry).function.name (codes "poll") && reference.is_none_given H.step (handles (shown_all noted.now))) }
{
    found.function.name.as_str() == "poll" && have_no_handle::<H>(noted)
}

/// Whether the host is asked: the policy says so, and every handle that is given is the host's. For no pollable nobody is.
pub fn asks_host<H: Host>(live: &LiveHandles, request: Request<'_>) -> bool
    requires { IsNoted request }
    ensures { (f : Forest) → result ≡ (is_hosted (access request.entry.policy.now (listed_of request.entry).interface (listed_of request.entry).function.name) && (reference.are_host H.step (live_in f live.now.handles) (given (listed_of request.entry) (call_of request.entry)) && not (reference.is_empty_poll H.step (listed_of request.entry) (call_of request.entry)))) }
{
    if !is_by_host(request) {
        return false;
    }
    if !are_host(live, request.noted) {
        return false;
    }
    !is_empty_poll::<H>(request.found, request.noted)
}
