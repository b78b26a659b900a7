//! The host is asked, with its own numbers for the handles, and the answer is made of what it gives.

ghost use Rattle.std.specs.Prelude.{◌≡◌, ◌≤◌, ◌+◌, ℕ, Option, true, IfOk, OnOk};
ghost use Rattle.wit_types.specs.PlainValue.{PlainValue};
ghost use Rattle.tree_table.specs.Tables.{Forest};
ghost use Rattle.host_port.specs.Calls.{plain_answer, plain_call};
ghost use Rattle.host_port.specs.Hosts.{answer_of, reacts};
ghost use Rattle.reference_step.specs.State.{Reference};
ghost use Rattle.reference_step.specs.Steps.{asks, environment_gave, host_gave, to_host};
ghost use Rattle.ref_answers.specs.Seen.{live_in};
ghost use Rattle.ref_rules.specs.Lives.{count_of_kind};
ghost use Rattle.ref_guards.specs.RoomEntering.{are_kinds, count_kind};
ghost use Rattle.ref_guards.specs.Contents.{KeepsContents, Hosts};
ghost use Rattle.ref_host_calls.specs.Requests.{IsNoted, listed_of, call_of, handles_in};
ghost use Rattle.ref_host_calls.specs.Reactions.{HostIsTyped, IsReaction, state_at};

use crate::arguments::renumber_arguments;
use crate::giving::{give, give_variables};
use crate::numbers::host_ids;
use crate::request::Request;
use host_port::{Answer, Host, HostCall, copy_call};
use ref_rules::LiveHandles;
use std::alloc::Global;
use virt_base::NoMemory;

/// The same call with the host's numbers.
fn to_host<H: Host>(
    alloc: Global,
    live: &LiveHandles,
    request: Request<'_>,
) -> Result<HostCall, NoMemory>
    requires { IsNoted request }
    ensures { IfOk result (λ theirs. (f : Forest) (r : Reference H.State) → plain_call theirs ≡ to_host H.step (record r { live = live_in f live.now.handles }) (listed_of request.entry) (call_of request.entry)) }
{
    let ids = host_ids::<H>(alloc, live, request.noted)?;
    let HostCall { func, args } = copy_call(alloc, request.call)?;
    let args = renumber_arguments(args, &request.found.function.ty.params, ids.as_slice());
    Ok(HostCall { func, args })
}

/// The host is asked, with its numbers of the handles.
pub fn ask<H: Host>(
    alloc: Global,
    live: &LiveHandles,
    inner: &mut H,
    request: Request<'_>,
) -> Result<Answer, NoMemory>
    requires { IsNoted request }
    ensures answer { IfOk result (λ a. (f : Forest) (r : Reference H.State) → plain_answer a ≡ answer_of H.step (H.kept inner.old) (to_host H.step (record r { live = live_in f live.now.handles }) (listed_of request.entry) (call_of request.entry))) }
    ensures next { OnOk result ((f : Forest) (r : Reference H.State) → H.kept inner.new ≡ reacts H.step (H.kept inner.old) (to_host H.step (record r { live = live_in f live.now.handles }) (listed_of request.entry) (call_of request.entry))) }
    ensures typed { OnOk result ((f : Forest) (r : Reference H.State) → HostIsTyped H.step (state_at r f request.entry.policy.now live.now (H.kept inner.old).state) (listed_of request.entry) (call_of request.entry)) }
{
    let theirs = to_host::<H>(alloc, live, request)?;
    inner.call(alloc, theirs)
}

/// The host is asked, and own handles of its answer enter.
pub fn ask_host<H: Host>(
    alloc: Global,
    live: &mut LiveHandles,
    inner: &mut H,
    request: Request<'_>,
) -> Result<Answer, NoMemory>
    requires noted { IsNoted request }
    requires kinds { (v : Option PlainValue) → are_kinds (handles_in request v) ≡ true }
    requires room { (v : Option PlainValue) (kind : ℕ) → count_kind kind (handles_in request v) + count_of_kind kind live.old.handles ≤ live.old.slots }
    ensures reaction { IfOk result (λ a. (f : Forest) (r : Reference H.State) → IsReaction (asks H.step (state_at r f request.entry.policy.now live.old (H.kept inner.old).state) (listed_of request.entry) (call_of request.entry) (λ s seen v. host_gave H.step s seen (listed_of request.entry) (call_of request.entry) v)) (plain_answer a) (state_at r f request.entry.policy.now live.new (H.kept inner.new).state) (H.kept inner.old).seen (H.kept inner.new).seen) }
    ensures keeps { OnOk result (KeepsContents Hosts live.old live.new) }
    ensures limits { OnOk result ((live.new.slots ≡ live.old.slots) × (live.new.files ≡ live.old.files)) }
    ensures typed { OnOk result ((f : Forest) (r : Reference H.State) → HostIsTyped H.step (state_at r f request.entry.policy.now live.old (H.kept inner.old).state) (listed_of request.entry) (call_of request.entry)) }
{
    match ask(alloc, live, inner, request)? {
        Answer::Value(value) => give::<H>(alloc, live, request, value),
        Answer::Trap => Ok(Answer::Trap),
        Answer::Ended => Ok(Answer::Ended),
        Answer::Bad => Ok(Answer::Bad),
    }
}

/// The host is asked for its variables.
pub fn ask_variables<H: Host>(
    alloc: Global,
    live: &LiveHandles,
    inner: &mut H,
    request: Request<'_>,
) -> Result<Answer, NoMemory>
    requires { IsNoted request }
    ensures reaction { IfOk result (λ a. (f : Forest) (r : Reference H.State) → IsReaction (asks H.step (state_at r f request.entry.policy.now live.now (H.kept inner.old).state) (listed_of request.entry) (call_of request.entry) (λ s seen v. environment_gave H.step s seen (listed_of request.entry) (call_of request.entry) v)) (plain_answer a) (state_at r f request.entry.policy.now live.now (H.kept inner.new).state) (H.kept inner.old).seen (H.kept inner.new).seen) }
    ensures typed { OnOk result ((f : Forest) (r : Reference H.State) → HostIsTyped H.step (state_at r f request.entry.policy.now live.now (H.kept inner.old).state) (listed_of request.entry) (call_of request.entry)) }
{
    match ask(alloc, live, inner, request)? {
        Answer::Value(value) => give_variables::<H>(alloc, request, value),
        Answer::Trap => Ok(Answer::Trap),
        Answer::Ended => Ok(Answer::Ended),
        Answer::Bad => Ok(Answer::Bad),
    }
}
