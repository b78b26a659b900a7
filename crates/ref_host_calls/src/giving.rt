//! What is made of the host's answer, where that is a value: own handles enter, and variables are filtered. A call that weighs too much
//! traps.

ghost use Rattle.std.specs.Prelude.{◌≡◌, ◌≤◌, ◌+◌, ◌*◌, ℕ, List, Option, true, false, nat_le, IfOk, OnOk};
ghost use Rattle.wit_types.specs.PlainValue.{PlainValue, plain_value};
ghost use Rattle.wit_types.specs.Layout.{align_to};
ghost use Rattle.tree_table.specs.Tables.{Forest};
ghost use Rattle.host_port.specs.Calls.{PlainObservation, plain_answer, plain_option};
ghost use Rattle.reference_step.specs.Atoms.{weight};
ghost use Rattle.reference_step.specs.State.{Reference};
ghost use Rattle.reference_step.specs.Steps.{host_gave, environment_gave, value_of};
ghost use Rattle.ref_rules.specs.Lives.{count_of_kind};
ghost use Rattle.ref_guards.specs.RoomEntering.{are_kinds, count_kind};
ghost use Rattle.ref_guards.specs.Noted.{shown_all};
ghost use Rattle.ref_guards.specs.Contents.{KeepsContents, Hosts};
ghost use Rattle.ref_host_calls.specs.Requests.{IsNoted, listed_of, call_of, handles_in};
ghost use Rattle.ref_host_calls.specs.Reactions.{state_at};

use crate::request::Request;
use host_port::{Answer, Host};
use ref_answers::{list, passed_variables};
use ref_guards::{Atom, Standing, enter_value, left_behind, left_behind_elements, note_result};
use ref_rules::LiveHandles;
use std::alloc::Global;
use virt_base::NoMemory;
use wit_types::Value;

/// The bytes of a name and a value in a list.
const VARIABLE_SIZE: u32 = 16;

/// Whether these weigh no more than so much.
fn are_light(noted: &[Atom], left: u64) -> bool
    ensures { result ≡ nat_le (weight (shown_all noted.now)) left }
{
    left_behind(noted, left).is_some()
}

/// Whether these, and that many elements of a size in a list, weigh no more than so much.
pub fn is_light_list(noted: &[Atom], count: usize, size: u32, left: u64) -> bool
    ensures { result ≡ nat_le (weight (shown_all noted.now) + align_to (count * size) 8) left }
{
    match left_behind(noted, left) {
        None => false,
        Some(left) => left_behind_elements(count, size, left).is_some(),
    }
}

/// The value of an answer; an empty list where it has none.
pub fn value_of<H: Host>(alloc: Global, value: Option<Value>) -> Value
    ensures { plain_value result ≡ value_of H.step (plain_option value) }
{
    match value {
        None => list(Vec::new(alloc)),
        Some(value) => value,
    }
}

/// Own handles of the answer enter, unless the call weighs too much.
pub fn give<H: Host>(
    alloc: Global,
    live: &mut LiveHandles,
    request: Request<'_>,
    value: Option<Value>,
) -> Result<Answer, NoMemory>
    requires noted { IsNoted request }
    requires kinds { are_kinds (handles_in request (plain_option value)) ≡ true }
    requires room { (kind : ℕ) → count_kind kind (handles_in request (plain_option value)) + count_of_kind kind live.old.handles ≤ live.old.slots }
    ensures gave { IfOk result (λ a. (f : Forest) (r : Reference H.State) (seen : List PlainObservation) → host_gave H.step (state_at r f request.entry.policy.now live.old r.inner) seen (listed_of request.entry) (call_of request.entry) (plain_option value) ≡ record { seen = seen; answer = plain_answer a; next = state_at r f request.entry.policy.now live.new r.inner }) }
    ensures keeps { OnOk result (KeepsContents Hosts live.old live.new) }
    ensures limits { OnOk result ((live.new.slots ≡ live.old.slots) × (live.new.files ≡ live.old.files)) }
{
    let ty = &request.found.function.ty.result;
    let mut noted = Vec::new(alloc);
    note_result(ty, &value, &mut noted)?;
    if !are_light(noted.as_slice(), request.left) {
        return Ok(Answer::Trap);
    }
    let given = enter_value(alloc, live, Standing::Hosts, ty, value, noted.as_slice())?;
    Ok(Answer::Value(given))
}

/// Of the host's variables those that are passed, and after them those that the policy sets, unless the call weighs too much.
pub fn give_variables<H: Host>(
    alloc: Global,
    request: Request<'_>,
    value: Option<Value>,
) -> Result<Answer, NoMemory>
    requires { IsNoted request }
    ensures { IfOk result (λ a. (r : Reference H.State) (seen : List PlainObservation) → environment_gave H.step (record r { setup = record r.setup { policy = request.entry.policy.now } }) seen (listed_of request.entry) (call_of request.entry) (plain_option value) ≡ record { seen = seen; answer = plain_answer a; next = record r { setup = record r.setup { policy = request.entry.policy.now } } }) }
{
    let mut noted = Vec::new(alloc);
    note_result(&request.found.function.ty.result, &value, &mut noted)?;
    let variables = passed_variables(alloc, request.policy, value_of::<H>(alloc, value))?;
    if is_light_list(
        noted.as_slice(),
        variables.len(),
        VARIABLE_SIZE,
        request.left,
    ) {
        Ok(Answer::Value(Some(list(variables))))
    } else {
        Ok(Answer::Trap)
    }
}
