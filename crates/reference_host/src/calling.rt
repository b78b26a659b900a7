//! A call from its names to its answer: what must hold of it, and then the rules in their order: weight, room, what is denied.

ghost use Rattle.std.specs.Prelude.{◌≡◌, [], Some, true, IfOk, OnOk};
ghost use Rattle.wit_types.specs.HasType.{are_of};
ghost use Rattle.host_port.specs.Calls.{Gives, plain_answer, plain_call};
ghost use Rattle.host_port.specs.Hosts.{IsAnswerTo};
ghost use Rattle.reference_step.specs.Atoms.{atoms_of};
ghost use Rattle.reference_step.specs.Rules.{ByPolicy, denial, errors_of};
ghost use Rattle.reference_step.specs.State.{Reference};
ghost use Rattle.reference_step.specs.Steps as reference;
ghost use Rattle.reference_step.specs.Values as made;
ghost use Rattle.ref_guards.specs.Noted.{shown_all};
ghost use Rattle.ref_host_calls.specs.Reactions.{IsReaction};
ghost use Rattle.ref_host_calls.specs.Requests.{listed_of, call_of};
ghost use Rattle.ref_answers.specs.Versions.{IsSmall, plain_found};
ghost use Rattle.ref_rules.specs.Seen.{denial_of, shown_errors};
ghost use Rattle.reference_host.specs.Typed.{AsksTyped};
ghost use Rattle.reference_host.specs.Asked.{HasRoom, IsAsked, IsNamed};
ghost use Rattle.reference_host.specs.Kept.{IsHolding, IsSetting, reference_at};
ghost use Rattle.reference_host.specs.Reaching.{TypedIfFree, TypedIfLight, TypedIfPassed, TypedIfRoom};
ghost use Rattle.reference_host.specs.States.{IsState, reference_of};

use crate::answering::answered;
use crate::answers_are_typed;
use crate::state::State;
use crate::state_kept::{Holding, Setting};
use crate::state_sound::state_is_sound;
use crate::testing::has_types;
use host_port::{Answer, Host, HostCall};
use ref_answers::{Found, error_code};
use ref_guards::{Atom, are_live, has_places, left_behind, note_arguments, owned_kinds};
use ref_host_calls::Request;
use ref_rules::{Denial, Errors, call_denial, errors_of, is_answered};
use std::alloc::Global;
use virt_base::NoMemory;

/// The places of error codes in the enums `error-code`.
const INSUFFICIENT_MEMORY: u32 = 22;

const OUT_OF_MEMORY: u32 = 4;

const ACCESS_DENIED: u32 = 1;

/// An error code is the answer.
fn fails(alloc: Global, code: u32) -> Result<Answer, NoMemory>
    ensures { IfOk result (λ a. plain_answer a ≡ Gives (Some (made.error_code code))) }
{
    Ok(Answer::Value(Some(error_code(alloc, code)?)))
}

/// The answer where there is no room.
fn full<H: Host>(alloc: Global, errors: Errors) -> Result<Answer, NoMemory>
    ensures { IfOk result (λ a. (r : Reference H.State) → reference.full H.step r (shown_errors errors) ≡ record { seen = []; answer = plain_answer a; next = r }) }
{
    match errors {
        Errors::Filesystem => fails(alloc, INSUFFICIENT_MEMORY),
        Errors::Sockets => fails(alloc, OUT_OF_MEMORY),
        Errors::None => Ok(Answer::Trap),
    }
}

fn errors_in(request: Request<'_>) -> Errors
    ensures { shown_errors result ≡ errors_of (listed_of request.entry) }
{
    errors_of(request.found.interface, &request.found.function.ty.result)
}

fn denied_by_policy<H: Host>(alloc: Global, request: Request<'_>) -> Result<Answer, NoMemory>
    ensures { IfOk result (λ a. (r : Reference H.State) → r.setup.policy ≡ request.entry.policy.now → reference.denied H.step r (listed_of request.entry) (call_of request.entry) ByPolicy ≡ record { seen = []; answer = plain_answer a; next = r }) }
{
    if is_answered(request.policy.deny, errors_in(request)) {
        fails(alloc, ACCESS_DENIED)
    } else {
        Ok(Answer::Trap)
    }
}

fn denial_of(request: Request<'_>) -> Denial
    ensures { denial_of result ≡ denial request.entry.policy.now (listed_of request.entry) (call_of request.entry) }
{
    let found = request.found;
    call_denial(
        request.policy,
        found.interface,
        found.function.name.as_str(),
        &request.call.args,
    )
}

/// Third, what is denied.
fn denied<H: Host>(
    alloc: Global,
    setting: &Setting,
    holding: &mut Holding,
    inner: &mut H,
    request: Request<'_>,
) -> Result<Answer, NoMemory>
    requires setting { IsSetting setting.now }
    requires holding { IsHolding setting.now holding.old }
    requires asked { IsAsked setting.now request }
    requires room { HasRoom setting.now holding.old request }
    ensures reaction { IfOk result (λ a. IsReaction (reference.denied H.step (reference_at setting.now holding.old (H.kept inner.old).state) (listed_of request.entry) (call_of request.entry) (denial setting.now.policy (listed_of request.entry) (call_of request.entry))) (plain_answer a) (reference_at setting.now holding.new (H.kept inner.new).state) (H.kept inner.old).seen (H.kept inner.new).seen) }
    ensures keeps { OnOk result (IsHolding setting.now holding.new) }
    ensures typed { OnOk result (TypedIfFree H.step (reference_at setting.now holding.old (H.kept inner.old).state) (listed_of request.entry) (call_of request.entry)) }
{
    match denial_of(request) {
        Denial::NotDenied => answered(alloc, setting, holding, inner, request),
        Denial::ByPolicy => denied_by_policy::<H>(alloc, request),
        Denial::ByRules => fails(alloc, ACCESS_DENIED),
    }
}

/// Second, room.
fn with_room<H: Host>(
    alloc: Global,
    setting: &Setting,
    holding: &mut Holding,
    inner: &mut H,
    request: Request<'_>,
) -> Result<Answer, NoMemory>
    requires setting { IsSetting setting.now }
    requires holding { IsHolding setting.now holding.old }
    requires asked { IsAsked setting.now request }
    ensures reaction { IfOk result (λ a. IsReaction (reference.with_room H.step (reference_at setting.now holding.old (H.kept inner.old).state) (listed_of request.entry) (call_of request.entry)) (plain_answer a) (reference_at setting.now holding.new (H.kept inner.new).state) (H.kept inner.old).seen (H.kept inner.new).seen) }
    ensures keeps { OnOk result (IsHolding setting.now holding.new) }
    ensures typed { OnOk result (TypedIfRoom H.step (reference_at setting.now holding.old (H.kept inner.old).state) (listed_of request.entry) (call_of request.entry)) }
{
    let owned = owned_kinds(&request.found.function.ty.result);
    if has_places(&holding.live, &owned) {
        denied(alloc, setting, holding, inner, request)
    } else {
        full::<H>(alloc, errors_in(request))
    }
}

/// First, weight.
fn weighed<H: Host>(
    alloc: Global,
    setting: &Setting,
    holding: &mut Holding,
    inner: &mut H,
    found: Found<'_>,
    call: &HostCall,
    noted: &[Atom],
) -> Result<Answer, NoMemory>
    requires setting { IsSetting setting.now }
    requires holding { IsHolding setting.now holding.old }
    requires named { IsNamed setting.now (plain_found found) (plain_call call.now) }
    requires small { IsSmall (plain_found found).function.ty }
    requires typed { are_of (plain_found found).function.ty.params (plain_call call.now).args ≡ true }
    requires noted { shown_all noted.now ≡ atoms_of (plain_found found).function.ty.params (plain_call call.now).args }
    ensures reaction { IfOk result (λ a. IsReaction (reference.weighed H.step (reference_at setting.now holding.old (H.kept inner.old).state) (plain_found found.entry) (plain_call call.now)) (plain_answer a) (reference_at setting.now holding.new (H.kept inner.new).state) (H.kept inner.old).seen (H.kept inner.new).seen) }
    ensures keeps { OnOk result (IsHolding setting.now holding.new) }
    ensures typed { OnOk result (TypedIfLight H.step (reference_at setting.now holding.old (H.kept inner.old).state) (plain_found found.entry) (plain_call call.now)) }
{
    match left_behind(noted, u64::from(setting.policy.transfer_limit)) {
        None => Ok(Answer::Trap),
        Some(left) => {
            let request = Request {
                policy: &setting.policy,
                found,
                call,
                noted,
                left,
            };
            with_room(alloc, setting, holding, inner, request)
        }
    }
}

/// The texts, lists and handles of a call's arguments.
fn noted_of(alloc: Global, found: Found<'_>, call: &HostCall) -> Result<Vec<Atom>, NoMemory>
    requires { IsSmall (plain_found found).function.ty }
    ensures { IfOk result (λ noted. shown_all noted.items ≡ atoms_of (plain_found found.entry).function.ty.params (plain_call call.now).args) }
{
    let mut noted = Vec::new(alloc);
    note_arguments(&found.function.ty.params, &call.args, &mut noted)?;
    Ok(noted)
}

/// Before the rules, what must hold of a call.
fn guarded<H: Host>(
    alloc: Global,
    setting: &Setting,
    holding: &mut Holding,
    inner: &mut H,
    found: Found<'_>,
    call: &HostCall,
) -> Result<Answer, NoMemory>
    requires setting { IsSetting setting.now }
    requires holding { IsHolding setting.now holding.old }
    requires named { IsNamed setting.now (plain_found found) (plain_call call.now) }
    requires small { IsSmall (plain_found found).function.ty }
    ensures reaction { IfOk result (λ a. IsReaction (reference.guarded H.step (reference_at setting.now holding.old (H.kept inner.old).state) (plain_call call.now) (Some (plain_found found.entry))) (plain_answer a) (reference_at setting.now holding.new (H.kept inner.new).state) (H.kept inner.old).seen (H.kept inner.new).seen) }
    ensures keeps { OnOk result (IsHolding setting.now holding.new) }
    ensures typed { OnOk result (TypedIfPassed H.step (reference_at setting.now holding.old (H.kept inner.old).state) (plain_found found.entry) (plain_call call.now)) }
{
    if !has_types(found, call) {
        return Ok(Answer::Trap);
    }
    let noted = noted_of(alloc, found, call)?;
    let noted = noted.as_slice();
    if are_live(&holding.live, noted) {
        weighed(alloc, setting, holding, inner, found, call, noted)
    } else {
        Ok(Answer::Trap)
    }
}

/// A call by its names.
fn called<H: Host>(
    alloc: Global,
    setting: &Setting,
    holding: &mut Holding,
    inner: &mut H,
    call: &HostCall,
) -> Result<Answer, NoMemory>
    requires setting { IsSetting setting.now }
    requires holding { IsHolding setting.now holding.old }
    ensures reaction { IfOk result (λ a. IsReaction (reference.calls H.step (reference_at setting.now holding.old (H.kept inner.old).state) (plain_call call.now)) (plain_answer a) (reference_at setting.now holding.new (H.kept inner.new).state) (H.kept inner.old).seen (H.kept inner.new).seen) }
    ensures keeps { OnOk result (IsHolding setting.now holding.new) }
    ensures typed { OnOk result (AsksTyped H.step (reference_at setting.now holding.old (H.kept inner.old).state) (plain_call call.now)) }
{
    let listed = &setting.listed;
    let func = &call.func;
    match listed.function(func.interface.as_str(), func.function.as_str()) {
        None => Ok(Answer::Trap),
        Some(found) => guarded(alloc, setting, holding, inner, found, call),
    }
}

/// A call of the reference host over a host that is asked.
pub fn answer_call<H: Host>(
    alloc: Global,
    state: &mut State,
    inner: &mut H,
    call: &HostCall,
) -> Result<Answer, NoMemory>
    requires { IsState state.old }
    ensures reaction { IfOk result (λ a. IsReaction (reference.calls H.step (reference_of state.old (H.kept inner.old).state) (plain_call call.now)) (plain_answer a) (reference_of state.new (H.kept inner.new).state) (H.kept inner.old).seen (H.kept inner.new).seen) }
    ensures keeps { OnOk result (IsState state.new) }
    // A value has the call's result type, and there is none exactly where the call has no result type.
    ensures typed { IfOk result (λ a. IsAnswerTo (plain_call call.now).answer (plain_answer a)) }
{
    state_is_sound(state);
    answers_are_typed::<H>();
    called(alloc, &state.setting, &mut state.holding, inner, call)
}
