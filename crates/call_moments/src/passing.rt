//! Values that pass out of an instance and into one, with their handles and loans (Component Model, CanonicalABI.md, "Lifting and Lowering
//! Values").

#![tactic(auto, using(crate::proofs::Plans::plans, crate::proofs::Faults::faults))]

ghost use Rattle.std.specs.Prelude.{◌≡◌, IfOk, OnOk, Some, None, false, true};
ghost use Rattle.std.specs.List.{All};
ghost use Rattle.wit_types.specs.Plain.{plain};
ghost use Rattle.wit_types.specs.HasType.{HasType};
ghost use Rattle.abi_load.specs.Lifted.{words};
ghost use Rattle.wit_types.specs.PlainValue.{plain_value};
ghost use Rattle.abi_store.specs.Plan.{is_due};
ghost use Rattle.comp_worlds.specs.Hosts.{passed_by};
ghost use Rattle.comp_worlds.specs.Locals.{lifts, adds_handles};
ghost use Rattle.comp_worlds.specs.Passing.{blank, handles_of, most_params, most_results};
ghost use Rattle.instance_state.specs.Owning.{plain_for};
ghost use Rattle.instance_state.specs.Loans.{indexes_of, IsLentAs, AreLent};
ghost use Rattle.instance_state.specs.Shown.{config_of};
ghost use Rattle.instance_state.specs.Passed.{options_of, needs_memory, IsInStore, params_plan, result_plan};
ghost use Rattle.call_moments.specs.Stores.{Lifts, Stores, without_loans};

use crate::end::Stop;
use crate::frame::Call;
use crate::reached::has_memory_for;
use abi_store::StorePlan;
use core_slots::CoreValues;
use instance_state::{
    CallOptions, Instance, Loan, Owners, PassedFunc, PassedType, Room, lift, lower_params,
    lower_result,
};
use std::alloc::Global;
use wit_types::Value;

/// The value that an instance passes by flat values.
///
/// # Errors
///
/// `Trapped` exactly where `lift` traps, or the memory is not there in which values of the type lie.
pub fn lift_in(
    alloc: Global,
    instance: &mut Instance,
    room: &mut Room,
    loans: &mut Vec<Loan>,
    options: CallOptions,
    passed: &PassedType,
    flat: &CoreValues,
) -> Result<Value, Stop>
    ensures lifts { Lifts (needs_memory passed.now.most (plain passed.now.ty) ≡ true → IsInStore options.memory instance.old.code.store) (plain passed.now.ty) (lifts passed.now.most (plain passed.now.ty) (options_of options) (words flat.now) (config_of instance.old)) (config_of instance.new) (indexes_of loans.old.items) (indexes_of loans.new.items) result }
    ensures typed { IfOk result (λ value. HasType value passed.now.ty) }
    ensures code { instance.new.code ≡ instance.old.code }
    ensures lent { OnOk result (All (IsLentAs instance.old.handles) loans.old.items → All (IsLentAs instance.new.handles) loans.new.items) }
{
    if !has_memory_for(&instance.code, options, passed) {
        return Err(Stop::Trapped);
    }
    let value = lift(alloc, instance, room, loans, options, passed, flat)?;
    Ok(value)
}

/// The handles of parameters are added to the table of the instance that is called, which is closed while they are stored.
pub fn begin_params(
    alloc: Global,
    callee: &mut Instance,
    room: &mut Room,
    owners: &Owners,
    number: u32,
    passed: &PassedFunc,
    value: Value,
) -> Result<StorePlan, Stop>
    requires { passed.now.params.most ≡ most_params }
    ensures lowers { Stores (Unit {0}) (plain passed.now.params.ty) (blank (plain passed.now.params.ty) (plain_value value)) (params_plan (plain passed.now.params.ty)) (adds_handles (plain_for owners.now (Some number)) (handles_of (plain passed.now.params.ty) (passed_by (plain passed.now.params.ty) (plain_value value))) (config_of callee.old)) (config_of callee.new) result }
    ensures code { callee.new.code ≡ callee.old.code }
    ensures waits { IfOk result (λ plan. is_due plan.due ≡ false) }
{
    let plan = lower_params(alloc, callee, room, owners, number, &passed.params, value)?;
    callee.close();
    Ok(plan)
}

/// The loans of a call end, and the handles of its result are added to the table of the instance that called, which is closed while the
/// result is stored.
pub fn begin_result(
    alloc: Global,
    caller: &mut Instance,
    room: &mut Room,
    owners: &Owners,
    passed: &PassedFunc,
    call: &Call,
    value: Value,
) -> Result<StorePlan, Stop>
    requires { passed.now.result.most ≡ most_results }
    ensures lowers { Stores (AreLent call.now.loans.items caller.old.handles) (plain passed.now.result.ty) (blank (plain passed.now.result.ty) (plain_value value)) (result_plan (plain passed.now.result.ty) call.now.place) (adds_handles (plain_for owners.now None) (handles_of (plain passed.now.result.ty) (passed_by (plain passed.now.result.ty) (plain_value value))) (without_loans (indexes_of call.now.loans.items) (config_of caller.old))) (config_of caller.new) result }
    ensures code { caller.new.code ≡ caller.old.code }
    ensures comes { IfOk result (λ plan. is_due plan.due ≡ passed.now.result.spills) }
{
    caller.handles.end_loans(&call.loans)?;
    let plan = lower_result(
        alloc,
        caller,
        room,
        owners,
        &passed.result,
        call.place,
        value,
    )?;
    caller.close();
    Ok(plan)
}
