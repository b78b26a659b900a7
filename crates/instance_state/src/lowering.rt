//! Values are lowered into an instance: their handles are added to its table, and storing them is planned (Component Model,
//! CanonicalABI.md, "Lifting and Lowering Values").

#![tactic(auto)]

ghost use Rattle.std.specs.Prelude.{◌≡◌, ◌≤◌, length, Some, None};
ghost use Rattle.wit_types.specs.Plain.{plain};
ghost use Rattle.wit_types.specs.PlainValue.{plain_value};
ghost use Rattle.wit_types.specs.Layout.{flat_of};
ghost use Rattle.abi_store.specs.Targets.{plan_for};
ghost use Rattle.abi_store.specs.declared.target.Target.TheVariants.{Flat as ToFlats};
ghost use Rattle.comp_worlds.specs.Hosts.{passed_by};
ghost use Rattle.comp_worlds.specs.Passing.{blank, handles_of, most_params, most_results};
ghost use Rattle.comp_worlds.specs.Locals.{adds_handles};
ghost use Rattle.instance_state.specs.Owning.{plain_for};
ghost use Rattle.instance_state.specs.Shown.{config_of};
ghost use Rattle.instance_state.specs.Passed.{LowersAs, params_plan, result_plan};

use crate::passed_type::PassedType;
use crate::{HandleFault, Instance, Owners, Room, exchange_in};
use abi_store::{StorePlan, Target};
use std::alloc::Global;
use wit_types::Value;

fn lower(
    alloc: Global,
    instance: &mut Instance,
    room: &mut Room,
    owners: &Owners,
    into: Option<u32>,
    passed: &PassedType,
    target: Target,
    value: Value,
) -> Result<StorePlan, HandleFault>
    requires flat { target ≡ ToFlats → length (flat_of passed.now.ty) ≤ 16 }
    ensures lowers { LowersAs (plain passed.now.ty) (blank (plain passed.now.ty) (plain_value value)) (plan_for target (plain passed.now.ty)) (adds_handles (plain_for owners.now into) (handles_of (plain passed.now.ty) (passed_by (plain passed.now.ty) (plain_value value))) (config_of instance.old)) (config_of instance.new) result }
    ensures code { instance.new.code ≡ instance.old.code }
{
    let indexed = exchange_in(
        alloc,
        &mut instance.handles,
        room,
        owners,
        into,
        passed.holds,
        &passed.ty,
        value,
    )?;
    match StorePlan::begin(alloc, indexed, &passed.ty, target) {
        Ok(plan) => Ok(plan),
        Err(_) => Err(HandleFault::NoMemory),
    }
}

/// Adds the handles of parameters to the table of the instance that is called, and plans how they are stored there: in memory that
/// is asked for where they spill, and else among flat values.
///
/// # Errors
///
/// `Trap` exactly where more handles would be live than a table has. Nothing is said of the instance then.
pub fn lower_params(
    alloc: Global,
    instance: &mut Instance,
    room: &mut Room,
    owners: &Owners,
    into: u32,
    passed: &PassedType,
    value: Value,
) -> Result<StorePlan, HandleFault>
    requires most { passed.now.most ≡ most_params }
    ensures lowers { LowersAs (plain passed.now.ty) (blank (plain passed.now.ty) (plain_value value)) (params_plan (plain passed.now.ty)) (adds_handles (plain_for owners.now (Some into)) (handles_of (plain passed.now.ty) (passed_by (plain passed.now.ty) (plain_value value))) (config_of instance.old)) (config_of instance.new) result }
    ensures code { instance.new.code ≡ instance.old.code }
{
    let target = if passed.spills {
        Target::Spill
    } else {
        Target::Flat
    };
    lower(
        alloc,
        instance,
        room,
        owners,
        Some(into),
        passed,
        target,
        value,
    )
}

/// Adds the handles of a result to the table of the instance that called, and plans how it is stored there: at the place that the
/// caller gave where it spills, and else among flat values.
///
/// # Errors
///
/// `Trap` exactly where more handles would be live than a table has. Nothing is said of the instance then.
pub fn lower_result(
    alloc: Global,
    instance: &mut Instance,
    room: &mut Room,
    owners: &Owners,
    passed: &PassedType,
    place: u32,
    value: Value,
) -> Result<StorePlan, HandleFault>
    requires most { passed.now.most ≡ most_results }
    ensures lowers { LowersAs (plain passed.now.ty) (blank (plain passed.now.ty) (plain_value value)) (result_plan (plain passed.now.ty) place) (adds_handles (plain_for owners.now None) (handles_of (plain passed.now.ty) (passed_by (plain passed.now.ty) (plain_value value))) (config_of instance.old)) (config_of instance.new) result }
    ensures code { instance.new.code ≡ instance.old.code }
{
    let target = if passed.spills {
        Target::At(place)
    } else {
        Target::Flat
    };
    lower(alloc, instance, room, owners, None, passed, target, value)
}
