//! Values are lifted out of an instance, with their handles taken out of its table (Component Model, CanonicalABI.md, "Lifting and
//! Lowering Values").

#![tactic(auto)]

ghost use Rattle.std.specs.Prelude.{◌≡◌, ℕ, Some, None, IfOk, OnOk, IsErrOf, true};
ghost use Rattle.std.specs.List.{All};
ghost use Rattle.wit_types.specs.Plain.{plain};
ghost use Rattle.wit_types.specs.PlainValue.{plain_value};
ghost use Rattle.wit_types.specs.HasType.{HasType};
ghost use Rattle.abi_layout.specs.Loading.{low_word as low_bits};
ghost use Rattle.abi_load.specs.Lifted.{words};
ghost use Rattle.comp_worlds.specs.Passing.{lift_words};
ghost use Rattle.comp_worlds.specs.Locals.{lifts, bytes_in};
ghost use Rattle.instance_state.specs.Loans.{indexes_of, IsLentAs};
ghost use Rattle.instance_state.specs.Shown.{config_of};
ghost use Rattle.instance_state.specs.Passed.{options_of, needs_memory, IsInStore, fault_of, LiftsAs};

use crate::options::CallOptions;
use crate::passed_type::PassedType;
use crate::{HandleFault, Instance, Loan, Room, exchange_out};
use abi_load::{LoadFault, lift_flat, load};
use core_store::{CoreValue, Store};
use std::alloc::Global;
use virt_base::Items;
use wit_types::Value;

fn handle_fault(fault: LoadFault) -> HandleFault
    ensures { result ≡ fault_of fault }
{
    match fault {
        LoadFault::Trap => HandleFault::Trap,
        LoadFault::NoMemory => HandleFault::NoMemory,
    }
}

/// The place that the first flat value gives.
fn first_place(flat: &[CoreValue]) -> u32
    ensures { result ≡ low_bits (words flat.now) 0 }
{
    if flat.is_empty() {
        return 0;
    }
    match flat[0] {
        CoreValue::I32(number) => number,
        CoreValue::I64(number) => (number % 0x1_0000_0000) as u32,
        CoreValue::Ref(_) => 0,
    }
}

/// The value that flat values stand for, with indexes for its handles.
fn lift_value(
    alloc: Global,
    store: &Store,
    options: CallOptions,
    passed: &PassedType,
    flat: &Items<CoreValue>,
) -> Result<Value, LoadFault>
    requires memory { needs_memory passed.now.most (plain passed.now.ty) ≡ true → IsInStore options.memory store.now }
    ensures ok { IfOk result (λ v. lift_words passed.now.most (plain passed.now.ty) (bytes_in (options_of options) store.now) (words flat.now) ≡ Some (plain_value v)) }
    ensures trap { IsErrOf result LoadFault.Trap → lift_words passed.now.most (plain passed.now.ty) (bytes_in (options_of options) store.now) (words flat.now) ≡ None }
    ensures typed { IfOk result (λ v. HasType v passed.now.ty) }
{
    let memory = options.memory.unwrap_or(0);
    if passed.spills {
        let place = first_place(flat.as_slice());
        load(alloc, store, memory, &passed.ty, place as u64)
    } else {
        lift_flat(alloc, store, memory, &passed.ty, flat)
    }
}

/// The value that an instance passes by flat values: its own handles are taken out of the instance's table, borrowed ones are lent,
/// and the value has that for which they stand. After other loans are those of the indexes that are lent; each can end then, as long as
/// those before could.
///
/// # Errors
///
/// `Trap` exactly where lifting traps, or where an index is of no handle of its type's resource, or an own handle of the value is
/// borrowed or lent. Nothing is said of the handles then.
pub fn lift(
    alloc: Global,
    instance: &mut Instance,
    room: &mut Room,
    loans: &mut Vec<Loan>,
    options: CallOptions,
    passed: &PassedType,
    flat: &Items<CoreValue>,
) -> Result<Value, HandleFault>
    requires memory { needs_memory passed.now.most (plain passed.now.ty) ≡ true → IsInStore options.memory instance.old.code.store }
    ensures lifts { LiftsAs (plain passed.now.ty) (lifts passed.now.most (plain passed.now.ty) (options_of options) (words flat.now) (config_of instance.old)) (config_of instance.new) (indexes_of loans.old.items) (indexes_of loans.new.items) result }
    ensures typed { IfOk result (λ v. HasType v passed.now.ty) }
    ensures code { instance.new.code ≡ instance.old.code }
    ensures lent { OnOk result (All (IsLentAs instance.old.handles) loans.old.items → All (IsLentAs instance.new.handles) loans.new.items) }
{
    match lift_value(alloc, instance.code.store(), options, passed, flat) {
        Err(fault) => Err(handle_fault(fault)),
        Ok(value) => exchange_out(
            &mut instance.handles,
            room,
            loans,
            passed.holds,
            &passed.ty,
            value,
        ),
    }
}
