//! The handles of a value are exchanged: on its way a value has what they stand for, inside an instance the indexes of the instance's
//! table.

ghost use Rattle.std.specs.Prelude.{◌≡◌, [], length, OnOk};
ghost use Rattle.std.specs.List.{All};
ghost use Rattle.wit_types.specs.Plain.{plain};
ghost use Rattle.wit_types.specs.PlainValue.{plain_value};
ghost use Rattle.abi_layout.specs.Handles.{handles as handles_in};
ghost use Rattle.comp_worlds.specs.Passing.{named_in, lift_handles, add_handles, handles_of};
ghost use Rattle.comp_worlds.specs.Hosts.{passed_by};
ghost use Rattle.value_handles.specs.Whether.{has_handles};
ghost use Rattle.instance_state.specs.Owning.{plain_for};
ghost use Rattle.instance_state.specs.Loans.{indexes_of, IsLentAs};
ghost use Rattle.instance_state.specs.Exchanges.{GoesOut, GoesIn};

use crate::{HandleFault, Handles, Loan, Owners};
use std::alloc::Global;
use value_handles::{ValueHandles, collect_handles, renumber};
use wit_types::{Value, WitType};

/// Room that exchanges use again and again.
#[derive(Debug, Drop)]
pub struct Room {
    pub found: ValueHandles,
    pub numbers: Vec<u32>,
}

impl Room {
    /// No room yet. It takes no memory.
    pub fn new(alloc: Global) -> Room {
        Room {
            found: Vec::new(alloc),
            numbers: Vec::new(alloc),
        }
    }
}

/// Takes the own handles of a value out of the table, and lends the borrowed ones: the value with that for which they stand, and after
/// other loans those of the indexes that are lent. Each loan can end then, as long as those before could. `holds` says whether values of
/// the type may hold handles.
///
/// # Errors
///
/// `Trap` exactly where an index is of no handle of its type's resource, or an own handle of the value is borrowed or lent. Nothing is said
/// of the handles then.
pub fn exchange_out(
    handles: &mut Handles,
    room: &mut Room,
    loans: &mut Vec<Loan>,
    holds: bool,
    ty: &WitType,
    value: Value,
) -> Result<Value, HandleFault>
    requires { has_handles (plain ty.now) ≡ holds }
    ensures goes { GoesOut (plain ty.now) (plain_value value) (lift_handles (named_in (handles_in (plain ty.now) (plain_value value))) handles.old) handles.new (indexes_of loans.old.items) (indexes_of loans.new.items) result }
    ensures lent { OnOk result (All (IsLentAs handles.old) loans.old.items → All (IsLentAs handles.new) loans.new.items) }
{
    if !holds {
        return Ok(value);
    }
    room.found.clear();
    room.numbers.clear();
    let Ok(()) = collect_handles(&value, ty, &mut room.found) else {
        return Err(HandleFault::NoMemory);
    };
    handles.lift(&room.found, &mut room.numbers, loans)?;
    let mut at = 0;
    Ok(renumber(value, ty, &room.numbers, &mut at))
}

/// Adds the handles of a value, which is lowered into an instance that is called, or of a result: the value with their indexes.
///
/// # Errors
///
/// `Trap` exactly where more handles would be live than a table has. Nothing is said of the handles then.
pub fn exchange_in(
    alloc: Global,
    handles: &mut Handles,
    room: &mut Room,
    owners: &Owners,
    into: Option<u32>,
    holds: bool,
    ty: &WitType,
    value: Value,
) -> Result<Value, HandleFault>
    requires { has_handles (plain ty.now) ≡ holds }
    ensures { GoesIn (plain ty.now) (plain_value value) (add_handles (plain_for owners.now into) (handles_of (plain ty.now) (passed_by (plain ty.now) (plain_value value))) handles.old) handles.new result }
{
    if !holds {
        return Ok(value);
    }
    room.found.clear();
    room.numbers.clear();
    let Ok(()) = collect_handles(&value, ty, &mut room.found) else {
        return Err(HandleFault::NoMemory);
    };
    handles.lower(alloc, owners, into, &room.found, &mut room.numbers)?;
    let mut at = 0;
    Ok(renumber(value, ty, &room.numbers, &mut at))
}
