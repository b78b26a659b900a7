//! The handles of an answer become live: each gets a number, which takes its place in the value.

ghost use Rattle.std.specs.Prelude.{◌≡◌, ◌≤◌, ◌+◌, ◌++◌, ℕ, true, length, IfOk, OnOk};
ghost use Rattle.wit_types.specs.Plain.{plain_result};
ghost use Rattle.host_port.specs.Calls.{plain_option};
ghost use Rattle.reference_step.specs.Atoms.{handle_in, handles, renumbered_result, result_atoms};
ghost use Rattle.ref_rules.specs.Lives.{count_of_kind};
ghost use Rattle.ref_guards.specs.RoomEntering.{are_kinds, count_kind};
ghost use Rattle.ref_guards.specs.Noted.{shown, shown_all};
ghost use Rattle.ref_guards.specs.Entering.{with_handles, numbers_for, IsInside};

use crate::Atom;
use crate::standing::Standing;
use crate::values::renumber_result;
use ref_rules::LiveHandles;
use std::alloc::Global;
use virt_base::NoMemory;
use wit_types::{Value, WitType};

fn enter(
    live: &mut LiveHandles,
    standing: Standing,
    atom: Atom,
    numbers: &mut Vec<u32>,
) -> Result<(), NoMemory>
    requires kinds { are_kinds (handle_in (shown atom)) ≡ true }
    requires room { (kind : ℕ) → count_kind kind (handle_in (shown atom)) + count_of_kind kind live.old.handles ≤ live.old.slots }
    requires inside { IsInside live.old.files standing }
    ensures numbers { OnOk result (numbers.new.items ≡ numbers.old.items ++ numbers_for standing live.old.handles (handle_in (shown atom))) }
    ensures entered { OnOk result (live.new ≡ record live.old { handles = with_handles standing live.old.handles (handle_in (shown atom)) }) }
{
    match atom {
        Atom::Handle(kind, id) => {
            let number = live.add(kind, standing.content(id));
            numbers.push(number)?;
            Ok(())
        }
        Atom::Text(_) => Ok(()),
        Atom::Elements(_, _) => Ok(()),
    }
}

/// The handles among these enter, in order; it answers the numbers that they get.
fn enter_all(
    alloc: Global,
    live: &mut LiveHandles,
    standing: Standing,
    noted: &[Atom],
) -> Result<Vec<u32>, NoMemory>
    requires kinds { are_kinds (handles (shown_all noted.now)) ≡ true }
    requires room { (kind : ℕ) → count_kind kind (handles (shown_all noted.now)) + count_of_kind kind live.old.handles ≤ live.old.slots }
    requires inside { IsInside live.old.files standing }
    ensures numbers { IfOk result (λ numbers. numbers.items ≡ numbers_for standing live.old.handles (handles (shown_all noted.now))) }
    ensures entered { OnOk result (live.new ≡ record live.old { handles = with_handles standing live.old.handles (handles (shown_all noted.now)) }) }
{
    let mut numbers = Vec::new(alloc);
    for atom in noted {
        enter(live, standing, *atom, &mut numbers)?;
    }
    Ok(numbers)
}

/// The handles of an answer enter, of which the texts, lists and handles were noted; it answers the value with the numbers that they get.
pub fn enter_value(
    alloc: Global,
    live: &mut LiveHandles,
    standing: Standing,
    ty: &Option<WitType>,
    value: Option<Value>,
    noted: &[Atom],
) -> Result<Option<Value>, NoMemory>
    requires noted { shown_all noted.now ≡ result_atoms (plain_result ty.now) (plain_option value) }
    requires kinds { are_kinds (handles (result_atoms (plain_result ty.now) (plain_option value))) ≡ true }
    requires room { (kind : ℕ) → count_kind kind (handles (result_atoms (plain_result ty.now) (plain_option value))) + count_of_kind kind live.old.handles ≤ live.old.slots }
    requires inside { IsInside live.old.files standing }
    ensures value { IfOk result (λ v. plain_option v ≡ renumbered_result (plain_result ty.now) (plain_option value) (numbers_for standing live.old.handles (handles (result_atoms (plain_result ty.now) (plain_option value))))) }
    ensures entered { OnOk result (live.new ≡ record live.old { handles = with_handles standing live.old.handles (handles (result_atoms (plain_result ty.now) (plain_option value))) }) }
{
    let numbers = enter_all(alloc, live, standing, noted)?;
    Ok(renumber_result(ty, value, numbers.as_slice()))
}
