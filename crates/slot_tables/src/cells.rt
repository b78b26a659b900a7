//! Places that are read and written one at a time, and the two calls that are written over them. Each read and each write is one counted
//! step.

ghost use Rattle.std.specs.Prelude.{◌≡◌, ◌+◌, ◌<◌, ◌≤◌, ◌↔◌, ◌^◌, List, Some, None, map, length, IsSome, IsErr, IfOk, IfErr, OnErr, slice_get, slice_set};
ghost use Rattle.slot_tables.specs.Places.{entry_of, IsSound};
ghost use Rattle.slot_tables.specs.Entries.{entry_at, live_count};
ghost use Rattle.slot_tables.specs.declared.cells.Place.TheVariants.{Free, Used};

use std::sync::ledger::Ledger;
use virt_base::Steps;

/// What a place has.
#[derive(Debug, Drop)]
pub enum Place<E> {
    /// No entry. It names the next free place, unless it is the last.
    Free(Option<u32>),
    /// This entry.
    Used(E),
}

/// The places, numbered from 0, which are read and written one at a time. Each call is one step.
pub trait Cells<E> {
    ghost use Rattle.slot_tables.specs.declared.cells.Place.{Place};

    /// What the places have.
    ghost places: { Self → List (Place E) };

    /// The next free place that a free place names.
    fn read<L: Ledger>(&self, at: u32, steps: &mut Steps<L>) -> Option<u32>
        requires within { at < length (places self.now) }
        requires free { entry_at (map entry_of (places self.now)) at ≡ None }
        ensures value { slice_get (places self.now) at ≡ Some (Free result) }
        ensures step { steps.new ≡ steps.old + 1 };

    /// Puts a place's new content, and answers the old one.
    fn write<L: Ledger>(&mut self, at: u32, place: Place<E>, steps: &mut Steps<L>) -> Place<E>
        requires { at < length (places self.old) }
        ensures value { slice_get (places self.old) at ≡ Some result }
        ensures written { places self.new ≡ slice_set (places self.old) at place }
        ensures step { steps.new ≡ steps.old + 1 };
}

/// Every place has an entry. The one that did not fit is handed back.
#[derive(Debug, Drop)]
pub struct Full<E>(pub E);

/// Puts the entry into the first free place, and answers which that is.
///
/// `first` is the first free place, and `free` the number of them. Where no place is free, all stays as it was.
pub fn take_in<E, C: Cells<E>, L: Ledger>(
    cells: &mut C,
    first: &mut Option<u32>,
    free: &mut u32,
    entry: E,
    steps: &mut Steps<L>,
) -> Result<u32, Full<E>>
    requires sound { IsSound (C.places cells.old) first.old free.old }
    ensures sound { IsSound (C.places cells.new) first.new free.new }

    ensures first { IfOk result (λ rep. first.old ≡ Some rep) }
    ensures was_free { IfOk result (λ rep. slice_get (map entry_of (C.places cells.old)) rep ≡ Some None) }
    ensures taken { IfOk result (λ rep. map entry_of (C.places cells.new) ≡ slice_set (map entry_of (C.places cells.old)) rep (Some entry)) }

    ensures full { IsErr result ↔ (live_count (map entry_of (C.places cells.old)) ≡ length (C.places cells.old)) }
    ensures entry { IfErr result (λ full. full.0 ≡ entry) }
    ensures same { OnErr result (C.places cells.new ≡ C.places cells.old) }
    ensures steps { steps.new ≤ steps.old + 4 }
{
    let Some(at) = *first else {
        return Err(Full(entry));
    };
    match cells.write(at, Place::Used(entry), steps) {
        Place::Free(next) => *first = next,
        Place::Used(_) => unreachable!(),
    }
    *free -= 1;
    Ok(at)
}

/// Takes the entry out of a place, which becomes the first free one.
///
/// `first` is the first free place, and `free` the number of them.
pub fn free_in<E, C: Cells<E>, L: Ledger>(
    cells: &mut C,
    first: &mut Option<u32>,
    free: &mut u32,
    rep: u32,
    steps: &mut Steps<L>,
) -> E
    requires sound { IsSound (C.places cells.old) first.old free.old }
    requires few { length (C.places cells.old) < 2 ^ 32 }
    requires live { IsSome (entry_at (map entry_of (C.places cells.old)) rep) }
    ensures sound { IsSound (C.places cells.new) first.new free.new }

    ensures first { first.new ≡ Some rep }
    ensures entry { slice_get (map entry_of (C.places cells.old)) rep ≡ Some (Some result) }
    ensures freed { map entry_of (C.places cells.new) ≡ slice_set (map entry_of (C.places cells.old)) rep None }
    ensures steps { steps.new ≤ steps.old + 4 }
{
    let before = cells.write(rep, Place::Free(*first), steps);
    *first = Some(rep);
    *free += 1;
    match before {
        Place::Used(entry) => entry,
        Place::Free(_) => unreachable!(),
    }
}
