//! Places in memory, with a list of the free ones. Contracts see a list of entries.

ghost use Rattle.std.specs.Prelude.{◌≡◌, ◌+◌, ◌≤◌, ◌<◌, ◌↔◌, Some, None, length, replicate, IsSome, IsErr, IfOk, IfErr, OnErr, slice_get, slice_set};
ghost use Rattle.slot_tables.specs.Entries.{entry_at, live_count};

use crate::cells::{Cells, Full, Place, free_in, take_in};
use std::alloc::Global;
use std::marker::Model;
use std::mem;
use std::sync::ledger::Ledger;
use virt_base::{NoMemory, Steps};

// The places in memory.
#[derive(Debug, Drop)]
struct Kept<E> {
    places: Vec<Place<E>>,
}

impl<E> Cells<E> for Kept<E> {
    ghost places = { λ k. k.places.items };

    fn read<L: Ledger>(&self, at: u32, steps: &mut Steps<L>) -> Option<u32> {
        steps.tick();
        match &self.places[at as usize] {
            Place::Free(next) => *next,
            Place::Used(_) => unreachable!(),
        }
    }

    // The clauses are the trait's, written out, since a place is handed over by value.
    fn write<L: Ledger>(&mut self, at: u32, place: Place<E>, steps: &mut Steps<L>) -> Place<E>
        requires { at < length self.old.places.items }
        ensures value { slice_get self.old.places.items at ≡ Some result }
        ensures written { self.new.places.items ≡ slice_set self.old.places.items at place }
        ensures step { steps.new ≡ steps.old + 1 }
    {
        steps.tick();
        mem::replace(&mut self.places[at as usize], place)
    }
}

/// Entries in a fixed number of places, each named by its place, its rep, from 0.
///
/// Contracts see the list of the places, each with its entry or nothing.
#[derive(Debug, Drop)]
pub struct Slots<E> {
    cells: Kept<E>,
    first: Option<u32>,
    free: u32,
}

impl<E> Model for Slots<E> {
    ghost use Rattle.std.specs.Prelude.{◌<◌, ◌^◌, List, Option, map, length};
    ghost use Rattle.std.specs.Coded.{coded_list, coded_option};
    ghost use Rattle.slot_tables.specs.Places.{entry_of, IsSound};

    ghost Value = { List (Option E) };

    ghost coded = { coded_list (coded_option E.code) };

    ghost view = { λ s. map entry_of s.cells.places.items };

    ghost invariant = { λ s. IsSound s.cells.places.items s.first s.free × (length s.cells.places.items < 2 ^ 32) };
}

impl<E> Slots<E> {
    /// That many free places. This is the only call that takes memory.
    pub fn new(alloc: Global, capacity: u32) -> Result<Self, NoMemory>
        ensures { IfOk result (λ slots. slots ≡ replicate capacity None) }
    {
        let mut places: Vec<Place<E>> = Vec::with_capacity(alloc, capacity as usize)?;
        let mut first = None;
        for at in 0..capacity {
            places.push_reserved(Place::Free(first));
            first = Some(at);
        }
        Ok(Slots {
            cells: Kept { places },
            first,
            free: capacity,
        })
    }

    /// Puts an entry into a free place, and answers which that is. It is the one that was freed last, if any was.
    ///
    /// # Errors
    ///
    /// `Full` with the entry, exactly where every place has one. All stays as it was.
    pub fn take<L: Ledger>(&mut self, entry: E, steps: &mut Steps<L>) -> Result<u32, Full<E>>
        ensures was_free { IfOk result (λ rep. slice_get self.old rep ≡ Some None) }
        ensures taken { IfOk result (λ rep. self.new ≡ slice_set self.old rep (Some entry)) }

        ensures full { IsErr result ↔ (live_count self.old ≡ length self.old) }
        ensures entry { IfErr result (λ full. full.0 ≡ entry) }
        ensures same { OnErr result (self.new ≡ self.old) }
        ensures steps { steps.new ≤ steps.old + 4 }
    {
        let Slots { cells, first, free } = self;
        take_in(cells, first, free, entry, steps)
    }

    /// The entry at a live place.
    pub fn get(&self, rep: u32) -> &E
        requires { IsSome (entry_at self.now rep) }
        ensures { slice_get self.now rep ≡ Some (Some result.now) }
    {
        match &self.cells.places[rep as usize] {
            Place::Used(entry) => entry,
            Place::Free(_) => unreachable!(),
        }
    }

    /// Takes the entry out of a live place, which is free from then on.
    pub fn free<L: Ledger>(&mut self, rep: u32, steps: &mut Steps<L>) -> E
        requires { IsSome (entry_at self.old rep) }
        ensures entry { slice_get self.old rep ≡ Some (Some result) }
        ensures freed { self.new ≡ slice_set self.old rep None }
        ensures steps { steps.new ≤ steps.old + 4 }
    {
        let Slots { cells, first, free } = self;
        free_in(cells, first, free, rep, steps)
    }

    /// How many more entries fit: the capacity less the live entries.
    pub fn room(&self) -> u32
        ensures { result + live_count self.now ≡ length self.now }
    {
        self.free
    }
}
