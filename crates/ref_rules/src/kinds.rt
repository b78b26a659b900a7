//! The numbers of the live handles of each kind, each at its place in the slot table of the kind.

ghost use Rattle.std.specs.Prelude.{◌≡◌, ◌<◌, Some, None, [], IsSome, IfOk, length, replicate, get_or, slice_get, slice_set};
ghost use Rattle.slot_tables.specs.Entries.{entry_at, live_count};

use slot_tables::Slots;
use std::alloc::Global;
use std::marker::Brand;
use std::sync::ledger::{Blank, Ledger};
use virt_base::{NoMemory, Steps};

/// How many kinds of resources are listed.
pub const KINDS: u32 = 14;

/// That many free places of each kind.
pub fn free_places(alloc: Global, slots: u32) -> Result<Vec<Slots<u32>>, NoMemory>
    ensures { IfOk result (λ kinds. kinds.items ≡ replicate KINDS (replicate slots None)) }
{
    let mut kinds = Vec::new(alloc);
    for _kind in 0..KINDS {
        kinds.push(Slots::new(alloc, slots)?)?;
    }
    Ok(kinds)
}

fn put_counted<L: Ledger>(slots: &mut Slots<u32>, id: u32, blank: Blank) -> u32
    requires name { blank.name ≡ L.name }
    requires parts { blank.parts ≡ L.parts }
    requires some { 0 < L.parts }
    requires room { live_count slots.old < length slots.old }
    ensures was_free { slice_get slots.old result ≡ Some None }
    ensures put { slots.new ≡ slice_set slots.old result (Some id) }
{
    let mut steps = Steps::<L>::start(blank);
    match slots.take(id, &mut steps) {
        Ok(rep) => rep,
        Err(_) => unreachable!(),
    }
}

fn free_counted<L: Ledger>(slots: &mut Slots<u32>, rep: u32, blank: Blank)
    requires name { blank.name ≡ L.name }
    requires parts { blank.parts ≡ L.parts }
    requires some { 0 < L.parts }
    requires live { IsSome (entry_at slots.old rep) }
    ensures { slots.new ≡ slice_set slots.old rep None }
{
    let mut steps = Steps::<L>::start(blank);
    let _ = slots.free(rep, &mut steps);
}

/// Puts a number at a free place of a kind, and answers which that is.
pub fn put_number(kinds: &mut Vec<Slots<u32>>, kind: u32, id: u32) -> u32
    requires kind { kind < length kinds.old.items }
    requires room { live_count (get_or kinds.old.items kind []) < length (get_or kinds.old.items kind []) }
    ensures was_free { slice_get (get_or kinds.old.items kind []) result ≡ Some None }
    ensures put { kinds.new.items ≡ slice_set kinds.old.items kind (slice_set (get_or kinds.old.items kind []) result (Some id)) }
{
    let slots = &mut kinds[kind as usize];
    put_counted::<Brand>(slots, id, Blank::new(1))
}

/// Frees a place of a kind.
pub fn free_number(kinds: &mut Vec<Slots<u32>>, kind: u32, rep: u32)
    requires kind { kind < length kinds.old.items }
    requires live { IsSome (entry_at (get_or kinds.old.items kind []) rep) }
    ensures { kinds.new.items ≡ slice_set kinds.old.items kind (slice_set (get_or kinds.old.items kind []) rep None) }
{
    let slots = &mut kinds[kind as usize];
    free_counted::<Brand>(slots, rep, Blank::new(1));
}
