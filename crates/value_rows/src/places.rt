//! A test of slot tables: places are given until none is free, and one that was freed is given again.

ghost use Rattle.std.specs.Prelude.{◌≡◌, ◌<◌};

use crate::rows::is_printed;
use slot_tables::{Full, Slots};
use std::alloc::Global;
use std::marker::Brand;
use std::sync::ledger::{Blank, Ledger};
use std::test::Fail;
use virt_base::Steps;

// Two places are given, a third is not there, and what was freed is given again.
fn give_and_free<L: Ledger>(
    alloc: Global,
    slots: &mut Slots<u8>,
    steps: &mut Steps<L>,
) -> Result<(), Fail> {
    let empty = slots.room();
    let Ok(first) = slots.take(b'a', steps) else {
        return Err(Fail::new("no first place"));
    };
    let Ok(second) = slots.take(b'b', steps) else {
        return Err(Fail::new("no second place"));
    };
    let full = slots.room();
    let refused = match slots.take(b'c', steps) {
        Ok(_) => return Err(Fail::new("a third entry fits")),
        Err(Full(entry)) => entry,
    };
    let entries = (*slots.get(first), *slots.get(second));
    let freed = slots.free(first, steps);
    let left = slots.room();
    let Ok(again) = slots.take(b'd', steps) else {
        return Err(Fail::new("no place that was freed"));
    };
    if first == second || again != first {
        return Err(Fail::new("other places"));
    }
    // the bytes of `a`, `b`, `c` and `a`
    is_printed(
        alloc,
        "places",
        &(empty, full, left, entries, refused, freed),
        "(2, 0, 1, (97, 98), 99, 97)",
    )
}

fn gives_and_frees<L: Ledger>(alloc: Global, blank: Blank) -> Result<(), Fail>
    requires name { blank.name ≡ L.name }
    requires parts { blank.parts ≡ L.parts }
    requires some { 0 < L.parts }
{
    let mut steps = Steps::<L>::start(blank);
    let mut slots: Slots<u8> = Slots::new(alloc, 2)?;
    give_and_free(alloc, &mut slots, &mut steps)
}

#[test]
fn places_are_given_and_freed(rt: HostRuntime) -> Result<(), Fail> {
    let alloc = rt.alloc();
    gives_and_frees::<Brand>(alloc, Blank::new(1))?;
    let none: Slots<u8> = Slots::new(alloc, 0)?;
    is_printed(alloc, "no places", &none.room(), "0")
}
