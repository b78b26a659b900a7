//! Which calls of files or of a sink in memory are to fail, by their numbers, and how many failed.

ghost use Rattle.std.specs.Prelude.{◌≡◌, false};
ghost use Rattle.outside.specs.Fault.{one_more};
ghost use Rattle.outside.specs.Failing.{from_start, is_listed, after};

use std::marker::Model;
use virt_base::Items;

/// The numbers of the calls that are to fail, counted from 0.
pub type Places = Items<u64>;

/// Counts calls, of which some are to fail, and their faults. Both numbers stay at their greatest value.
#[derive(Drop)]
pub struct Failing {
    places: Places,
    next: u64,
    faults: u64,
}

impl Model for Failing {
    ghost use Rattle.outside.specs.Failing.{Calls};

    ghost Value = { Calls };

    ghost view = { λ f. record { failing = f.places; next = f.next; faults = f.faults } };
}

impl Failing {
    pub fn new(places: Places) -> Failing
        ensures { result ≡ from_start places }
    {
        Failing {
            places,
            next: 0,
            faults: 0,
        }
    }

    /// Counts a call, and says whether it is to fail.
    pub fn is_due(&mut self) -> bool
        ensures listed { result ≡ is_listed self.old }
        ensures counted { self.new ≡ after self.old false }
    {
        let next = self.next;
        let due = self.places.as_slice().iter().any(|place| *place == next);
        self.next = next.saturating_add(1);
        due
    }

    pub fn count_fault(&mut self)
        ensures { self.new ≡ record self.old { faults = one_more self.old.faults } }
    {
        self.faults = self.faults.saturating_add(1);
    }

    pub fn faults(&self) -> u64
        ensures { result ≡ self.now.faults }
    {
        self.faults
    }
}
