//! Routines that go over the numbers that files may have.

use crate::places::{ENTRY, ScratchAt};
use adapter_code::IntOp;
use adapter_pass::{Frame, Routine, Spare};

/// The locals of a loop over all numbers: the entry of the number, the number, and what the loop itself needs.
#[derive(Clone, Copy)]
pub struct Numbers {
    pub entry: u32,
    pub number: u32,
    pub step: u32,
    pub one: u32,
    pub turns: u32,
}

impl Numbers {
    /// The first five spare locals of 32 bits.
    pub fn of(spare: &Spare) -> Numbers {
        Numbers {
            entry: spare.narrow(0),
            number: spare.narrow(1),
            step: spare.narrow(2),
            one: spare.narrow(3),
            turns: spare.narrow(4),
        }
    }

    /// Runs a routine for each number, from 0 on. After the last one `entry` and `number` are those of the number of files.
    pub fn each(&self, f: &Frame, s: ScratchAt, name: u32, body: Routine) -> Routine {
        let onward = body
            .add(self.entry, self.entry, self.step)
            .add(self.number, self.number, self.one);
        f.routine()
            .constant(self.entry, s.entries as u64)
            .constant(self.number, 0)
            .constant(self.step, ENTRY as u64)
            .constant(self.one, 1)
            .constant(self.turns, s.files as u64)
            .repeat(name, self.turns, onward)
    }

    /// Runs a routine for each number, from the last one on, right after `each`.
    pub fn each_back(&self, f: &Frame, name: u32, body: Routine) -> Routine {
        let back = f
            .routine()
            .subtract(self.entry, self.entry, self.step)
            .subtract(self.number, self.number, self.one)
            .part(body);
        f.routine().repeat(name, self.turns, back)
    }
}

/// Sets a local to where the entry of a number begins.
pub fn entry_of(f: &Frame, s: ScratchAt, number: u32, to: u32) -> Routine {
    f.routine()
        .with(IntOp::Mul, to, number, ENTRY as u64, f.scratch)
        .with(IntOp::Add, to, to, s.entries as u64, f.scratch)
}
