//! What the functions that filter a list of the host share: how much of the transfer area is taken, and how an element is copied.

use adapter_pass::{Frame, Routine, long};

/// What a request is rounded up by: to a multiple of 8.
const ROUND: u64 = 7;

const MULTIPLE: u64 = 0xFFFF_FFF8;

/// The locals of sums of requests, each of 32 bits.
#[derive(Clone, Copy)]
pub struct Sums {
    pub total: u32,
    seven: u32,
    multiple: u32,
    sum: u32,
}

impl Sums {
    /// A sum in this local. The first three spare locals of 32 bits are taken.
    pub fn of(f: &Frame, total: u32) -> Sums {
        Sums {
            total,
            seven: f.spare.narrow(0),
            multiple: f.spare.narrow(1),
            sum: f.spare.narrow(2),
        }
    }

    /// What stands before the first request.
    pub fn begin(&self, f: &Frame) -> Routine {
        f.routine()
            .constant(self.seven, ROUND)
            .constant(self.multiple, MULTIPLE)
    }

    /// Adds a request of that many bytes, which a local says.
    pub fn add(&self, f: &Frame, length: u32) -> Routine {
        f.routine()
            .add(self.sum, length, self.seven)
            .both_bits(self.sum, self.sum, self.multiple)
            .add(self.total, self.total, self.sum)
    }
}

/// The locals of the copying of an element.
#[derive(Clone, Copy)]
pub struct Copied {
    /// Where it stands, and where it goes, which is then after it; of 32 bits.
    pub at: u32,
    pub out: u32,
    /// How many bytes an element has, and the last place at which one fits into the transfer area.
    pub step: u32,
    pub last: u32,
    /// These are lost.
    pub narrow: u32,
    pub broad: u32,
}

/// Copies an element of 16 bytes; traps where it would pass the transfer area.
pub fn copy_element(f: &Frame, l: &Copied) -> Routine {
    f.routine()
        .less(l.narrow, l.last, l.out)
        .when(l.narrow, f.routine().trap())
        .load(l.broad, l.at, long(0))
        .store(l.broad, l.out, long(0))
        .load(l.broad, l.at, long(8))
        .store(l.broad, l.out, long(8))
        .add(l.out, l.out, l.step)
}
