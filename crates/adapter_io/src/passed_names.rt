//! The first folder of a list that has a name.

use adapter_code::IntOp;
use adapter_pass::{Frame, ListAt, Routine, byte, number};

/// Repeats by their names.
const ELEMENTS: u32 = 10;

const BYTES: u32 = 11;

/// The bytes of an element: the host's name and the one that is shown, each by its place and length.
const PASS: u64 = 16;

/// The locals of a search, each of 32 bits.
#[derive(Clone, Copy)]
pub struct Search {
    /// The name that is sought, and its length.
    pub name: u32,
    pub length: u32,
    /// Whether an element has it, and which is the first that does.
    pub found: u32,
    pub at: u32,
}

/// Further locals of a search, each of 32 bits, which it loses.
#[derive(Clone, Copy)]
struct Compared {
    test: u32,
    same: u32,
    /// What is still to be compared, of either name.
    text: u32,
    there: u32,
    /// A byte of either.
    a: u32,
    b: u32,
    one: u32,
    count: u32,
}

impl Compared {
    fn of(f: &Frame) -> Compared {
        Compared {
            test: f.spare.narrow(0),
            same: f.spare.narrow(1),
            text: f.spare.narrow(2),
            there: f.spare.narrow(3),
            a: f.spare.narrow(4),
            b: f.spare.narrow(5),
            one: f.spare.narrow(6),
            count: f.spare.narrow(7),
        }
    }
}

fn compare_byte(f: &Frame, l: &Compared) -> Routine {
    let differ = f.routine().constant(l.same, 0).leave(BYTES);
    f.routine()
        .load(l.a, l.text, byte(0))
        .load(l.b, l.there, byte(0))
        .differ(l.test, l.a, l.b)
        .when(l.test, differ)
        .add(l.text, l.text, l.one)
        .add(l.there, l.there, l.one)
}

// Of names of one length whether they are equal.
fn compare(f: &Frame, s: &Search, l: &Compared) -> Routine {
    let found = f.routine().constant(s.found, 1).leave(ELEMENTS);
    f.routine()
        .load(l.text, s.at, number(0))
        .copy(l.there, s.name)
        .constant(l.same, 1)
        .repeat(BYTES, s.length, compare_byte(f, l))
        .when(l.same, found)
}

/// Looks for the first passed folder that the host calls by a name. Eight spare locals of 32 bits are lost.
pub fn find_passed(f: &Frame, passes: ListAt, s: &Search) -> Routine {
    let l = Compared::of(f);
    let turn = f
        .routine()
        .load(l.test, s.at, number(4))
        .equal(l.test, l.test, s.length)
        .when(l.test, compare(f, s, &l))
        .with(IntOp::Add, s.at, s.at, PASS, l.test);
    f.routine()
        .constant(s.found, 0)
        .constant(s.at, passes.place as u64)
        .constant(l.one, 1)
        .constant(l.count, passes.count as u64)
        .repeat(ELEMENTS, l.count, turn)
}
