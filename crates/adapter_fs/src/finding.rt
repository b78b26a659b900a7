//! The search for a folder's child, by halves.

use crate::names::{BYTES, COMPARED, PROBES};
use crate::nodes::{FIRST, LAST, NAME, NAME_END, NodesAt};
use adapter_pass::{Frame, Routine, byte};

/// A search, by the locals that it reads, and those that it sets.
#[derive(Clone, Copy, Debug)]
pub struct Search {
    /// The folder's record.
    pub record: u32,
    /// The name that is looked for: where it begins, and its length.
    pub part: u32,
    pub length: u32,
    /// This one holds 1.
    pub one: u32,
    /// This one holds the bytes of a record.
    pub size: u32,
    /// The child.
    pub child: u32,
    /// Whether there is one: 1 or 0.
    pub found: u32,
}

/// The locals that a search loses.
#[derive(Clone, Copy)]
struct Lost {
    low: u32,
    high: u32,
    digits: u32,
    test: u32,
    name: u32,
    count: u32,
    shared: u32,
    there: u32,
    byte: u32,
    other: u32,
}

fn lost_of(f: &Frame) -> Lost {
    Lost {
        low: f.spare.narrow(0),
        high: f.spare.narrow(1),
        digits: f.spare.narrow(2),
        test: f.spare.narrow(3),
        name: f.spare.narrow(4),
        count: f.spare.narrow(5),
        shared: f.spare.narrow(6),
        there: f.spare.narrow(7),
        byte: f.spare.narrow(8),
        other: f.spare.narrow(9),
    }
}

// Goes on to the next byte of both names; where the bytes differ, `test` says whether the child's name is less.
fn compare_byte(f: &Frame, nodes: NodesAt, s: &Search, l: &Lost) -> Routine {
    let differs = f.routine().less(l.test, l.byte, l.other).leave(COMPARED);
    f.routine()
        .load(l.byte, l.name, byte(nodes.bytes))
        .load(l.other, l.there, byte(0))
        .differ(l.test, l.byte, l.other)
        .when(l.test, differs)
        .add(l.name, l.name, s.one)
        .add(l.there, l.there, s.one)
}

// Sets `test` to whether the child's name is less; where the names are equal the search ends.
fn compare(f: &Frame, nodes: NodesAt, s: &Search, l: &Lost) -> Routine {
    f.routine()
        .repeat(BYTES, l.shared, compare_byte(f, nodes, s, l))
        .less(l.test, l.count, s.length)
        .equal(s.found, l.count, s.length)
        .when(s.found, f.routine().leave(PROBES))
}

// Halves what is left of the children.
fn probe(f: &Frame, nodes: NodesAt, s: &Search, l: &Lost) -> Routine {
    f.routine()
        .less(l.test, l.low, l.high)
        .unless(l.test, f.routine().leave(PROBES))
        .add(s.child, l.low, l.high)
        .shift_right(s.child, s.child, s.one)
        .multiply(l.test, s.child, s.size)
        .load(l.name, l.test, nodes.field(NAME))
        .load(l.count, l.test, nodes.field(NAME_END))
        .subtract(l.count, l.count, l.name)
        .copy(l.there, s.part)
        .copy(l.shared, s.length)
        .less(l.test, l.count, s.length)
        .when(l.test, f.routine().copy(l.shared, l.count))
        .repeat(COMPARED, s.one, compare(f, nodes, s, l))
        .choose(
            l.test,
            f.routine().add(l.low, s.child, s.one),
            f.routine().copy(l.high, s.child),
        )
}

/// Looks for the child of a name in the folder at a record. The first ten spare locals of 32 bits are lost.
pub fn find(f: &Frame, nodes: NodesAt, s: &Search) -> Routine {
    let l = lost_of(f);
    f.routine()
        .load(l.low, s.record, nodes.field(FIRST))
        .load(l.high, s.record, nodes.field(LAST))
        .constant(s.found, 0)
        .constant(l.digits, nodes.digits() as u64)
        .repeat(PROBES, l.digits, probe(f, nodes, s, &l))
}
