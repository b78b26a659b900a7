//! Whether a list of names in byte order has a name, by halves.

use adapter_pass::{Frame, ListAt, Routine, byte, number};

/// Repeats by their names.
const PROBES: u32 = 10;

const COMPARED: u32 = 11;

const BYTES: u32 = 12;

/// The locals of a search, each of 32 bits.
#[derive(Clone, Copy)]
struct Halves {
    /// The name that is sought, and its length.
    name: u32,
    length: u32,
    /// Whether it is there.
    found: u32,
    /// From where on, and up to where, it may still stand.
    low: u32,
    high: u32,
    middle: u32,
    /// The name in the middle: its element, what of it is still to be compared, and its length.
    element: u32,
    text: u32,
    count: u32,
    /// What of the sought name is still to be compared, and how many bytes are compared at most.
    there: u32,
    least: u32,
    /// How many bytes the sought name shares with the last name below it and with the first one above it that were compared; all
    /// names between these two begin with the lesser of both.
    shared_low: u32,
    shared_high: u32,
    /// How many bytes it shares with the name in the middle.
    shared: u32,
    /// A byte of either.
    a: u32,
    b: u32,
    /// Whether the name in the middle is below the sought one.
    below: u32,
    one: u32,
    shift: u32,
    probes: u32,
}

impl Halves {
    fn of(f: &Frame, name: u32, length: u32, found: u32) -> Halves {
        let spare = f.spare;
        Halves {
            name,
            length,
            found,
            low: spare.narrow(0),
            high: spare.narrow(1),
            middle: spare.narrow(2),
            element: spare.narrow(3),
            text: spare.narrow(4),
            count: spare.narrow(5),
            there: spare.narrow(6),
            least: spare.narrow(7),
            a: spare.narrow(8),
            b: spare.narrow(9),
            below: spare.narrow(10),
            one: spare.narrow(11),
            shift: spare.narrow(12),
            probes: spare.narrow(13),
            shared_low: spare.narrow(14),
            shared_high: spare.narrow(15),
            shared: spare.narrow(16),
        }
    }
}

// Compares a byte: the first ones that differ say which name is below the other.
fn compare_byte(f: &Frame, l: &Halves) -> Routine {
    let differ = f.routine().less(l.below, l.a, l.b).leave(COMPARED);
    f.routine()
        .load(l.a, l.text, byte(0))
        .load(l.b, l.there, byte(0))
        .differ(l.below, l.a, l.b)
        .when(l.below, differ)
        .add(l.text, l.text, l.one)
        .add(l.there, l.there, l.one)
}

// Where all bytes of the shorter name are equal, the lengths decide.
fn compare(f: &Frame, l: &Halves) -> Routine {
    let equal = f.routine().leave(PROBES);
    f.routine()
        .repeat(BYTES, l.least, compare_byte(f, l))
        .less(l.below, l.count, l.length)
        .equal(l.found, l.count, l.length)
        .when(l.found, equal)
}

fn read_middle(f: &Frame, list: ListAt, l: &Halves) -> Routine {
    let shorter = f.routine().copy(l.least, l.count);
    f.routine()
        .add(l.middle, l.low, l.high)
        .shift_right(l.middle, l.middle, l.one)
        .shift_left(l.element, l.middle, l.shift)
        .load(l.text, l.element, number(list.place))
        .load(l.count, l.element, number(list.place.saturating_add(4)))
        .copy(l.least, l.length)
        .less(l.below, l.count, l.length)
        .when(l.below, shorter)
}

// What is known to be equal is not compared again.
fn skip_shared(f: &Frame, l: &Halves) -> Routine {
    let high = f.routine().copy(l.shared, l.shared_high);
    f.routine()
        .copy(l.shared, l.shared_low)
        .less(l.below, l.shared_high, l.shared_low)
        .when(l.below, high)
        .add(l.text, l.text, l.shared)
        .add(l.there, l.name, l.shared)
        .subtract(l.least, l.least, l.shared)
}

fn probe(f: &Frame, list: ListAt, l: &Halves) -> Routine {
    let behind = f
        .routine()
        .add(l.low, l.middle, l.one)
        .copy(l.shared_low, l.shared);
    let before = f
        .routine()
        .copy(l.high, l.middle)
        .copy(l.shared_high, l.shared);
    f.routine()
        .less(l.below, l.low, l.high)
        .unless(l.below, f.routine().leave(PROBES))
        .part(read_middle(f, list, l))
        .part(skip_shared(f, l))
        .repeat(COMPARED, l.one, compare(f, l))
        .subtract(l.shared, l.there, l.name)
        .choose(l.below, behind, before)
}

// After that many probes no element of that many is left: each leaves less than half of them.
fn probes_in(count: u32) -> u64 {
    32u32.saturating_sub(count.leading_zeros()) as u64
}

/// Sets `found` to 1 where the list has the name, and else to 0. An element has two to the `shift` bytes, of which the first are its
/// name's place and length; names stand in byte order, each once. Seventeen spare locals of 32 bits are lost.
pub fn find_by_halves(
    f: &Frame,
    list: ListAt,
    shift: u64,
    name: u32,
    length: u32,
    found: u32,
) -> Routine {
    let l = Halves::of(f, name, length, found);
    f.routine()
        .constant(l.found, 0)
        .constant(l.low, 0)
        .constant(l.high, list.count as u64)
        .constant(l.one, 1)
        .constant(l.shift, shift)
        .constant(l.shared_low, 0)
        .constant(l.shared_high, 0)
        .constant(l.probes, probes_in(list.count))
        .repeat(PROBES, l.probes, probe(f, list, &l))
}
