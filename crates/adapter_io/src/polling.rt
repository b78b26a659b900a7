//! poll: the answer is written over the list of handles, since the arguments may fill the transfer area.

use adapter_code::IntOp;
use adapter_pass::{Frame, Kind, Routine, Tag, number, to_host};
use table_bytes::{TAG, WORD};
use wit_types::FuncType;

/// Repeats by their names.
const READY: u32 = 0;

const HOSTED: u32 = 1;

/// The bytes of an element, which is a handle or a place in the list.
const ELEMENT: u64 = 4;

/// The locals of poll, each of 32 bits.
#[derive(Clone, Copy)]
struct Polled {
    /// The list of handles, and how many they are.
    list: u32,
    count: u32,
    /// The next handle, and its place in the list.
    at: u32,
    turn: u32,
    /// What stands for the handle: a place of the slot table, where its entry begins, and the entry's tag.
    place: u32,
    spot: u32,
    tag: u32,
    /// How many pollables are ready, and where the next of them goes.
    found: u32,
    out: u32,
    test: u32,
    four: u32,
}

const PAIRS: u8 = 9;

impl Polled {
    fn of(f: &Frame) -> Polled {
        let list = f.arg(0);
        Polled {
            list,
            count: list.saturating_add(1),
            at: f.spare.narrow(0),
            turn: f.spare.narrow(1),
            place: f.spare.narrow(2),
            spot: f.spare.narrow(3),
            tag: f.spare.narrow(4),
            found: f.spare.narrow(5),
            out: f.spare.narrow(6),
            test: f.spare.narrow(7),
            four: f.spare.narrow(8),
        }
    }
}

// The next handle's entry.
fn next_entry(f: &Frame, l: &Polled) -> Routine {
    f.routine()
        .load(l.place, l.at, number(0))
        .part(f.spot(Kind::Pollable, l.place, l.spot))
}

// The places of the pollables that are always ready are written over the list. An element is overwritten only in a later turn than
// that which reads it, or in the same one.
fn find_ready(f: &Frame, l: &Polled) -> Routine {
    let note = f
        .routine()
        .store(l.turn, l.out, number(0))
        .add(l.out, l.out, l.four)
        .with(IntOp::Add, l.found, l.found, 1, f.scratch);
    let turn = next_entry(f, l)
        .load(l.tag, l.spot, TAG)
        .when_is(l.tag, Tag::Always.number(), f.scratch, l.test, note)
        .add(l.at, l.at, l.four)
        .with(IntOp::Add, l.turn, l.turn, 1, f.scratch);
    f.routine()
        .constant(l.found, 0)
        .constant(l.turn, 0)
        .copy(l.at, l.list)
        .copy(l.out, l.list)
        .repeat(READY, l.count, turn)
}

fn answer_ready(f: &Frame, l: &Polled) -> Routine {
    f.routine()
        .store(l.list, f.at, number(0))
        .store(l.found, f.at, number(4))
        .part(f.done())
}

// The host's indexes are written over the list, where every handle is the host's.
fn ask(f: &Frame, ty: &FuncType, l: &Polled) -> Routine {
    let turn = next_entry(f, l)
        .load(l.place, l.spot, WORD)
        .store(l.place, l.at, number(0))
        .add(l.at, l.at, l.four);
    f.routine()
        .copy(l.at, l.list)
        .repeat(HOSTED, l.count, turn)
        .part(to_host(&f.inside(PAIRS), ty))
}

fn poll_some(f: &Frame, ty: &FuncType, can_host: bool, can_always: bool, l: &Polled) -> Routine {
    match (can_always, can_host) {
        (true, true) => find_ready(f, l)
            .when(l.found, answer_ready(f, l))
            .part(ask(f, ty, l)),
        (true, false) => find_ready(f, l).part(answer_ready(f, l)),
        (false, true) => ask(f, ty, l),
        (false, false) => f.routine().trap(),
    }
}

/// poll traps on an empty list. Where some pollable is always ready, it answers the places of those that are; else it asks the host,
/// whose pollables they then all are. Which of both kinds a pollable can be is said by the caller.
pub fn poll(f: &Frame, ty: &FuncType, can_host: bool, can_always: bool) -> Routine {
    let l = Polled::of(f);
    f.routine()
        .unless(l.count, f.routine().trap())
        .constant(l.four, ELEMENT)
        .part(poll_some(f, ty, can_host, can_always, &l))
}
