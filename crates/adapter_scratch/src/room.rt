//! Room for a piece that grows.

use crate::full::Full;
use crate::names::{LOOP, PLACED};
use crate::numbers::Numbers;
use crate::places::{LEN, START, ScratchAt, WHOLE};
use crate::sharing::share_out;
use crate::sizes::{FileAt, rounded};
use adapter_code::IntOp;
use adapter_pass::{Frame, Routine};

/// The bytes of the blocks of a piece, before it grows and after it, in two locals of which the second is the greater one.
#[derive(Clone, Copy)]
pub struct Growth {
    pub before: u32,
    pub after: u32,
}

/// What the other files take: the bytes of their blocks together, where the piece before begins to leave room, and where the piece
/// after begins.
#[derive(Clone, Copy)]
struct Others {
    total: u32,
    low: u32,
    high: u32,
}

// A piece of another file, whose length stands in `length`: the last one before the number bounds the room from below, and the first
// one after it from above.
fn count_piece(f: &Frame, o: Others, each: Numbers, number: u32, length: u32) -> Routine {
    let start = f.spare.narrow(0);
    let test = f.spare.narrow(1);
    let nearer = f
        .routine()
        .less(test, start, o.high)
        .when(test, f.routine().copy(o.high, start));
    let below = f.routine().add(o.low, start, length);
    rounded(f, length, length)
        .add(o.total, o.total, length)
        .load(start, each.entry, START)
        .less(test, each.number, number)
        .choose(test, below, nearer)
}

// Finds what the other files take. Nine spare locals of 32 bits are lost.
fn survey(f: &Frame, s: ScratchAt, number: u32, o: Others) -> Routine {
    let each = Numbers::of(&f.spare);
    let length = f.spare.narrow(5);
    let other = f.spare.narrow(6);
    let counted = count_piece(&f.inside(7), o, each, number, length);
    let body = f
        .routine()
        .load(length, each.entry, LEN)
        .differ(other, each.number, number)
        .when(other, f.routine().when(length, counted));
    f.routine()
        .constant(o.total, 0)
        .constant(o.low, 0)
        .constant(o.high, s.quota as u64)
        .part(each.each(f, s, LOOP, body))
}

// A piece that has blocks grows in place where its gap lasts.
fn grow_in_place(f: &Frame, file: FileAt, after: u32, high: u32) -> Routine {
    let end = f.spare.narrow(0);
    f.routine()
        .load(end, file.entry, START)
        .add(end, end, after)
        .at_most(end, end, high)
        .when(end, f.routine().leave(PLACED))
}

// A piece that has none begins in the midst of the gap between its neighbours, where that lasts.
fn begin_between(f: &Frame, file: FileAt, after: u32, o: Others) -> Routine {
    let start = f.spare.narrow(0);
    let begun = f
        .routine()
        .subtract(start, o.high, o.low)
        .subtract(start, start, after)
        .with(IntOp::ShrU, start, start, 1, f.scratch)
        .with(IntOp::And, start, start, WHOLE, f.scratch)
        .add(start, start, o.low)
        .store(start, file.entry, START)
        .leave(PLACED);
    f.routine()
        .add(start, o.low, after)
        .at_most(start, start, o.high)
        .when(start, begun)
}

/// Finds a place for a piece that grows: after what it has, or between its neighbours, or all pieces are moved. It ends the row where
/// the quota has no room, and nothing is changed then. All spare locals are lost.
pub fn make_room(f: &Frame, s: ScratchAt, file: FileAt, growth: Growth, full: Full) -> Routine {
    let others = Others {
        total: f.spare.narrow(0),
        low: f.spare.narrow(1),
        high: f.spare.narrow(2),
    };
    let all = f.spare.narrow(3);
    let fits = f.spare.narrow(4);
    let inner = f.inside(5);
    let Growth { before, after } = growth;
    let body = survey(&inner, s, file.number, others)
        .add(all, others.total, after)
        .with(IntOp::LeU, fits, all, s.quota as u64, f.scratch)
        .unless(fits, full.answer(f))
        .choose(
            before,
            grow_in_place(&inner, file, after, others.high),
            begin_between(&inner, file, after, others),
        )
        .part(share_out(&inner, s, file.number, after, all));
    f.routine().once(PLACED, f.scratch, body)
}
