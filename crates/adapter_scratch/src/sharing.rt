//! The sharing out of the free blocks: all pieces are moved down, one after the other, and up again, each with an equal gap after it.

use crate::bytes::{move_down, move_up};
use crate::names::{HALVES, LOOP};
use crate::numbers::Numbers;
use crate::places::{LEN, LIVE, START, ScratchAt, WHOLE};
use crate::sizes::rounded;
use adapter_code::IntOp;
use adapter_pass::{Frame, Routine};

// The locals: where the next piece goes, how many files there are, and the gap after each piece; then the bytes of the blocks of one
// file, where its piece begins, where it goes, and a test.
#[derive(Clone, Copy)]
struct Sharing {
    each: Numbers,
    at: u32,
    live: u32,
    gap: u32,
    size: u32,
    start: u32,
    to: u32,
    test: u32,
}

impl Sharing {
    fn of(f: &Frame) -> Sharing {
        Sharing {
            each: Numbers::of(&f.spare),
            at: f.spare.narrow(5),
            live: f.spare.narrow(6),
            gap: f.spare.narrow(7),
            size: f.spare.narrow(8),
            start: f.spare.narrow(9),
            to: f.spare.narrow(10),
            test: f.spare.narrow(11),
        }
    }

    /// Its locals are taken.
    fn inside(&self, f: &Frame) -> Frame {
        f.inside(12)
    }

    // Puts the piece at `at`, where it isn't yet: `moving` moves its bytes.
    fn put_at(&self, f: &Frame, s: ScratchAt, moving: Routine) -> Routine {
        let blocks = s.blocks as u64;
        let moved = f
            .routine()
            .with(IntOp::Add, self.start, self.start, blocks, f.scratch)
            .with(IntOp::Add, self.to, self.at, blocks, f.scratch)
            .part(moving);
        f.routine()
            .load(self.start, self.each.entry, START)
            .store(self.at, self.each.entry, START)
            .differ(self.test, self.start, self.at)
            .when(self.test, moved)
    }

    // The bytes of the blocks of a file.
    fn load_size(&self, f: &Frame) -> Routine {
        f.routine()
            .load(self.size, self.each.entry, LEN)
            .part(rounded(f, self.size, self.size))
    }

    // Moves all pieces down, and counts the files.
    fn down(&self, f: &Frame, s: ScratchAt) -> Routine {
        let moving = move_down(&self.inside(f), self.to, self.start, self.size);
        let one = self
            .load_size(f)
            .part(self.put_at(f, s, moving))
            .add(self.at, self.at, self.size)
            .add(self.live, self.live, self.each.one);
        let body = f
            .routine()
            .load(self.test, self.each.entry, LIVE)
            .when(self.test, one);
        f.routine()
            .constant(self.at, 0)
            .constant(self.live, 0)
            .part(self.each.each(f, s, LOOP, body))
    }

    // A gap is the free bytes, halved until there are as many shares as files, in whole blocks.
    fn gaps(&self, f: &Frame, s: ScratchAt, total: u32) -> Routine {
        let shares = self.to;
        let halve = f
            .routine()
            .less(self.test, shares, self.live)
            .unless(self.test, f.routine().leave(HALVES))
            .add(shares, shares, shares)
            .shift_right(self.gap, self.gap, self.each.one);
        f.routine()
            .constant(self.gap, s.quota as u64)
            .subtract(self.gap, self.gap, total)
            .constant(shares, 1)
            .constant(f.scratch, 9)
            .repeat(HALVES, f.scratch, halve)
            .with(IntOp::And, self.gap, self.gap, WHOLE, f.scratch)
    }

    // Moves all pieces up from the last one on, so that each has a gap after it, and the one that grows room for what is wanted.
    fn up(&self, f: &Frame, s: ScratchAt, number: u32, wanted: u32) -> Routine {
        let moving = move_up(&self.inside(f), self.to, self.start, self.size);
        let grown = f.routine().subtract(self.at, self.at, wanted);
        let same = f.routine().subtract(self.at, self.at, self.size);
        let one = f
            .routine()
            .subtract(self.at, self.at, self.gap)
            .part(self.load_size(f))
            .equal(self.test, self.each.number, number)
            .choose(self.test, grown, same)
            .part(self.put_at(f, s, moving));
        let body = f
            .routine()
            .load(self.test, self.each.entry, LIVE)
            .when(self.test, one);
        self.each.each_back(f, LOOP, body)
    }
}

/// Moves all pieces, so that the one of a number has room for as much as is wanted, and each has an equal gap after it. `total` are
/// the bytes of all pieces then. All spare locals are lost.
pub fn share_out(f: &Frame, s: ScratchAt, number: u32, wanted: u32, total: u32) -> Routine {
    let l = Sharing::of(f);
    l.down(f, s)
        .part(l.gaps(f, s, total))
        .multiply(l.at, l.live, l.gap)
        .add(l.at, l.at, total)
        .part(l.up(f, s, number, wanted))
}
