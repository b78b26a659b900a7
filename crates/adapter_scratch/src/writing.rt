//! The writing of a file.

use crate::bytes::{clear_bytes, copy_bytes};
use crate::full::Full;
use crate::numbers::entry_of;
use crate::places::{LEN, START, ScratchAt};
use crate::sizes::{FileAt, resize};
use adapter_code::IntOp;
use adapter_pass::{Frame, Routine};

/// What is written: that many bytes, more than none, from a place of the file on, which are zeros where there is no text. The place and
/// the count are locals of 64 bits; that of the text is changed.
#[derive(Clone, Copy)]
pub struct Written {
    pub text: Option<u32>,
    pub place: u32,
    pub count: u32,
}

// The length of the file after the write: it ends the row where that is past the quota, or past 64 bits. Two spare pairs are lost.
fn new_length(
    f: &Frame,
    s: ScratchAt,
    entry: u32,
    new: Written,
    length: u32,
    full: Full,
) -> Routine {
    let test = f.spare.narrow(0);
    let end = f.spare.broad(0);
    let size = f.spare.broad(1);
    f.routine()
        .add(end, new.place, new.count)
        .less(test, end, new.place)
        .when(test, full.answer(f))
        .load(length, entry, LEN)
        .copy(size, length)
        .less(test, size, end)
        .when(test, f.routine().copy(size, end))
        .with(IntOp::LeU, test, size, s.quota as u64, f.scratch_long)
        .unless(test, full.answer(f))
        .copy(length, size)
}

// Puts the bytes into the file, which is long enough.
fn put_bytes(f: &Frame, s: ScratchAt, entry: u32, new: Written, from: u32) -> Routine {
    let to = f.spare.narrow(0);
    let count = f.spare.narrow(1);
    let inner = f.inside(2);
    let put = match new.text {
        Some(text) => copy_bytes(&inner, to, text, count),
        None => clear_bytes(&inner, to, count),
    };
    f.routine()
        .load(to, entry, START)
        .with(IntOp::Add, to, to, s.blocks as u64, f.scratch)
        .add(to, to, from)
        .copy(count, new.count)
        .part(put)
}

/// Writes into the file of a number, which grows where it is shorter, by zeros before what is written. It ends the row where the quota
/// has no room, and nothing is changed then. All spare locals are lost.
pub fn write(f: &Frame, s: ScratchAt, number: u32, new: Written, full: Full) -> Routine {
    let entry = f.spare.narrow(0);
    let length = f.spare.narrow(1);
    let from = f.spare.narrow(2);
    let inner = f.inside(3);
    let file = FileAt { number, entry };
    entry_of(f, s, number, entry)
        .part(new_length(&inner, s, entry, new, length, full))
        .copy(from, new.place)
        .part(resize(&inner, s, file, length, from, full))
        .part(put_bytes(&inner, s, entry, new, from))
}
