//! A file by its entry: its name, its bytes, its removal.

use crate::bytes::copy_bytes;
use crate::numbers::entry_of;
use crate::places::{LEN, LIVE, NAME, NAMED, START, ScratchAt};
use adapter_code::IntOp;
use adapter_fs::shared::{Span, Text};
use adapter_pass::{Frame, Routine};

/// Takes the file of an entry away: its number is free, and has no bytes.
pub fn remove(f: &Frame, entry: u32) -> Routine {
    f.routine()
        .store_value(0, entry, LEN, f.scratch)
        .store(f.scratch, entry, LIVE)
}

/// Gives the file of an entry a name of at most 255 bytes. The locals of the name are changed. Four spare pairs are lost.
pub fn put_name(f: &Frame, entry: u32, name: Text) -> Routine {
    let to = f.spare.narrow(0);
    f.routine()
        .store(name.length, entry, NAMED)
        .with(IntOp::Add, to, entry, NAME as u64, f.scratch)
        .part(copy_bytes(&f.inside(1), to, name.place, name.length))
}

/// Sets two locals to where the bytes of a number's file begin, and how many they are. The first two spare locals of 32 bits are lost.
pub fn span_of(f: &Frame, s: ScratchAt, number: u32, to: Span) -> Routine {
    let entry = f.spare.narrow(0);
    let length = f.spare.narrow(1);
    entry_of(f, s, number, entry)
        .load(to.place, entry, START)
        .with(IntOp::Add, to.place, to.place, s.blocks as u64, f.scratch)
        .load(length, entry, LEN)
        .copy(to.size, length)
}
