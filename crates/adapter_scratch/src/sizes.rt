//! The lengths of files.

use crate::bytes::clear_bytes;
use crate::full::Full;
use crate::places::{BLOCK, LEN, START, ScratchAt, WHOLE};
use crate::room::{Growth, make_room};
use adapter_code::IntOp;
use adapter_pass::{Frame, Routine};

/// The file of a number, and the place of its entry, in two locals.
#[derive(Clone, Copy)]
pub struct FileAt {
    pub number: u32,
    pub entry: u32,
}

/// Sets a local to the bytes of the blocks that N bytes take.
pub fn rounded(f: &Frame, to: u32, length: u32) -> Routine {
    f.routine()
        .with(IntOp::Add, to, length, BLOCK as u64 - 1, f.scratch)
        .with(IntOp::And, to, to, WHOLE, f.scratch)
}

// Sets the bytes of a file from an old length up to a new one to zero.
fn clear_from(f: &Frame, s: ScratchAt, entry: u32, old: u32, zeros: u32) -> Routine {
    let at = f.spare.narrow(0);
    let count = f.spare.narrow(1);
    f.routine()
        .load(at, entry, START)
        .with(IntOp::Add, at, at, s.blocks as u64, f.scratch)
        .add(at, at, old)
        .subtract(count, zeros, old)
        .part(clear_bytes(&f.inside(2), at, count))
}

/// Gives a file a length; the bytes from the old length up to `zeros` become zero. It ends the row where the quota has no room, and
/// nothing is changed then. All spare locals are lost.
pub fn resize(
    f: &Frame,
    s: ScratchAt,
    file: FileAt,
    length: u32,
    zeros: u32,
    full: Full,
) -> Routine {
    let old = f.spare.narrow(0);
    let before = f.spare.narrow(1);
    let after = f.spare.narrow(2);
    let test = f.spare.narrow(3);
    let growth = Growth { before, after };
    let inner = f.inside(4);
    f.routine()
        .load(old, file.entry, LEN)
        .part(rounded(f, before, old))
        .part(rounded(f, after, length))
        .less(test, before, after)
        .when(test, make_room(&inner, s, file, growth, full))
        .store(length, file.entry, LEN)
        .less(test, old, zeros)
        .when(test, clear_from(&inner, s, file.entry, old, zeros))
}
