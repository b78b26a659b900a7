//! Streams from and to files of the scratch folder.

use crate::files::span_of;
use crate::full::Full;
use crate::places::ScratchAt;
use crate::writing::{Written, write};
use adapter_code::IntOp;
use adapter_fs::shared::{Span, next, stream_on};
use adapter_pass::{Frame, Routine, Tag};
use table_bytes::{LONG, WORD};

/// `read` and `skip` of a stream from a file, and their blocking forms, by their names. The stream stands at a spot.
pub fn scratch_in_body(f: &Frame, s: ScratchAt, spot: u32, name: &str) -> Routine {
    let bytes = Span {
        place: f.spare.narrow(0),
        size: f.spare.broad(0),
    };
    let file = f.spare.narrow(1);
    let inner = f.inside(2);
    f.routine()
        .load(file, spot, WORD)
        .part(span_of(&inner, s, file, bytes))
        .part(stream_on(&inner, spot, bytes, name))
}

// The place at which a stream writes: its own, or the end of the file.
fn place_of(f: &Frame, s: ScratchAt, spot: u32, tag: u32, file: u32, place: u32) -> Routine {
    let test = f.spare.narrow(0);
    let end = Span {
        place: f.spare.narrow(1),
        size: place,
    };
    f.routine().load(place, spot, LONG).when_is(
        tag,
        Tag::ScratchOutEnd.number(),
        f.scratch,
        test,
        span_of(&f.inside(2), s, file, end),
    )
}

// Goes on after what was written, but at the end of a file.
fn go_on(f: &Frame, spot: u32, tag: u32, new: Written) -> Routine {
    let test = f.spare.narrow(0);
    let moved = f
        .routine()
        .add(new.place, new.place, new.count)
        .store(new.place, spot, LONG);
    f.routine()
        .when_is(tag, Tag::ScratchOut.number(), f.scratch, test, moved)
}

/// `write` and `write-zeroes` of a stream to a file, and their blocking forms, by their names. The stream stands at a spot, and its tag
/// in a local.
pub fn scratch_out_body(f: &Frame, s: ScratchAt, spot: u32, tag: u32, name: &str) -> Routine {
    let zeros = name.ends_with("zeroes") || name.ends_with("zeroes-and-flush");
    let file = f.spare.narrow(0);
    let none = f.spare.narrow(1);
    let new = Written {
        text: if zeros { None } else { Some(f.arg(1)) },
        place: f.spare.broad(0),
        count: f.spare.broad(1),
    };
    let given = if zeros { f.arg(1) } else { next(f.arg(1)) };
    let inner = f.inside(2);
    f.routine()
        .load(file, spot, WORD)
        .copy(new.count, given)
        .with(IntOp::Eq, none, new.count, 0, f.scratch_long)
        .when(none, f.ok())
        .part(place_of(&inner, s, spot, tag, file, new.place))
        .part(write(&inner, s, file, new, Full::Closed))
        .part(go_on(&inner, spot, tag, new))
        .part(f.ok())
}
