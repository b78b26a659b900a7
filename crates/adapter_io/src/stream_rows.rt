//! Standard streams that are ignored, terminals that are not there, and streams and pollables that stand for nothing of the host.

use adapter_pass::{CASE, Frame, Kind, Routine, Tag};

/// The case `closed` of a stream's error.
const CLOSED: u64 = 1;

/// The case `none` of an option.
const NONE: u64 = 0;

/// How many bytes a stream that keeps nothing takes at once.
const READY: u64 = 65536;

// A new handle for an entry without numbers is the flat answer.
fn made(f: &Frame, kind: Kind, tag: Tag) -> Routine {
    f.make(kind, tag, None, None, f.result).answer()
}

/// get-stdin gives a stream that is at its end; get-stdout and get-stderr one that takes everything and keeps nothing.
pub fn stdio(f: &Frame, name: &str) -> Routine {
    if name == "get-stdin" {
        made(f, Kind::InputStream, Tag::EmptyIn)
    } else {
        made(f, Kind::OutputStream, Tag::Discard)
    }
}

/// The functions of terminals answer that there is none.
pub fn terminal(f: &Frame) -> Routine {
    f.routine()
        .store_value(NONE, f.at, CASE, f.scratch)
        .part(f.done())
}

/// A pollable that is always ready.
pub fn always(f: &Frame) -> Routine {
    made(f, Kind::Pollable, Tag::Always)
}

/// The error of a stream that is at its end.
pub fn closed(f: &Frame) -> Routine {
    f.err(CLOSED)
}

/// The methods of a stream that is at its end.
pub fn empty_in(f: &Frame, name: &str) -> Routine {
    if name == "subscribe" {
        always(f)
    } else {
        closed(f)
    }
}

// check-write
fn ready_to_write(f: &Frame) -> Routine {
    let count = f.payload_field(0, 8);
    let fields = f.routine().store_value(READY, f.at, count, f.scratch_long);
    f.ok_with(fields)
}

/// The methods of a stream that takes everything and keeps nothing.
pub fn discard(f: &Frame, name: &str) -> Routine {
    if name == "subscribe" {
        always(f)
    } else if name == "check-write" {
        ready_to_write(f)
    } else {
        f.ok()
    }
}

/// The methods of a pollable that is always ready: `ready` says so, and `block` returns at once.
pub fn pollable_always(f: &Frame, name: &str) -> Routine {
    if name == "ready" {
        f.flat_value(1)
    } else {
        f.routine().answer()
    }
}
