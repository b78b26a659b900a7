//! What rows over files of trees and rows over other files share: answers about bytes of which the place and the size are known.

use adapter_pass::{Frame, Kind, Routine, Tag};
use table_bytes::LONG;

/// The case `closed` of a `stream-error`.
pub const CLOSED: u64 = 1;

/// A file's bytes, by two locals: one of 32 bits, where they begin, and one of 64 bits, how many they are.
#[derive(Clone, Copy, Debug)]
pub struct Span {
    pub place: u32,
    pub size: u32,
}

/// A text, by two locals of 32 bits: where it begins, and its length.
#[derive(Clone, Copy, Debug)]
pub struct Text {
    pub place: u32,
    pub length: u32,
}

/// The local after another one.
pub fn next(local: u32) -> u32 {
    local.saturating_add(1)
}

/// Sets a local of 64 bits to the lesser one of two, of which the first may be it. `scratch` is lost.
pub fn least(f: &Frame, to: u32, a: u32, b: u32) -> Routine {
    let first = if to == a {
        f.routine()
    } else {
        f.routine().copy(to, a)
    };
    first
        .less(f.scratch, b, to)
        .when(f.scratch, f.routine().copy(to, b))
}

/// Writes a place of bytes, the sum of two locals of which the second has 64 bits, and their count, as a list at the beginning of
/// the payload. `scratch` and the first spare local of 32 bits are lost.
fn list_at(f: &Frame, base: u32, offset: u32, count: u32) -> Routine {
    let place = f.spare.narrow(0);
    f.routine()
        .copy(place, offset)
        .add(place, place, base)
        .store(place, f.at, f.payload_field(0, 4))
        .store(count, f.at, f.payload_field(4, 4))
}

/// The answer of `read`: bytes from an offset on, and whether the end is reached. `length` and `offset` are locals of 64 bits. The
/// first spare local of 32 bits and the first two of 64 bits are lost.
pub fn put_read(f: &Frame, bytes: Span, length: u32, offset: u32) -> Routine {
    let start = f.spare.broad(0);
    let count = f.spare.broad(1);
    let fields = list_at(f, bytes.place, start, count)
        .add(start, start, count)
        .equal(f.scratch, start, bytes.size)
        .store(f.scratch, f.at, f.payload_field(8, 1));
    f.routine()
        .part(least(f, start, offset, bytes.size))
        .subtract(count, bytes.size, start)
        .part(least(f, count, count, length))
        .part(f.ok_with(fields))
}

/// The answer of a function of a stream over a file, by its name: `read` gives bytes from the stream's place on, and `skip` their
/// number; both go on after them. At the end the stream is closed. The place stands in the long word at `spot`; the number of
/// bytes that are wanted is the second argument. The first spare local of 32 bits and the first two of 64 bits are lost.
pub fn stream_on(f: &Frame, spot: u32, bytes: Span, name: &str) -> Routine {
    let place = f.spare.broad(0);
    let count = f.spare.broad(1);
    let given = match name {
        "read" | "blocking-read" => list_at(f, bytes.place, place, count),
        _ => f.routine().store(count, f.at, f.payload_field(0, 8)),
    };
    let moved = given.add(place, place, count).store(place, spot, LONG);
    f.routine()
        .load(place, spot, LONG)
        .at_most(f.scratch, bytes.size, place)
        .when(f.scratch, f.err(CLOSED))
        .subtract(count, bytes.size, place)
        .part(least(f, count, count, f.arg(1)))
        .part(f.ok_with(moved))
}

// A field at an offset of the payload becomes 0 of one byte.
fn none_at(f: &Frame, offset: u32) -> Routine {
    f.routine()
        .store_value(0, f.at, f.payload_field(offset, 1), f.scratch)
}

/// The answer of `stat`: one link, and no times. `kind` is a local with the number of the type of a descriptor, and `size` one of
/// 64 bits.
pub fn stat_record(f: &Frame, kind: u32, size: u32) -> Routine {
    let fields = f
        .routine()
        .store(kind, f.at, f.payload_field(0, 1))
        .store_value(1, f.at, f.payload_field(8, 8), f.scratch_long)
        .store(size, f.at, f.payload_field(16, 8))
        .part(none_at(f, 24))
        .part(none_at(f, 48))
        .part(none_at(f, 72));
    f.ok_with(fields)
}

/// The answer of `metadata-hash`, from two locals of 64 bits.
pub fn hash_record(f: &Frame, lower: u32, upper: u32) -> Routine {
    let fields = f
        .routine()
        .store(lower, f.at, f.payload_field(0, 8))
        .store(upper, f.at, f.payload_field(8, 8));
    f.ok_with(fields)
}

/// A result whose payload is one byte, which stands in a local.
pub fn small_answer(f: &Frame, local: u32) -> Routine {
    let fields = f.routine().store(local, f.at, f.payload_field(0, 1));
    f.ok_with(fields)
}

/// A result whose payload is this byte.
pub fn small_value(f: &Frame, value: u64) -> Routine {
    let fields = f
        .routine()
        .store_value(value, f.at, f.payload_field(0, 1), f.scratch);
    f.ok_with(fields)
}

/// A result whose payload is a text.
pub fn text_answer(f: &Frame, text: Text) -> Routine {
    let fields = f
        .routine()
        .store(text.place, f.at, f.payload_field(0, 4))
        .store(text.length, f.at, f.payload_field(4, 4));
    f.ok_with(fields)
}

/// The answer of `read-directory-entry` where an entry is left: its name, and in a local the number of its type.
pub fn entry_record(f: &Frame, kind: u32, name: Text) -> Routine {
    let fields = f
        .routine()
        .store_value(1, f.at, f.payload_field(0, 1), f.scratch)
        .store(kind, f.at, f.payload_field(4, 1))
        .store(name.place, f.at, f.payload_field(8, 4))
        .store(name.length, f.at, f.payload_field(12, 4));
    f.ok_with(fields)
}

/// The answer of `read-directory-entry` where none is left.
pub fn no_entry(f: &Frame) -> Routine {
    small_value(f, 0)
}

/// A result whose payload is a handle of the adapter's own: a place of the kind is taken for an entry with this word and this long
/// word, which are locals; without one it is 0. The first eight spare locals of 32 bits are lost, and the first one of 64 bits.
pub fn own_answer(
    f: &Frame,
    kind: Kind,
    tag: Tag,
    word: Option<u32>,
    extra: Option<u32>,
) -> Routine {
    let index = f.spare.narrow(7);
    let fields = f.routine().store(index, f.at, f.payload_field(0, 4));
    f.make(kind, tag, word, extra, index)
        .part(f.ok_with(fields))
}
