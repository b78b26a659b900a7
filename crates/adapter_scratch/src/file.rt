//! The rows of a file of the scratch folder.

use crate::files::span_of;
use crate::full::Full;
use crate::handles::{Handle, own_file};
use crate::locals::text_arg;
use crate::numbers::entry_of;
use crate::places::ScratchAt;
use crate::sizes::{FileAt, resize};
use crate::writing::{Written, write};
use adapter_code::IntOp;
use adapter_fs::shared::{Span, put_read};
use adapter_pass::{Frame, Kind, Routine, Tag, fs_code};
use table_bytes::WORD;

// `read`.
fn read(f: &Frame, s: ScratchAt, file: u32) -> Routine {
    let bytes = Span {
        place: f.spare.narrow(0),
        size: f.spare.broad(0),
    };
    let inner = f.inside(1);
    span_of(&inner, s, file, bytes).part(put_read(&inner, bytes, f.arg(1), f.arg(2)))
}

// `write`: of no bytes too its answer is their number.
fn write_row(f: &Frame, s: ScratchAt, file: u32) -> Routine {
    let count = f.spare.broad(0);
    let text = text_arg(f, 1);
    let new = Written {
        text: Some(text.place),
        place: f.arg(2),
        count,
    };
    let written = write(&f.inside(1), s, file, new, Full::Insufficient);
    let fields = f.routine().store(count, f.at, f.payload_field(0, 8));
    f.routine()
        .copy(count, text.length)
        .when(text.length, written)
        .part(f.ok_with(fields))
}

// `set-size`.
fn set_size(f: &Frame, s: ScratchAt, number: u32) -> Routine {
    let entry = f.spare.narrow(0);
    let length = f.spare.narrow(1);
    let file = FileAt { number, entry };
    let full = Full::Insufficient;
    f.routine()
        .with(IntOp::LeU, length, f.arg(1), s.quota as u64, f.scratch_long)
        .unless(length, full.answer(f))
        .copy(length, f.arg(1))
        .part(entry_of(f, s, number, entry))
        .part(resize(&f.inside(2), s, file, length, length, full))
        .part(f.ok())
}

// A stream from a file or to it: from a place on, or at its end.
fn via_stream(
    f: &Frame,
    s: ScratchAt,
    number: u32,
    kind: Kind,
    content: Tag,
    place: Option<u32>,
) -> Routine {
    let tag = f.spare.narrow(0);
    let handle = Handle {
        kind,
        tag,
        number,
        place,
    };
    f.routine()
        .constant(tag, content.number())
        .part(own_file(&f.inside(1), s, handle))
}

// `read-via-stream`.
fn read_via_stream(f: &Frame, s: ScratchAt, file: u32) -> Routine {
    let place = Some(f.arg(1));
    via_stream(f, s, file, Kind::InputStream, Tag::ScratchIn, place)
}

// `write-via-stream`.
fn write_via_stream(f: &Frame, s: ScratchAt, file: u32) -> Routine {
    let place = Some(f.arg(1));
    via_stream(f, s, file, Kind::OutputStream, Tag::ScratchOut, place)
}

// `append-via-stream`.
fn append_via_stream(f: &Frame, s: ScratchAt, file: u32) -> Routine {
    via_stream(f, s, file, Kind::OutputStream, Tag::ScratchOutEnd, None)
}

// What needs the right to write.
fn changing(f: &Frame, s: ScratchAt, file: u32, name: &str) -> Routine {
    match name {
        "write" => write_row(f, s, file),
        "set-size" => set_size(f, s, file),
        "write-via-stream" => write_via_stream(f, s, file),
        "append-via-stream" => append_via_stream(f, s, file),
        _ => f.routine().trap(),
    }
}

// A descriptor without the right is refused, even where nothing is to be written.
fn with_right(f: &Frame, s: ScratchAt, file: u32, tag: u32, name: &str) -> Routine {
    let test = f.spare.narrow(0);
    f.routine()
        .when_is(
            tag,
            Tag::ScratchFile.number(),
            f.scratch,
            test,
            f.err(fs_code::BAD_DESCRIPTOR),
        )
        .part(changing(f, s, file, name))
}

fn by_number(f: &Frame, s: ScratchAt, file: u32, tag: u32, name: &str) -> Routine {
    match name {
        "read" => read(f, s, file),
        "read-via-stream" => read_via_stream(f, s, file),
        _ => with_right(f, s, file, tag, name),
    }
}

/// The answer of the function of this name where the descriptor is a file.
pub fn file_row(f: &Frame, s: ScratchAt, spot: u32, tag: u32, name: &str) -> Routine {
    if name == "read-directory" || name.ends_with("-at") {
        return f.err(fs_code::NOT_DIRECTORY);
    }
    let file = f.spare.narrow(0);
    f.routine()
        .load(file, spot, WORD)
        .part(by_number(&f.inside(1), s, file, tag, name))
}
