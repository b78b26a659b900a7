//! `open-at` of the scratch folder.

use crate::files::put_name;
use crate::handles::{Handle, own_file};
use crate::leading::lead;
use crate::locals::{LED, Led, text_arg};
use crate::names::LOOP;
use crate::naming::check_name;
use crate::numbers::{Numbers, entry_of};
use crate::places::{LEN, LIVE, ScratchAt};
use adapter_code::IntOp;
use adapter_fs::shared::own_answer;
use adapter_pass::{Frame, Kind, Routine, Tag, fs_code};

/// The open-flags.
const CREATE: u64 = 1;

const DIRECTORY: u64 = 2;

const EXCLUSIVE: u64 = 4;

const TRUNCATE: u64 = 8;

/// The descriptor-flag.
const WRITE: u64 = 2;

// Runs a routine where a flag is set in an argument. `scratch` is lost.
fn when_flag(f: &Frame, arg: usize, flag: u64, body: Routine) -> Routine {
    f.routine()
        .with(IntOp::And, f.scratch, f.arg(arg), flag, f.scratch)
        .when(f.scratch, body)
}

fn when_asked(f: &Frame, flag: u64, body: Routine) -> Routine {
    when_flag(f, 3, flag, body)
}

fn when_write(f: &Frame, body: Routine) -> Routine {
    when_flag(f, 4, WRITE, body)
}

// Ends with a descriptor of the file of a number, which may be written where that is asked for.
fn own_descriptor(f: &Frame, s: ScratchAt, number: u32) -> Routine {
    let tag = f.spare.narrow(0);
    let write = f.routine().constant(tag, Tag::ScratchFileWrite.number());
    let handle = Handle {
        kind: Kind::Descriptor,
        tag,
        number,
        place: None,
    };
    f.routine()
        .constant(tag, Tag::ScratchFile.number())
        .part(when_write(f, write))
        .part(own_file(&f.inside(1), s, handle))
}

// Makes a file of the path's new name at the least number that has none.
fn create(f: &Frame, s: ScratchAt, led: Led) -> Routine {
    let each = Numbers::of(&f.spare);
    let live = f.spare.narrow(5);
    let inner = f.inside(6);
    let made = f
        .routine()
        .store(each.one, each.entry, LIVE)
        .part(put_name(&inner, each.entry, led.part))
        .part(own_descriptor(&inner, s, each.number));
    let body = f.routine().load(live, each.entry, LIVE).unless(live, made);
    each.each(f, s, LOOP, body)
        .part(f.err(fs_code::INSUFFICIENT_SPACE))
}

// Nothing is found.
fn open_missing(f: &Frame, s: ScratchAt, led: Led) -> Routine {
    let other = f.spare.narrow(0);
    let refused = f.err_in(led.code);
    f.routine()
        .with(IntOp::Ne, other, led.code, fs_code::NO_ENTRY, f.scratch)
        .when(other, refused)
        .with(IntOp::And, other, f.arg(3), CREATE, f.scratch)
        .unless(other, f.err(fs_code::NO_ENTRY))
        .part(when_asked(f, DIRECTORY, f.err(fs_code::INVALID)))
        .part(check_name(f, led))
        .part(create(f, s, led))
}

// The folder itself is found.
fn open_root(f: &Frame) -> Routine {
    when_asked(f, TRUNCATE, f.err(fs_code::IS_DIRECTORY))
        .part(when_write(f, f.err(fs_code::IS_DIRECTORY)))
        .part(own_answer(f, Kind::Descriptor, Tag::ScratchRoot, None, None))
}

// Cuts the file of a number to nothing, if it may be written.
fn truncate(f: &Frame, s: ScratchAt, number: u32) -> Routine {
    let test = f.spare.narrow(0);
    let entry = f.spare.narrow(1);
    f.routine()
        .with(IntOp::And, test, f.arg(4), WRITE, f.scratch)
        .unless(test, f.err(fs_code::INVALID))
        .part(entry_of(f, s, number, entry))
        .store_value(0, entry, LEN, f.scratch)
}

// A file is found.
fn open_file(f: &Frame, s: ScratchAt, led: Led) -> Routine {
    let number = f.spare.narrow(0);
    let inner = f.inside(1);
    when_asked(f, DIRECTORY, f.err(fs_code::NOT_DIRECTORY))
        .with(IntOp::Sub, number, led.found, 1, f.scratch)
        .part(when_asked(f, TRUNCATE, truncate(&inner, s, number)))
        .part(own_descriptor(&inner, s, number))
}

/// `open-at` of the folder.
pub fn open_at(f: &Frame, s: ScratchAt) -> Routine {
    let led = Led::of(&f.spare);
    let inner = f.inside(LED);
    lead(&inner, s, text_arg(f, 2), led)
        .when(led.code, open_missing(&inner, s, led))
        .part(when_asked(f, EXCLUSIVE, f.err(fs_code::EXIST)))
        .unless(led.found, open_root(&inner))
        .part(open_file(&inner, s, led))
}
