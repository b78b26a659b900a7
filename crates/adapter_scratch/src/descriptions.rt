//! What is told of the folder and of a file: its flags, its type, its size and its hash.

use crate::numbers::entry_of;
use crate::places::{LEN, ScratchAt};
use adapter_code::IntOp;
use adapter_fs::shared::{hash_record, small_answer, stat_record};
use adapter_pass::{Frame, Routine, Tag};
use table_bytes::WORD;

/// The cases of `descriptor-type`.
const DIRECTORY: u64 = 3;

pub const REGULAR_FILE: u64 = 6;

/// The flags of a descriptor: read, and write or mutate-directory.
const READ: u64 = 1;

const READ_WRITE: u64 = 3;

const READ_MUTATE: u64 = 33;

/// `get-flags`; the tag stands in a local.
pub fn get_flags(f: &Frame, tag: u32) -> Routine {
    let flags = f.spare.narrow(0);
    let test = f.spare.narrow(1);
    let read = f.routine().constant(flags, READ);
    let write = f.routine().constant(flags, READ_WRITE);
    f.routine()
        .constant(flags, READ_MUTATE)
        .when_is(tag, Tag::ScratchFile.number(), f.scratch, test, read)
        .when_is(tag, Tag::ScratchFileWrite.number(), f.scratch, test, write)
        .part(small_answer(f, flags))
}

/// Sets a local to 0 where a descriptor is the folder, and else to one more than the number of its file. One spare local is lost.
pub fn found_at(f: &Frame, spot: u32, tag: u32, found: u32) -> Routine {
    let test = f.spare.narrow(0);
    let file = f
        .routine()
        .load(found, spot, WORD)
        .with(IntOp::Add, found, found, 1, f.scratch);
    f.routine()
        .constant(found, 0)
        .with(IntOp::Ne, test, tag, Tag::ScratchRoot.number(), f.scratch)
        .when(test, file)
}

/// The type of the folder, where `found` is 0, or of a file.
pub fn get_type(f: &Frame, found: u32) -> Routine {
    let kind = f.spare.narrow(0);
    let file = f.routine().constant(kind, REGULAR_FILE);
    f.routine()
        .constant(kind, DIRECTORY)
        .when(found, file)
        .part(small_answer(f, kind))
}

/// The `stat` of the folder, where `found` is 0, or of the file whose number is one less.
pub fn stat(f: &Frame, s: ScratchAt, found: u32) -> Routine {
    let kind = f.spare.narrow(0);
    let size = f.spare.broad(0);
    let entry = f.spare.narrow(1);
    let length = f.spare.narrow(2);
    let file = f
        .routine()
        .constant(kind, REGULAR_FILE)
        .with(IntOp::Sub, length, found, 1, f.scratch)
        .part(entry_of(f, s, length, entry))
        .load(length, entry, LEN)
        .copy(size, length);
    f.routine()
        .constant(kind, DIRECTORY)
        .constant(size, 0)
        .when(found, file)
        .part(stat_record(f, kind, size))
}

/// The `metadata-hash` of the folder or of a file: the scratch folder counts as one tree more.
pub fn metadata_hash(f: &Frame, s: ScratchAt, found: u32) -> Routine {
    let lower = f.spare.broad(0);
    let upper = f.spare.broad(1);
    f.routine()
        .copy(lower, found)
        .constant(upper, s.trees as u64 + 1)
        .part(hash_record(f, lower, upper))
}

/// What is told of the folder or of a file by the function of this name: `get-type`, `stat` or `metadata-hash`.
pub fn describe(f: &Frame, s: ScratchAt, found: u32, name: &str) -> Routine {
    match name {
        "get-type" => get_type(f, found),
        "stat" | "stat-at" => stat(f, s, found),
        "metadata-hash" | "metadata-hash-at" => metadata_hash(f, s, found),
        _ => f.routine().trap(),
    }
}
