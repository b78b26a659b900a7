//! The rows of the scratch folder itself.

use crate::descriptions::describe;
use crate::files::remove;
use crate::handles::refuse_held;
use crate::leading::lead_or_fail;
use crate::locals::{LED, Led, text_arg};
use crate::numbers::entry_of;
use crate::opening::open_at;
use crate::places::ScratchAt;
use adapter_code::IntOp;
use adapter_fs::shared::own_answer;
use adapter_pass::{Frame, Kind, Routine, Tag, fs_code};

// `read-directory`: the files are listed from the number 0 on.
fn read_directory(f: &Frame) -> Routine {
    own_answer(
        f,
        Kind::DirectoryEntryStream,
        Tag::ScratchEntries,
        None,
        None,
    )
}

// `stat-at` and `metadata-hash-at`.
fn describe_at(f: &Frame, s: ScratchAt, name: &str) -> Routine {
    let led = Led::of(&f.spare);
    let inner = f.inside(LED);
    lead_or_fail(&inner, s, text_arg(f, 2), led).part(describe(&inner, s, led.found, name))
}

// `set-times-at`: there are no times to set.
fn set_times_at(f: &Frame, s: ScratchAt) -> Routine {
    let led = Led::of(&f.spare);
    lead_or_fail(&f.inside(LED), s, text_arg(f, 2), led).part(f.ok())
}

// `readlink-at`: there are no links.
fn readlink_at(f: &Frame, s: ScratchAt) -> Routine {
    let led = Led::of(&f.spare);
    lead_or_fail(&f.inside(LED), s, text_arg(f, 1), led).part(f.err(fs_code::INVALID))
}

// `remove-directory-at`: the folder stays.
fn remove_directory_at(f: &Frame, s: ScratchAt) -> Routine {
    let led = Led::of(&f.spare);
    lead_or_fail(&f.inside(LED), s, text_arg(f, 1), led)
        .unless(led.found, f.err(fs_code::BUSY))
        .part(f.err(fs_code::NOT_DIRECTORY))
}

// `unlink-file-at`, of a file that is not held.
fn unlink_file_at(f: &Frame, s: ScratchAt) -> Routine {
    let led = Led::of(&f.spare);
    let own = f.inside(LED);
    let number = own.spare.narrow(0);
    let entry = own.spare.narrow(1);
    lead_or_fail(&own, s, text_arg(f, 1), led)
        .unless(led.found, f.err(fs_code::IS_DIRECTORY))
        .with(IntOp::Sub, number, led.found, 1, f.scratch)
        .part(refuse_held(&own.inside(2), s, number))
        .part(entry_of(f, s, number, entry))
        .part(remove(f, entry))
        .part(f.ok())
}

// Functions with a path.
fn path_row(f: &Frame, s: ScratchAt, name: &str) -> Routine {
    match name {
        "open-at" => open_at(f, s),
        "stat-at" | "metadata-hash-at" => describe_at(f, s, name),
        "set-times-at" => set_times_at(f, s),
        "readlink-at" => readlink_at(f, s),
        "remove-directory-at" => remove_directory_at(f, s),
        "unlink-file-at" => unlink_file_at(f, s),
        _ => f.routine().trap(),
    }
}

/// The answer of the function of this name where the descriptor is the folder.
pub fn root_row(f: &Frame, s: ScratchAt, name: &str) -> Routine {
    match name {
        "read-directory" => read_directory(f),
        "read" | "write" | "set-size" => f.err(fs_code::IS_DIRECTORY),
        "read-via-stream" | "write-via-stream" | "append-via-stream" => {
            f.err(fs_code::IS_DIRECTORY)
        }
        "create-directory-at" | "symlink-at" => f.err(fs_code::UNSUPPORTED),
        _ => path_row(f, s, name),
    }
}
