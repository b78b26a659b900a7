//! Rows of descriptors that are the scratch folder or a file in it.

use crate::descriptions::{describe, found_at, get_flags};
use crate::file::file_row;
use crate::places::ScratchAt;
use crate::root::root_row;
use adapter_code::IntOp;
use adapter_pass::{Frame, Routine, Tag};

// `get-type`, `stat` and `metadata-hash`.
fn describe_own(f: &Frame, s: ScratchAt, spot: u32, tag: u32, name: &str) -> Routine {
    let found = f.spare.narrow(0);
    let inner = f.inside(1);
    found_at(&inner, spot, tag, found).part(describe(&inner, s, found, name))
}

// Functions that go by whether the descriptor is the folder.
fn by_tag(f: &Frame, s: ScratchAt, spot: u32, tag: u32, name: &str) -> Routine {
    let root = f.spare.narrow(0);
    f.routine()
        .with(IntOp::Eq, root, tag, Tag::ScratchRoot.number(), f.scratch)
        .when(root, root_row(f, s, name))
        .part(file_row(f, s, spot, tag, name))
}

/// The answer of the function of this name, the last part of its WIT name, where the descriptor is the scratch folder or a file in it.
/// Its entry stands at a spot, and its tag in a local. Of a function on two descriptors there is none.
pub fn scratch_body(f: &Frame, s: ScratchAt, spot: u32, tag: u32, name: &str) -> Routine {
    match name {
        "advise" | "sync" | "sync-data" | "set-times" => f.ok(),
        "get-flags" => get_flags(f, tag),
        "get-type" | "stat" | "metadata-hash" => describe_own(f, s, spot, tag, name),
        _ => by_tag(f, s, spot, tag, name),
    }
}
