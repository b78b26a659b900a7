//! `rename-at` in the scratch folder.

use crate::files::{put_name, remove};
use crate::handles::refuse_held;
use crate::leading::{lead, lead_or_fail};
use crate::locals::{LED, Led, text_arg};
use crate::naming::check_name;
use crate::numbers::entry_of;
use crate::places::{NAME, NAMED, ScratchAt};
use adapter_code::IntOp;
use adapter_fs::shared::Text;
use adapter_pass::{Frame, Routine, fs_code};

// The new path leads nowhere, so that it may give a new name.
fn rename_new(f: &Frame, entry: u32, new: Led) -> Routine {
    let other = f.spare.narrow(0);
    f.routine()
        .with(IntOp::Ne, other, new.code, fs_code::NO_ENTRY, f.scratch)
        .when(other, f.err_in(new.code))
        .part(check_name(f, new))
        .part(put_name(f, entry, new.part))
        .part(f.ok())
}

// The new path leads to another file, which is replaced unless it is held. Its name is copied from its entry.
fn rename_over(f: &Frame, s: ScratchAt, entry: u32, new: Led) -> Routine {
    let other = f.spare.narrow(0);
    let name = Text {
        place: f.spare.narrow(1),
        length: f.spare.narrow(2),
    };
    let inner = f.inside(3);
    f.routine()
        .with(IntOp::Sub, other, new.found, 1, f.scratch)
        .part(refuse_held(&inner, s, other))
        .part(entry_of(f, s, other, name.place))
        .part(remove(f, name.place))
        .load(name.length, name.place, NAMED)
        .with(IntOp::Add, name.place, name.place, NAME as u64, f.scratch)
        .part(put_name(&inner, entry, name))
        .part(f.ok())
}

/// `rename-at` where both descriptors are the scratch folder. All spare locals are lost.
pub fn scratch_rename(f: &Frame, s: ScratchAt) -> Routine {
    let old = Led::of(&f.spare);
    let own = f.inside(LED);
    let entry = own.spare.narrow(0);
    let same = own.spare.narrow(1);
    let after = own.inside(2);
    let new = Led::of(&after.spare);
    let inner = after.inside(LED);
    lead_or_fail(&own, s, text_arg(f, 1), old)
        .unless(old.found, f.err(fs_code::BUSY))
        .with(IntOp::Sub, entry, old.found, 1, f.scratch)
        .part(entry_of(f, s, entry, entry))
        .part(lead(&inner, s, text_arg(f, 3), new))
        .when(new.code, rename_new(&inner, entry, new))
        .unless(new.found, f.err(fs_code::EXIST))
        .equal(same, new.found, old.found)
        .when(same, f.ok())
        .part(rename_over(&inner, s, entry, new))
}
