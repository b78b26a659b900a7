//! The listing of the scratch folder.

use crate::descriptions::REGULAR_FILE;
use crate::names::LOOP;
use crate::numbers::entry_of;
use crate::places::{ENTRY, LIVE, NAME, NAMED, ScratchAt};
use adapter_code::IntOp;
use adapter_fs::shared::{Text, entry_record, no_entry};
use adapter_pass::{Frame, Routine};
use table_bytes::WORD;

// The answer that tells of the file of an entry.
fn tell(f: &Frame, entry: u32) -> Routine {
    let kind = f.spare.narrow(0);
    let name = Text {
        place: f.spare.narrow(1),
        length: f.spare.narrow(2),
    };
    f.routine()
        .constant(kind, REGULAR_FILE)
        .load(name.length, entry, NAMED)
        .with(IntOp::Add, name.place, entry, NAME as u64, f.scratch)
        .part(entry_record(f, kind, name))
}

/// `read-directory-entry`: the file that has the least number from the stream's number on. The stream stands at a spot, and goes on
/// after that number.
pub fn scratch_entries_body(f: &Frame, s: ScratchAt, spot: u32) -> Routine {
    let number = f.spare.narrow(0);
    let entry = f.spare.narrow(1);
    let turns = f.spare.narrow(2);
    let step = f.spare.narrow(3);
    let one = f.spare.narrow(4);
    let live = f.spare.narrow(5);
    let told = f
        .routine()
        .store(number, spot, WORD)
        .part(tell(&f.inside(6), entry));
    let body = f
        .routine()
        .load(live, entry, LIVE)
        .add(number, number, one)
        .when(live, told)
        .add(entry, entry, step);
    f.routine()
        .load(number, spot, WORD)
        .part(entry_of(f, s, number, entry))
        .constant(turns, s.files as u64)
        .subtract(turns, turns, number)
        .constant(step, ENTRY as u64)
        .constant(one, 1)
        .repeat(LOOP, turns, body)
        .part(no_entry(f))
}
