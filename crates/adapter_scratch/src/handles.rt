//! Handles of files. A mark for each of three kinds is above every place that a handle of a file has, so that a search for the handles
//! of one file does not go over all places.

use crate::names::LOOP;
use crate::places::ScratchAt;
use adapter_code::{Field, IntOp};
use adapter_pass::{Frame, Kind, Routine, Tag, fs_code};
use table_bytes::{TAG, TableLocals, WORD, take};

/// What a new handle of a file stands for: its kind, and the locals of its tag and of the file's number; of 64 bits that of a place in
/// the file, which is 0 without one.
#[derive(Clone, Copy)]
pub struct Handle {
    pub kind: Kind,
    pub tag: u32,
    pub number: u32,
    pub place: Option<u32>,
}

// Where the mark of a kind stands.
fn mark_of(s: ScratchAt, kind: Kind) -> u64 {
    let offset = match kind {
        Kind::InputStream => 4,
        Kind::OutputStream => 8,
        _ => 0,
    };
    s.marks as u64 + offset
}

const MARK: Field = Field {
    offset: 0,
    width: 4,
};

// Sets the mark of a kind above a place. Two spare locals are lost.
fn raise_mark(f: &Frame, s: ScratchAt, kind: Kind, place: u32) -> Routine {
    let at = f.spare.narrow(0);
    let test = f.spare.narrow(1);
    let raised = f
        .routine()
        .with(IntOp::Add, test, place, 1, f.scratch)
        .store(test, at, MARK);
    f.routine()
        .constant(at, mark_of(s, kind))
        .load(test, at, MARK)
        .at_most(test, test, place)
        .when(test, raised)
}

/// Ends the row with a new handle of a file, for which there is room. All spare locals are lost.
pub fn own_file(f: &Frame, s: ScratchAt, handle: Handle) -> Routine {
    let index = f.spare.narrow(5);
    let zero = f.spare.broad(0);
    let l = TableLocals {
        base: f.spare.narrow(0),
        place: f.spare.narrow(1),
        scratch: f.spare.narrow(2),
        spot: f.spare.narrow(3),
        found: f.spare.narrow(4),
        tag: handle.tag,
        word: handle.number,
        long: handle.place.unwrap_or(zero),
    };
    let taken = take(f.alloc, f.places.table(handle.kind), f.places.slots, &l);
    let fields = f.routine().store(index, f.at, f.payload_field(0, 4));
    f.routine()
        .constant(zero, 0)
        .part(Routine::made(f.alloc, taken))
        .unless(l.found, f.routine().trap())
        .make_handle(handle.kind, l.place, index)
        .part(raise_mark(&f.inside(6), s, handle.kind, l.place))
        .part(f.ok_with(fields))
}

/// The handles of one kind by which a file is held: their tags, from one to another.
#[derive(Clone, Copy)]
struct Holding {
    kind: Kind,
    first: Tag,
    last: Tag,
}

const DESCRIPTORS: Holding = Holding {
    kind: Kind::Descriptor,
    first: Tag::ScratchFile,
    last: Tag::ScratchFileWrite,
};

const INPUTS: Holding = Holding {
    kind: Kind::InputStream,
    first: Tag::ScratchIn,
    last: Tag::ScratchIn,
};

const OUTPUTS: Holding = Holding {
    kind: Kind::OutputStream,
    first: Tag::ScratchOut,
    last: Tag::ScratchOutEnd,
};

impl Holding {
    // Ends the row with busy where the entry at a spot has one of the tags. `tag` is lost.
    fn refuse_at(&self, f: &Frame, spot: u32, tag: u32) -> Routine {
        let first = self.first.number();
        let more = self.last.number().saturating_sub(first);
        f.routine()
            .load(tag, spot, TAG)
            .with(IntOp::Sub, tag, tag, first, f.scratch)
            .with(IntOp::LeU, tag, tag, more, f.scratch)
            .when(tag, f.err(fs_code::BUSY))
    }

    // Ends the row with busy where such a handle has the number.
    fn refuse(&self, f: &Frame, s: ScratchAt, file: u32) -> Routine {
        let spot = f.spare.narrow(0);
        let step = f.spare.narrow(1);
        let turns = f.spare.narrow(2);
        let test = f.spare.narrow(3);
        let body = f
            .routine()
            .load(test, spot, WORD)
            .equal(test, test, file)
            .when(test, self.refuse_at(f, spot, test))
            .add(spot, spot, step);
        f.routine()
            .constant(turns, mark_of(s, self.kind))
            .load(turns, turns, MARK)
            .constant(spot, f.places.table(self.kind) as u64)
            .constant(step, 16)
            .repeat(LOOP, turns, body)
    }
}

/// Ends the row with busy where a handle of the file of a number is live, but those of entries. Four spare locals of 32 bits are lost.
pub fn refuse_held(f: &Frame, s: ScratchAt, file: u32) -> Routine {
    DESCRIPTORS
        .refuse(f, s, file)
        .part(INPUTS.refuse(f, s, file))
        .part(OUTPUTS.refuse(f, s, file))
}
