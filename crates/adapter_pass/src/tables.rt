//! Places of slot tables.

use crate::frame::Frame;
use crate::kinds::Kind;
use crate::routine::Routine;
use crate::tags::Tag;
use adapter_code::IntOp;
use table_bytes::{HEAD, TableLocals, take};

/// The bytes of a place.
const PLACE: u64 = 16;

impl Frame {
    /// Sets a local to where the entry of a place begins, less 8: its tag, word and long word are read from there by `TAG`, `WORD`
    /// and `LONG`. `scratch` is lost.
    pub fn spot(&self, kind: Kind, place: u32, to: u32) -> Routine {
        let base = self.places.table(kind) as u64;
        self.routine()
            .with(IntOp::Mul, to, place, PLACE, self.scratch)
            .with(IntOp::Add, to, to, base, self.scratch)
    }

    /// Sets a local to 1 where a place of a kind is free, and else to 0: the table's head names a place, less one, or is 0 where the
    /// first one was never taken. The first two spare locals of 32 bits are lost.
    pub fn has_room(&self, kind: Kind, found: u32) -> Routine {
        let head = self.spare.narrow(0);
        let scratch = self.spare.narrow(1);
        let base = self.places.table(kind) as u64;
        let lowered = self.routine().with(IntOp::Sub, head, head, 1, scratch);
        self.routine()
            .constant(scratch, base)
            .load(head, scratch, HEAD)
            .when(head, lowered)
            .with(IntOp::LtU, found, head, self.places.slots as u64, scratch)
    }

    /// Takes the first free place of a kind for an entry, makes a handle for it, and puts its index into a local; traps where none is
    /// free. Without a local, the word and the long word are 0. The first seven spare locals of 32 bits are lost, and the first one of
    /// 64 bits.
    pub fn make(
        &self,
        kind: Kind,
        tag: Tag,
        word: Option<u32>,
        long: Option<u32>,
        index: u32,
    ) -> Routine {
        let l = TableLocals {
            base: self.spare.narrow(0),
            place: self.spare.narrow(1),
            scratch: self.spare.narrow(2),
            spot: self.spare.narrow(3),
            found: self.spare.narrow(4),
            tag: self.spare.narrow(5),
            word: word.unwrap_or(self.spare.narrow(6)),
            long: long.unwrap_or(self.spare.broad(0)),
        };
        let taken = take(self.alloc, self.places.table(kind), self.places.slots, &l);
        self.routine()
            .constant(l.tag, tag.number())
            .part(self.zero_where(word.is_none(), l.word))
            .part(self.zero_where(long.is_none(), l.long))
            .part(Routine::made(self.alloc, taken))
            .unless(l.found, self.routine().trap())
            .make_handle(kind, l.place, index)
    }

    fn zero_where(&self, holds: bool, local: u32) -> Routine {
        if holds {
            self.routine().constant(local, 0)
        } else {
            self.routine()
        }
    }
}
