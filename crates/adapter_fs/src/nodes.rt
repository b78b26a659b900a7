//! The nodes of trees in the static data, as routines read them.
//!
//! Each node has a record of ten numbers of 32 bits, in the order of the table of nodes; after the records stand the bytes of names
//! and contents, node by node. Places of bytes are counted from where these begin.
//!
//! | Offset | Number |
//! |---|---|
//! | 0, 4 | where its name begins and ends |
//! | 8, 12 | where its content begins and ends: a file's bytes, a link's target; nothing at a folder |
//! | 16 | its folder, and 0 at a root |
//! | 20, 24 | its children are the nodes from the first number up to the second |
//! | 28 | the place of its tree, from 0 |
//! | 32 | the place of its path in the tree's order |
//! | 36 | the number of its `descriptor-type` |

use crate::shared::{Span, Text};
use adapter_code::{Field, IntOp};
use adapter_pass::{Frame, Routine, number};

/// The bytes of a record.
pub const RECORD: u64 = 40;

pub const NAME: u32 = 0;

pub const NAME_END: u32 = 4;

pub const CONTENT: u32 = 8;

pub const CONTENT_END: u32 = 12;

pub const PARENT: u32 = 16;

pub const FIRST: u32 = 20;

pub const LAST: u32 = 24;

pub const TREE: u32 = 28;

pub const PLACE: u32 = 32;

pub const TYPE: u32 = 36;

/// The number of the type of a folder.
pub const FOLDER: u32 = 3;

/// That of a symbolic link.
pub const LINK: u32 = 5;

/// That of a file.
pub const FILE: u32 = 6;

/// How many links a walk follows at most.
pub const MOST_LINKS: u32 = 40;

/// Where the nodes of trees stand in the memory, and what is known of them when routines are written.
#[derive(Clone, Copy, Debug)]
pub struct NodesAt {
    /// Where the records begin.
    pub records: u32,
    /// Where the bytes of names and contents begin.
    pub bytes: u32,
    /// How many nodes there are.
    pub count: u32,
    /// The bytes of the longest target of a link.
    pub longest: u32,
}

impl NodesAt {
    /// A number of a record, which is read at the record's place among the records.
    pub fn field(&self, offset: u32) -> Field {
        number(self.records.saturating_add(offset))
    }

    /// The binary digits of the number of nodes: a search by halves has no more probes.
    pub fn digits(&self) -> u32 {
        u32::BITS.saturating_sub(self.count.leading_zeros())
    }

    /// How many turns a walk has at most beside one for each byte of the path.
    pub fn turns(&self) -> u32 {
        self.longest
            .saturating_add(1)
            .saturating_mul(MOST_LINKS)
            .saturating_add(2)
    }

    /// Sets a local to the place of a node's record among the records. `scratch` is lost.
    pub fn record(&self, f: &Frame, node: u32, to: u32) -> Routine {
        f.routine().with(IntOp::Mul, to, node, RECORD, f.scratch)
    }

    /// Makes a place of the memory of a place among the bytes. `scratch` is lost.
    pub fn absolute(&self, f: &Frame, place: u32) -> Routine {
        f.routine()
            .with(IntOp::Add, place, place, self.bytes as u64, f.scratch)
    }

    // A text of the node at a record.
    fn text(&self, f: &Frame, record: u32, first: u32, last: u32, to: Text) -> Routine {
        f.routine()
            .load(to.place, record, self.field(first))
            .load(to.length, record, self.field(last))
            .subtract(to.length, to.length, to.place)
            .part(self.absolute(f, to.place))
    }

    /// The name of the node at a record. `scratch` is lost.
    pub fn name(&self, f: &Frame, record: u32, to: Text) -> Routine {
        self.text(f, record, NAME, NAME_END, to)
    }

    /// The target of the link at a record. `scratch` is lost.
    pub fn target(&self, f: &Frame, record: u32, to: Text) -> Routine {
        self.text(f, record, CONTENT, CONTENT_END, to)
    }

    /// The content of the node at a record. `scratch` and the first spare local of 32 bits are lost.
    pub fn content(&self, f: &Frame, record: u32, to: Span) -> Routine {
        let text = Text {
            place: to.place,
            length: f.spare.narrow(0),
        };
        self.target(f, record, text).copy(to.size, text.length)
    }
}
