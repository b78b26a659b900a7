//! The walk along a path.
//!
//! Parts are taken one after another, a turn each. The next one begins at `pos` of a text that ends at `end`; a text has no part left
//! where `pos` is past `end`. Texts that wait have a part left. They stand from the beginning of the memory on, the one that goes on
//! next last, and end at `top`; each has six bytes: where it goes on, and the node whose target it is, or 0 for the path.

use crate::finding::{Search, find};
use crate::names::{SCAN, TAKEN, TURNS, WALK};
use crate::nodes::{CONTENT, CONTENT_END, FILE, LINK, MOST_LINKS, NodesAt, PARENT, RECORD, TYPE};
use adapter_code::IntOp;
use adapter_pass::{Frame, Routine, byte, fs_code, half, number};

const SLASH: u64 = 47;

const DOT: u64 = 46;

/// The bytes of a text that waits.
const WAITING: u64 = 6;

/// A path, by the locals that a walk reads: the node from which it leads, which is no link, and its text.
#[derive(Clone, Copy, Debug)]
pub struct Path {
    pub start: u32,
    pub text: u32,
    pub length: u32,
    /// Whether a link that the whole path names is followed: where this is not 0, or never.
    pub follow: Option<u32>,
}

/// What comes of a walk: the local of the node to which the path leads, and that of the error's code, which is 0 where there is none.
#[derive(Clone, Copy, Debug)]
pub struct Found {
    pub node: u32,
    pub code: u32,
}

/// The locals of a walk.
#[derive(Clone, Copy)]
struct Walker {
    nodes: NodesAt,
    path: Path,
    node: u32,
    code: u32,
    // These hold numbers that don't change: the bytes of a record, 1, the byte of a slash, the bytes of a text that waits.
    size: u32,
    one: u32,
    slash: u32,
    six: u32,
    test: u32,
    /// The record of a node, and its type.
    record: u32,
    kind: u32,
    /// The text that goes on, and the link whose target it is.
    pos: u32,
    end: u32,
    current: u32,
    path_end: u32,
    /// The end of the texts that wait.
    top: u32,
    /// How many links may be followed.
    more: u32,
    turns: u32,
    /// The part that is taken, its length and a byte of it.
    part: u32,
    length: u32,
    byte: u32,
    child: u32,
    found: u32,
}

fn walker_of(f: &Frame, nodes: NodesAt, path: Path, to: Found) -> Walker {
    let spare = f.spare;
    Walker {
        nodes,
        path,
        node: to.node,
        code: to.code,
        size: spare.narrow(0),
        one: spare.narrow(1),
        slash: spare.narrow(2),
        six: spare.narrow(3),
        test: spare.narrow(4),
        record: spare.narrow(5),
        kind: spare.narrow(6),
        pos: spare.narrow(7),
        end: spare.narrow(8),
        current: spare.narrow(9),
        path_end: spare.narrow(10),
        top: spare.narrow(11),
        more: spare.narrow(12),
        turns: spare.narrow(13),
        part: spare.narrow(14),
        length: spare.narrow(15),
        byte: spare.narrow(16),
        child: spare.narrow(17),
        found: spare.narrow(18),
    }
}

impl Walker {
    // The path leads nowhere.
    fn fail(&self, f: &Frame, code: u64) -> Routine {
        f.routine().constant(self.code, code).leave(WALK)
    }

    fn fail_at_file(&self, f: &Frame) -> Routine {
        let fails = self.fail(f, fs_code::NOT_DIRECTORY);
        f.routine()
            .when_is(self.kind, FILE as u64, f.scratch, self.test, fails)
    }

    // Reads the type of a node.
    fn look(&self, f: &Frame, node: u32) -> Routine {
        f.routine()
            .multiply(self.record, node, self.size)
            .load(self.kind, self.record, self.nodes.field(TYPE))
    }

    // The text of the link at the record ends here.
    fn end_of_target(&self, f: &Frame) -> Routine {
        f.routine()
            .load(self.end, self.record, self.nodes.field(CONTENT_END))
            .part(self.nodes.absolute(f, self.end))
    }

    // Paths that lead nowhere at all.
    fn refuse(&self, f: &Frame) -> Routine {
        f.routine()
            .part(self.look(f, self.path.start))
            .part(self.fail_at_file(f))
            .unless(self.path.length, self.fail(f, fs_code::NO_ENTRY))
            .load(self.test, self.path.text, byte(0))
            .equal(self.test, self.test, self.slash)
            .when(self.test, self.fail(f, fs_code::NOT_PERMITTED))
    }

    fn begin(&self, f: &Frame) -> Routine {
        f.routine()
            .copy(self.node, self.path.start)
            .copy(self.pos, self.path.text)
            .add(self.end, self.path.text, self.path.length)
            .copy(self.path_end, self.end)
            .constant(self.current, 0)
            .constant(self.top, 0)
            .constant(self.more, MOST_LINKS as u64)
            .with(
                IntOp::Add,
                self.turns,
                self.path.length,
                self.nodes.turns() as u64,
                f.scratch,
            )
    }

    // The text that waits last goes on; where none waits the walk ends.
    fn resume(&self, f: &Frame) -> Routine {
        let of_link = f
            .routine()
            .multiply(self.record, self.current, self.size)
            .part(self.end_of_target(f));
        f.routine()
            .unless(self.top, f.routine().leave(WALK))
            .subtract(self.top, self.top, self.six)
            .load(self.pos, self.top, number(0))
            .load(self.current, self.top, half(4))
            .choose(
                self.current,
                of_link,
                f.routine().copy(self.end, self.path_end),
            )
    }

    // The next part ends at a slash or with the text; the text goes on after it.
    fn cut(&self, f: &Frame) -> Routine {
        let scan = f
            .routine()
            .load(self.byte, self.pos, byte(0))
            .equal(self.test, self.byte, self.slash)
            .when(self.test, f.routine().leave(SCAN))
            .add(self.pos, self.pos, self.one);
        f.routine()
            .copy(self.part, self.pos)
            .subtract(self.length, self.end, self.pos)
            .repeat(SCAN, self.length, scan)
            .subtract(self.length, self.pos, self.part)
            .add(self.pos, self.pos, self.one)
    }

    // Two dots lead to the folder above, but not above the beginning.
    fn take_up(&self, f: &Frame) -> Routine {
        let up = f
            .routine()
            .equal(self.test, self.node, self.path.start)
            .when(self.test, self.fail(f, fs_code::NOT_PERMITTED))
            .load(self.node, self.record, self.nodes.field(PARENT))
            .leave(TAKEN);
        f.routine()
            .load(self.byte, self.part, byte(1))
            .when_is(self.byte, DOT, f.scratch, self.test, up)
    }

    // A part that begins with a dot.
    fn take_dots(&self, f: &Frame) -> Routine {
        f.routine()
            .equal(self.test, self.length, self.one)
            .when(self.test, f.routine().leave(TAKEN))
            .when_is(self.length, 2, f.scratch, self.test, self.take_up(f))
    }

    // The child that the part names.
    fn find_child(&self, f: &Frame) -> Routine {
        let search = Search {
            record: self.record,
            part: self.part,
            length: self.length,
            one: self.one,
            size: self.size,
            child: self.child,
            found: self.found,
        };
        f.routine()
            .part(find(&f.inside(19), self.nodes, &search))
            .unless(self.found, self.fail(f, fs_code::NO_ENTRY))
    }

    // The walk ends at the link where no text waits and it is not to be followed.
    fn end_at_link(&self, f: &Frame) -> Routine {
        let ends = f.routine().copy(self.node, self.child).leave(WALK);
        let alone = f.routine().unless(self.top, ends);
        match self.path.follow {
            Some(follow) => f.routine().unless(follow, alone),
            None => alone,
        }
    }

    // Where a part is left of the text, it waits.
    fn wait(&self, f: &Frame) -> Routine {
        f.routine()
            .store(self.pos, self.top, number(0))
            .store(self.current, self.top, half(4))
            .add(self.top, self.top, self.six)
    }

    // The child is a link, whose target goes on. `test`: whether no part is left of the text.
    fn follow(&self, f: &Frame) -> Routine {
        f.routine()
            .less(self.test, self.end, self.pos)
            .when(self.test, self.end_at_link(f))
            .unless(self.more, self.fail(f, fs_code::LOOP))
            .subtract(self.more, self.more, self.one)
            .load(self.byte, self.record, self.nodes.field(CONTENT))
            .part(self.nodes.absolute(f, self.byte))
            .load(self.kind, self.byte, byte(0))
            .equal(self.kind, self.kind, self.slash)
            .when(self.kind, self.fail(f, fs_code::NOT_PERMITTED))
            .unless(self.test, self.wait(f))
            .copy(self.current, self.child)
            .copy(self.pos, self.byte)
            .part(self.end_of_target(f))
    }

    // What the part asks for.
    fn take(&self, f: &Frame) -> Routine {
        let goes = f.routine().copy(self.node, self.child).leave(TAKEN);
        f.routine()
            .unless(self.length, f.routine().leave(TAKEN))
            .load(self.byte, self.part, byte(0))
            .when_is(self.byte, DOT, f.scratch, self.test, self.take_dots(f))
            .part(self.find_child(f))
            .part(self.look(f, self.child))
            .with(IntOp::Eq, self.test, self.kind, LINK as u64, f.scratch)
            .unless(self.test, goes)
            .part(self.follow(f))
    }

    fn turn(&self, f: &Frame) -> Routine {
        f.routine()
            .less(self.test, self.end, self.pos)
            .when(self.test, self.resume(f))
            .part(self.look(f, self.node))
            .part(self.fail_at_file(f))
            .part(self.cut(f))
            .repeat(TAKEN, self.one, self.take(f))
    }

    fn all(&self, f: &Frame) -> Routine {
        let turns = f
            .routine()
            .part(self.refuse(f))
            .part(self.begin(f))
            .repeat(TURNS, self.turns, self.turn(f));
        f.routine()
            .constant(self.code, 0)
            .constant(self.size, RECORD)
            .constant(self.slash, SLASH)
            .constant(self.six, WAITING)
            .once(WALK, self.one, turns)
    }
}

/// Goes along a path, and sets two locals to what comes of it. The first 29 spare locals of 32 bits are lost, and the memory in which
/// the answer is written.
pub fn walk(f: &Frame, nodes: NodesAt, path: Path, to: Found) -> Routine {
    walker_of(f, nodes, path, to).all(f)
}
