//! Where a path leads from the scratch folder.

use crate::locals::Led;
use crate::names::{COMPARED, LED, LOOP, PART, SOUGHT, TAKEN};
use crate::numbers::Numbers;
use crate::places::{LIVE, NAME, NAMED, ScratchAt};
use adapter_code::IntOp;
use adapter_fs::shared::Text;
use adapter_pass::{Frame, Routine, byte, fs_code};

const SLASH: u64 = 47;

const DOT: u64 = 46;

// Leaves `COMPARED` where the name of an entry, of the same length, is another one, and else `SOUGHT`. Five spare locals are lost.
fn compare(f: &Frame, each: Numbers, name: Text) -> Routine {
    let mine = f.spare.narrow(0);
    let theirs = f.spare.narrow(1);
    let a = f.spare.narrow(2);
    let b = f.spare.narrow(3);
    let letter = f
        .routine()
        .load(a, mine, byte(NAME))
        .load(b, theirs, byte(0))
        .differ(a, a, b)
        .when(a, f.routine().leave(COMPARED))
        .add(mine, mine, each.one)
        .add(theirs, theirs, each.one);
    f.routine()
        .copy(mine, each.entry)
        .copy(theirs, name.place)
        .repeat(LOOP, name.length, letter)
        .leave(SOUGHT)
}

// Sets `found` to 1 and `number` to that of the file of a name; or `found` to 0. Ten spare locals of 32 bits are lost.
fn find(f: &Frame, s: ScratchAt, name: Text, number: u32, found: u32) -> Routine {
    let each = Numbers {
        number,
        ..Numbers::of(&f.spare)
    };
    let test = f.spare.narrow(5);
    let compared = f
        .routine()
        .once(COMPARED, f.scratch, compare(&f.inside(6), each, name));
    let named = f
        .routine()
        .load(test, each.entry, NAMED)
        .equal(test, test, name.length)
        .when(test, compared);
    let body = f.routine().load(test, each.entry, LIVE).when(test, named);
    let sought = f
        .routine()
        .constant(found, 1)
        .part(each.each(f, s, LOOP, body))
        .constant(found, 0);
    f.routine().once(SOUGHT, f.scratch, sought)
}

// The locals of a path: where the next part begins, or one past the end where none is left; the end; a byte, a test, and 1.
#[derive(Clone, Copy)]
struct Path {
    next: u32,
    end: u32,
    letter: u32,
    test: u32,
    one: u32,
    rest: u32,
}

impl Path {
    fn of(f: &Frame) -> Path {
        Path {
            next: f.spare.narrow(0),
            end: f.spare.narrow(1),
            letter: f.spare.narrow(2),
            test: f.spare.narrow(3),
            one: f.spare.narrow(4),
            rest: f.spare.narrow(5),
        }
    }

    /// Its locals are taken.
    fn inside(&self, f: &Frame) -> Frame {
        f.inside(6)
    }

    // Runs a routine where the byte is this one.
    fn when_letter(&self, f: &Frame, letter: u64, body: Routine) -> Routine {
        f.routine()
            .when_is(self.letter, letter, f.scratch, self.test, body)
    }

    // The next part: it ends at a slash, or at the end.
    fn cut(&self, f: &Frame, part: Text) -> Routine {
        let letter = f
            .routine()
            .load(self.letter, self.next, byte(0))
            .part(self.when_letter(f, SLASH, f.routine().leave(PART)))
            .add(self.next, self.next, self.one);
        f.routine()
            .copy(part.place, self.next)
            .subtract(self.rest, self.end, self.next)
            .repeat(PART, self.rest, letter)
            .subtract(part.length, self.next, part.place)
            .add(self.next, self.next, self.one)
    }

    // An empty part and `.` stay in the folder, and `..` is not permitted.
    fn skip_dots(&self, f: &Frame, led: Led) -> Routine {
        let part = led.part;
        let up = self.when_letter(f, DOT, fail(f, led, fs_code::NOT_PERMITTED));
        let second = f.routine().load(self.letter, part.place, byte(1)).part(up);
        let dots = f
            .routine()
            .equal(self.test, part.length, self.one)
            .when(self.test, f.routine().leave(TAKEN))
            .when_is(part.length, 2, f.scratch, self.test, second);
        f.routine()
            .unless(part.length, f.routine().leave(TAKEN))
            .load(self.letter, part.place, byte(0))
            .part(self.when_letter(f, DOT, dots))
    }

    // Takes one part.
    fn take(&self, f: &Frame, s: ScratchAt, led: Led) -> Routine {
        let found = find(&self.inside(f), s, led.part, led.found, self.test);
        let missing = f
            .routine()
            .less(led.fresh, self.end, self.next)
            .part(fail(f, led, fs_code::NO_ENTRY));
        self.skip_dots(f, led)
            .part(found)
            .add(led.found, led.found, self.one)
            .unless(self.test, missing)
    }

    // One turn: the next part, if there is one, which is taken in the folder alone.
    fn turn(&self, f: &Frame, s: ScratchAt, led: Led) -> Routine {
        f.routine()
            .less(self.test, self.end, self.next)
            .when(self.test, f.routine().leave(LED))
            .when(led.found, fail(f, led, fs_code::NOT_DIRECTORY))
            .part(self.cut(f, led.part))
            .once(TAKEN, f.scratch, self.take(f, s, led))
    }
}

fn fail(f: &Frame, led: Led, code: u64) -> Routine {
    f.routine().constant(led.code, code).leave(LED)
}

/// Finds where a path leads, a part each turn. It may have a part more than bytes. All spare locals of 32 bits are lost.
pub fn lead(f: &Frame, s: ScratchAt, path: Text, led: Led) -> Routine {
    let l = Path::of(f);
    let turns = l.rest;
    let rooted = l.when_letter(f, SLASH, fail(f, led, fs_code::NOT_PERMITTED));
    let body = f
        .routine()
        .constant(led.code, 0)
        .constant(led.found, 0)
        .constant(led.fresh, 0)
        .unless(path.length, fail(f, led, fs_code::NO_ENTRY))
        .load(l.letter, path.place, byte(0))
        .part(rooted)
        .copy(l.next, path.place)
        .add(l.end, path.place, path.length)
        .constant(l.one, 1)
        .with(IntOp::Add, turns, path.length, 2, f.scratch)
        .repeat(LOOP, turns, l.turn(f, s, led));
    f.routine().once(LED, f.scratch, body)
}

/// Finds where a path leads, and ends the row with the error where it leads nowhere. All spare locals of 32 bits are lost.
pub fn lead_or_fail(f: &Frame, s: ScratchAt, path: Text, led: Led) -> Routine {
    lead(f, s, path, led).when(led.code, f.err_in(led.code))
}
