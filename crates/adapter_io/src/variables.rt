//! The environment, the arguments and the working directory.

use crate::copying::{Copied, Sums, copy_element};
use crate::halves::find_by_halves;
use crate::static_lists::IoData;
use adapter_code::IntOp;
use adapter_pass::{CASE, Frame, ListAt, Routine, TextAt, number};
use policy_data::Policy;

/// Repeats by their names.
const WEIGHED: u32 = 0;

const HOSTED: u32 = 1;

const OWN: u32 = 2;

/// The bytes of a variable in a list: its name's place and length, and its value's.
const VARIABLE: u32 = 16;

/// Their number as a power of two; of a name alone in a list.
const VARIABLE_SHIFT: u64 = 4;

const NAME_SHIFT: u64 = 3;

// The answer is a list that stands in the static data.
fn static_list(f: &Frame, list: ListAt) -> Routine {
    f.routine()
        .store_value(list.place as u64, f.at, number(0), f.scratch)
        .store_value(list.count as u64, f.at, number(4), f.scratch)
        .part(f.done())
}

fn get_environment(f: &Frame, d: &IoData) -> Routine {
    static_list(f, d.set)
}

fn get_arguments(f: &Frame, d: &IoData) -> Routine {
    static_list(f, d.arguments)
}

fn no_text(f: &Frame) -> Routine {
    f.routine()
        .store_value(0, f.at, CASE, f.scratch)
        .part(f.done())
}

fn some_text(f: &Frame, text: TextAt) -> Routine {
    f.routine()
        .store_value(1, f.at, CASE, f.scratch)
        .store_value(text.place as u64, f.at, number(4), f.scratch)
        .store_value(text.length as u64, f.at, number(8), f.scratch)
        .part(f.done())
}

fn initial_cwd(f: &Frame, d: &IoData) -> Routine {
    match d.cwd {
        Some(text) => some_text(f, text),
        None => no_text(f),
    }
}

/// get-environment, get-arguments and initial-cwd where the host is not asked: what the policy says.
pub fn environment(f: &Frame, d: &IoData, name: &str) -> Routine {
    if name == "get-environment" {
        get_environment(f, d)
    } else if name == "get-arguments" {
        get_arguments(f, d)
    } else {
        initial_cwd(f, d)
    }
}

/// The locals of a filtered environment, each of 32 bits.
#[derive(Clone, Copy)]
struct Filtered {
    /// The host's list, and how many variables it has.
    list: u32,
    count: u32,
    /// The next variable; its name, and the length of this or of another text.
    at: u32,
    name: u32,
    length: u32,
    /// Where the host's answer ends, and the list that is answered begins.
    end: u32,
    /// Where the next kept variable goes, and how many are kept.
    out: u32,
    kept: u32,
    test: u32,
    step: u32,
    last: u32,
    scratch: u32,
}

const PAIRS: u8 = 12;

impl Filtered {
    fn of(f: &Frame) -> Filtered {
        Filtered {
            list: f.spare.narrow(0),
            count: f.spare.narrow(1),
            at: f.spare.narrow(2),
            name: f.spare.narrow(3),
            length: f.spare.narrow(4),
            end: f.spare.narrow(5),
            out: f.spare.narrow(6),
            kept: f.spare.narrow(7),
            test: f.spare.narrow(8),
            step: f.spare.narrow(9),
            last: f.spare.narrow(10),
            scratch: f.spare.narrow(11),
        }
    }
}

fn copied(f: &Frame, l: &Filtered) -> Copied {
    Copied {
        at: l.at,
        out: l.out,
        step: l.step,
        last: l.last,
        narrow: l.scratch,
        broad: f.spare.broad(0),
    }
}

// Where the host's answer ends: its list was requested first, and then its texts, each from a multiple of 8.
fn weigh(f: &Frame, l: &Filtered) -> Routine {
    let sums = Sums::of(&f.inside(PAIRS), l.end);
    let turn = f
        .routine()
        .load(l.length, l.at, number(4))
        .part(sums.add(f, l.length))
        .load(l.length, l.at, number(12))
        .part(sums.add(f, l.length))
        .add(l.at, l.at, l.step);
    sums.begin(f)
        .multiply(l.scratch, l.count, l.step)
        .with(
            IntOp::Add,
            l.end,
            l.scratch,
            f.places.transfer as u64,
            l.end,
        )
        .copy(l.at, l.list)
        .repeat(WEIGHED, l.count, turn)
}

// Whether the next variable of the host is kept: where all are passed, those that the policy sets are not.
fn is_kept(f: &Frame, policy: &Policy, d: &IoData, l: &Filtered) -> Routine {
    let inner = f.inside(PAIRS);
    if policy.env_pass {
        find_by_halves(&inner, d.filter, VARIABLE_SHIFT, l.name, l.length, l.test).with(
            IntOp::Eq,
            l.test,
            l.test,
            0,
            l.scratch,
        )
    } else {
        find_by_halves(&inner, d.filter, NAME_SHIFT, l.name, l.length, l.test)
    }
}

fn keep(f: &Frame, policy: &Policy, d: &IoData, l: &Filtered) -> Routine {
    let kept = copy_element(f, &copied(f, l)).with(IntOp::Add, l.kept, l.kept, 1, l.scratch);
    let turn = f
        .routine()
        .load(l.name, l.at, number(0))
        .load(l.length, l.at, number(4))
        .part(is_kept(f, policy, d, l))
        .when(l.test, kept)
        .add(l.at, l.at, l.step);
    f.routine()
        .constant(l.kept, 0)
        .copy(l.out, l.end)
        .copy(l.at, l.list)
        .repeat(HOSTED, l.count, turn)
}

// The policy's own variables follow.
fn add_own(f: &Frame, d: &IoData, l: &Filtered) -> Routine {
    let turn = copy_element(f, &copied(f, l)).add(l.at, l.at, l.step);
    f.routine()
        .constant(l.at, d.set.place as u64)
        .constant(l.count, d.set.count as u64)
        .repeat(OWN, l.count, turn)
        .add(l.kept, l.kept, l.count)
}

// The last place of the transfer area at which a variable fits.
fn last_place(f: &Frame) -> u32 {
    f.places.transfer_end.saturating_sub(VARIABLE)
}

/// get-environment after the host's answer, whose list stands at the beginning of the transfer area: the variables that the policy
/// passes, in the host's order, and then its own, in a list after the host's answer. It traps where that passes the transfer area.
pub fn filtered_environment(f: &Frame, policy: &Policy, d: &IoData) -> Routine {
    let l = Filtered::of(f);
    f.begin()
        .load(l.list, f.at, number(0))
        .load(l.count, f.at, number(4))
        .constant(l.step, VARIABLE as u64)
        .constant(l.last, last_place(f) as u64)
        .part(weigh(f, &l))
        .part(keep(f, policy, d, &l))
        .part(add_own(f, d, &l))
        .store(l.end, f.at, number(0))
        .store(l.kept, f.at, number(4))
        .part(f.done())
}
