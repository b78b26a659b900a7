//! get-directories.

use crate::copying::Sums;
use crate::passed_names::{Search, find_passed};
use crate::static_lists::IoData;
use adapter_code::IntOp;
use adapter_pass::{Frame, Kind, ListAt, Routine, Tag, long, number};
use policy_data::{HostFiles, Policy};

/// Repeats by their names.
const ROOTS: u32 = 0;

const WEIGHED: u32 = 1;

const HOSTED: u32 = 2;

/// The bytes of a folder in a list: a handle, or the number of a node, and the place and length of a name.
const FOLDER: u64 = 12;

/// Stands for the length of the name of a folder of the host that is dropped. No text is so long.
const DROPPED: u64 = 0xFFFF_FFFF;

/// The locals of a list of folders in the making.
#[derive(Clone, Copy)]
struct Listed {
    /// A folder, and where the next one of the answer goes; of 32 bits.
    at: u32,
    out: u32,
    /// The number of its entry, of 32 bits; its name, of 64 bits.
    word: u32,
    name: u32,
    count: u32,
}

const LISTED_PAIRS: u8 = 4;

impl Listed {
    fn of(f: &Frame) -> Listed {
        Listed {
            at: f.spare.narrow(0),
            out: f.spare.narrow(1),
            word: f.spare.narrow(2),
            name: f.spare.broad(0),
            count: f.spare.narrow(3),
        }
    }
}

// Adds a folder with a new handle and the name that stands after `at`; traps where no place is free for the handle.
fn put_folder(f: &Frame, tag: Tag, word: Option<u32>, l: &Listed) -> Routine {
    let index = f.spare.narrow(0);
    f.inside(1)
        .make(Kind::Descriptor, tag, word, None, index)
        .store(index, l.out, number(0))
        .load(l.name, l.at, long(4))
        .store(l.name, l.out, long(4))
        .with(IntOp::Add, l.out, l.out, FOLDER, index)
}

// The roots of trees.
fn put_roots(f: &Frame, roots: ListAt, l: &Listed) -> Routine {
    if roots.count == 0 {
        return f.routine();
    }
    let root = f
        .routine()
        .load(l.word, l.at, number(0))
        .part(put_folder(f, Tag::Node, Some(l.word), l))
        .with(IntOp::Add, l.at, l.at, FOLDER, l.word);
    f.routine()
        .constant(l.at, roots.place as u64)
        .constant(l.count, roots.count as u64)
        .repeat(ROOTS, l.count, root)
}

fn put_scratch(f: &Frame, scratch: Option<u32>, l: &Listed) -> Routine {
    match scratch {
        Some(place) => f
            .routine()
            .constant(l.at, place as u64)
            .part(put_folder(f, Tag::ScratchRoot, None, l)),
        None => f.routine(),
    }
}

// The folders of the adapter's own. `put_folder` loses eight further spare locals of 32 bits, and one of 64 bits.
fn put_own(f: &Frame, d: &IoData, l: &Listed) -> Routine {
    put_roots(f, d.roots, l).part(put_scratch(f, d.scratch, l))
}

// How many they are.
fn own_count(d: &IoData) -> u64 {
    let scratch: u32 = if d.scratch.is_some() { 1 } else { 0 };
    d.roots.count.saturating_add(scratch) as u64
}

/// get-directories where the host is not asked: the roots of trees, and the scratch folder, in a list at the beginning of the transfer
/// area. It traps where no place is free for a handle.
pub fn virtual_directories(f: &Frame, d: &IoData) -> Routine {
    let l = Listed::of(f);
    let area = f.places.transfer as u64;
    f.routine()
        .constant(l.out, area)
        .part(put_own(&f.inside(LISTED_PAIRS), d, &l))
        .store_value(area, f.at, number(0), f.scratch)
        .store_value(own_count(d), f.at, number(4), f.scratch)
        .part(f.done())
}

/// The locals of filtered folders, each of 32 bits, beside those of a list in the making.
#[derive(Clone, Copy)]
struct Filtered {
    listed: Listed,
    /// The host's list, and how many folders it has.
    list: u32,
    count: u32,
    /// Where the host's answer ends, and the list that is answered begins.
    end: u32,
    /// How many of the host's folders are kept.
    kept: u32,
    /// A name of the host, its length, whether it is passed, and by which element.
    search: Search,
    test: u32,
    step: u32,
    index: u32,
}

const PAIRS: u8 = 15;

impl Filtered {
    fn of(f: &Frame) -> Filtered {
        let own = f.inside(LISTED_PAIRS).spare;
        Filtered {
            listed: Listed::of(f),
            list: own.narrow(0),
            count: own.narrow(1),
            end: own.narrow(2),
            kept: own.narrow(3),
            search: Search {
                name: own.narrow(4),
                length: own.narrow(5),
                found: own.narrow(6),
                at: own.narrow(7),
            },
            test: own.narrow(8),
            step: own.narrow(9),
            index: own.narrow(10),
        }
    }
}

// The folder is called by the name that the policy shows, or marked as dropped.
fn rename(f: &Frame, d: &IoData, l: &Filtered) -> Routine {
    let at = l.listed.at;
    let passed = f
        .routine()
        .load(l.listed.name, l.search.at, long(8))
        .store(l.listed.name, at, long(4))
        .with(IntOp::Add, l.kept, l.kept, 1, l.test);
    let dropped = f.routine().store_value(DROPPED, at, number(8), l.test);
    f.routine()
        .load(l.search.name, at, number(4))
        .part(find_passed(&f.inside(3), d.passes, &l.search))
        .choose(l.search.found, passed, dropped)
}

fn settle(f: &Frame, policy: &Policy, d: &IoData, l: &Filtered) -> Routine {
    match policy.fs_host {
        HostFiles::All => f.routine().with(IntOp::Add, l.kept, l.kept, 1, l.test),
        HostFiles::Deny => rename(f, d, l),
    }
}

// Where the host's answer ends, and what each of its folders is called.
fn weigh(f: &Frame, policy: &Policy, d: &IoData, l: &Filtered) -> Routine {
    let sums = Sums::of(f, l.end);
    let at = l.listed.at;
    let turn = f
        .routine()
        .load(l.search.length, at, number(8))
        .part(sums.add(f, l.search.length))
        .part(settle(f, policy, d, l))
        .add(at, at, l.step);
    sums.begin(f)
        .constant(l.end, f.places.transfer as u64)
        .multiply(l.test, l.count, l.step)
        .part(sums.add(f, l.test))
        .constant(l.kept, 0)
        .copy(at, l.list)
        .repeat(WEIGHED, l.count, turn)
        .part(check_room(f, d, l))
}

// How many folders are answered; their list has to fit after the host's answer. The sums' constants still stand.
fn check_room(f: &Frame, d: &IoData, l: &Filtered) -> Routine {
    let needed = Sums::of(f, l.search.name);
    f.routine()
        .with(IntOp::Add, l.kept, l.kept, own_count(d), l.test)
        .store(l.kept, f.at, number(4))
        .multiply(l.test, l.kept, l.step)
        .copy(needed.total, l.end)
        .part(needed.add(f, l.test))
        .constant(l.test, f.places.transfer_end as u64)
        .less(l.test, l.test, needed.total)
        .when(l.test, f.routine().trap())
}

fn keep(f: &Frame, l: &Filtered) -> Routine {
    put_folder(f, Tag::Host, Some(l.index), &l.listed)
}

fn keep_or_drop(f: &Frame, policy: &Policy, l: &Filtered) -> Routine {
    match policy.fs_host {
        HostFiles::All => keep(f, l),
        HostFiles::Deny => {
            let dropped = f.routine().drop_handle(Kind::Descriptor, l.index);
            f.routine()
                .load(l.search.length, l.listed.at, number(8))
                .constant(l.test, DROPPED)
                .equal(l.test, l.search.length, l.test)
                .choose(l.test, dropped, keep(f, l))
        }
    }
}

// The host's folders in order.
fn put_hosted(f: &Frame, policy: &Policy, l: &Filtered) -> Routine {
    let at = l.listed.at;
    let turn = f
        .routine()
        .load(l.index, at, number(0))
        .part(keep_or_drop(f, policy, l))
        .add(at, at, l.step);
    f.routine()
        .store(l.end, f.at, number(0))
        .copy(l.listed.out, l.end)
        .copy(at, l.list)
        .repeat(HOSTED, l.count, turn)
}

/// get-directories after the host's answer, whose list stands at the beginning of the transfer area: the host's folders that the policy
/// passes, in the host's order and under the names that it shows, and then those of the adapter's own, in a list after the host's
/// answer. The host's other folders are dropped. It traps where the list passes the transfer area, or where no place is free for a
/// handle.
pub fn filtered_directories(f: &Frame, policy: &Policy, d: &IoData) -> Routine {
    let l = Filtered::of(f);
    let inner = f.inside(PAIRS);
    f.begin()
        .load(l.list, f.at, number(0))
        .load(l.count, f.at, number(4))
        .constant(l.step, FOLDER)
        .part(weigh(&inner, policy, d, &l))
        .part(put_hosted(&inner, policy, &l))
        .part(put_own(&inner, d, &l.listed))
        .part(f.done())
}
