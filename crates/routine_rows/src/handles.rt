//! Handles that a stub makes and drops, by the evaluator over a table of handles, and by the machine: the stub asks for what
//! the evaluator makes and drops, in order, and both end alike.

use crate::calls::ran_in_words;
use crate::comparing::holds;
use crate::compiled::world_with;
use crate::reading::halves;
use crate::running::{evaluated, set_handles, state_of};
use crate::world::call_by_name;
use adapter_code::{Effect, RowState};
use core_interp::CoreValues;
use core_store::CoreValue::I32;
use std::alloc::Global;
use std::process::Abort;
use std::test::Fail;
use virt_base::{Items, NoMemory};

/// The embedder's answers: the index of a handle that was made, and nothing for one that was dropped.
fn answers_of(alloc: Global, effects: &[Effect]) -> Result<Vec<CoreValues>, NoMemory> {
    let mut answers = Vec::new(alloc);
    for effect in effects {
        answers.push(match effect {
            Effect::Made { index, .. } => Items::new(vec![in alloc; I32(*index)]?),
            Effect::Dropped { .. } => Items::empty(alloc),
        })?;
    }
    Ok(answers)
}

/// Calls the stub of a routine, of one number and with one result, by the machine: in words what comes of it.
fn asked(alloc: Global, routine: &str, number: &str, effects: &[Effect]) -> Result<String, Fail> {
    let mut world = world_with(alloc, "0 > 0 | ", routine)?;
    let answers = answers_of(alloc, effects)?;
    let ran = call_by_name(alloc, &mut world, "0", number, answers.as_slice())?;
    ran_in_words(alloc, &ran)
}

/// `LOCALS | ROUTINE | PLACES => WANTED => ASKED`: what comes of the routine by the evaluator, and of the stub by the machine. The
/// locals are the parameter, the flag and the result. What the handles refuse is asked for too.
fn row_holds(rt: &impl Abort, alloc: Global, state: &mut RowState, row: &str) -> Result<(), Fail> {
    let (work, wanted) = halves(row, " => ");
    let (wanted, wanted_asked) = halves(wanted, " => ");
    let found = evaluated(alloc, state, work)?;
    holds(rt, alloc, row, found.as_str(), wanted)?;
    let (given, rest) = halves(work, " | ");
    let (number, _) = halves(given, " ");
    let (routine, _) = halves(rest, " | ");
    let found = asked(alloc, routine, number, state.effects.as_slice())?;
    holds(rt, alloc, row, found.as_str(), wanted_asked)
}

/// The handles of each row are those of the last line `handles LIST` above it. A line after `-- ` says what the rows below it
/// are about.
fn rows_hold(rt: &impl Abort, alloc: Global, rows: &str) -> Result<(), Fail> {
    let mut state = state_of(alloc, 0)?;
    let mut list = "none";
    for line in rows.lines() {
        if let Some(other) = line.strip_prefix("handles ") {
            list = other;
        } else if !line.starts_with("-- ") {
            set_handles(alloc, &mut state, list)?;
            row_holds(rt, alloc, &mut state, line)?;
        }
    }
    Ok(())
}

/// Among five handles are 1, 3 and 5 of the host's resource of kind 0, of which 3 is lent; 2 and 4 are of the adapter's own and of
/// kind 1.
const ROWS: &str = "\
-- a number of a place is handed on as it is, and the first index that is free is given
handles own 1 0 70, own 2 14 71, own 3 0 72, own 4 1 73, own 5 0 0xFFFFFFFF, lend 3 0
0 0 0 | new 1 0 2 | 2 => answer 6; [Made { kind: 1, rep: 0, index: 6 }] => answer 6; [(101, [I32(0)])]
1 0 0 | new 1 0 2 | 2 => answer 6; [Made { kind: 1, rep: 1, index: 6 }] => answer 6; [(101, [I32(1)])]
2147483647 0 0 | new 1 0 2 | 2 => answer 6; [Made { kind: 1, rep: 2147483647, index: 6 }] => answer 6; [(101, [I32(2147483647)])]
2147483648 0 0 | new 1 0 2 | 2 => answer 6; [Made { kind: 1, rep: 2147483648, index: 6 }] => answer 6; [(101, [I32(2147483648)])]
4294967295 0 0 | new 1 0 2 | 2 => answer 6; [Made { kind: 1, rep: 4294967295, index: 6 }] => answer 6; [(101, [I32(4294967295)])]
-- of an empty table the first index is 1
handles none
40 0 0 | new 0 0 2; new 1 2 2 | 2 => answer 2; [Made { kind: 0, rep: 40, index: 1 }, Made { kind: 1, rep: 1, index: 2 }] => answer 2; [(100, [I32(40)]), (101, [I32(1)])]
-- an index that was freed comes before the next
handles own 1 0 70, own 2 14 71, own 3 0 72, own 4 1 73, own 5 0 0xFFFFFFFF, lend 3 0, take 2 14
40 0 0 | new 0 0 2; new 1 2 2 | 2 => answer 6; [Made { kind: 0, rep: 40, index: 2 }, Made { kind: 1, rep: 2, index: 6 }] => answer 6; [(100, [I32(40)]), (101, [I32(2)])]
-- the first and the last handle of the host are dropped; with 0 nothing is asked
handles own 1 0 70, own 2 14 71, own 3 0 72, own 4 1 73, own 5 0 0xFFFFFFFF, lend 3 0
1 0 0 | when 0 {; drop 0 0; const 2 1; } | 2 => answer 1; [Dropped { kind: 0, rep: 70, index: 1 }] => answer 1; [(200, [I32(1)])]
5 0 0 | when 0 {; drop 0 0; const 2 1; } | 2 => answer 1; [Dropped { kind: 0, rep: 4294967295, index: 5 }] => answer 1; [(200, [I32(5)])]
0 0 0 | when 0 {; drop 0 0; const 2 1; } | 2 => answer 0 => answer 0
-- one of the adapter's own, one that is lent, one of another kind, one past the last, and the greatest index are refused
2 0 0 | when 0 {; drop 0 0; const 2 1; } | 2 => trap 0 => trap; [(200, [I32(2)])]
3 0 0 | when 0 {; drop 0 0; const 2 1; } | 2 => trap 0 => trap; [(200, [I32(3)])]
4 0 0 | when 0 {; drop 0 0; const 2 1; } | 2 => trap 0 => trap; [(200, [I32(4)])]
6 0 0 | when 0 {; drop 0 0; const 2 1; } | 2 => trap 0 => trap; [(200, [I32(6)])]
2147483648 0 0 | when 0 {; drop 0 0; const 2 1; } | 2 => trap 0 => trap; [(200, [I32(2147483648)])]
4294967295 0 0 | when 0 {; drop 0 0; const 2 1; } | 2 => trap 0 => trap; [(200, [I32(4294967295)])]
-- no handle has the index 0
0 0 0 | drop 0 0; drop 0 0 | 2 => trap 0 => trap; [(200, [I32(0)])]
-- what was dropped is not there any more, and what the adapter made is none of the host's
5 0 0 | drop 0 0; drop 0 0 | 2 => trap 0; [Dropped { kind: 0, rep: 4294967295, index: 5 }] => trap; [(200, [I32(5)]), (200, [I32(5)])]
7 0 0 | new 0 0 2; drop 0 2 | 2 => trap 6; [Made { kind: 0, rep: 7, index: 6 }] => trap; [(100, [I32(7)]), (200, [I32(6)])]";

#[test]
fn stubs_make_and_drop_handles(rt: HostRuntime) -> Result<(), Fail> {
    rows_hold(&rt, rt.alloc(), ROWS)
}
