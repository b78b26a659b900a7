//! Routines by the evaluator alone.

use crate::comparing::holds;
use crate::reading::{halves, number};
use crate::running::{evaluated, set_handles, state_of};
use adapter_code::RowState;
use std::alloc::Global;
use std::process::Abort;
use std::test::Fail;

/// `LOCALS | ROUTINE | PLACES => WANTED`: what is seen at the places when the routine has ended, and the handles that it made
/// and dropped.
fn row_holds(rt: &impl Abort, alloc: Global, state: &mut RowState, row: &str) -> Result<(), Fail> {
    let (work, wanted) = halves(row, " => ");
    let found = evaluated(alloc, state, work)?;
    holds(rt, alloc, row, found.as_str(), wanted)
}

fn set_memory(alloc: Global, state: &mut RowState, len: &str) -> Result<(), Fail> {
    state.memory = vec![in alloc; 0; number(len)? as usize]?;
    Ok(())
}

/// The memory and the handles are those that the row before leaves, or those of a line `memory LENGTH` or `handles LIST`. A
/// line after `-- ` says what the rows below it are about.
fn line_holds(
    rt: &impl Abort,
    alloc: Global,
    state: &mut RowState,
    line: &str,
) -> Result<(), Fail> {
    if line.starts_with("-- ") {
        return Ok(());
    }
    if let Some(len) = line.strip_prefix("memory ") {
        return set_memory(alloc, state, len);
    }
    if let Some(list) = line.strip_prefix("handles ") {
        return set_handles(alloc, state, list);
    }
    row_holds(rt, alloc, state, line)
}

fn rows_hold(rt: &impl Abort, alloc: Global, rows: &str) -> Result<(), Fail> {
    let mut state = state_of(alloc, 0)?;
    for line in rows.lines() {
        line_holds(rt, alloc, &mut state, line)?;
    }
    Ok(())
}

const NUMBERS: &str = "\
-- small numbers wrap at 32 bits
0xFFFFFFFF 0xFFFFFFFF 0 | eq 2 0 1 | 0 1 2 => answer 0xFFFFFFFF 0xFFFFFFFF 1
0 0xFFFFFFFF 0 | eq 2 0 1 | 0 1 2 => answer 0 0xFFFFFFFF 0
0 1 0 | ne 2 0 1 | 0 1 2 => answer 0 1 1
7 7 0 | ne 2 0 1 | 0 1 2 => answer 7 7 0
0 0xFFFFFFFF 0 | lt 2 0 1 | 0 1 2 => answer 0 0xFFFFFFFF 1
0xFFFFFFFF 0xFFFFFFFF 0 | lt 2 0 1 | 0 1 2 => answer 0xFFFFFFFF 0xFFFFFFFF 0
0xFFFFFFFF 0xFFFFFFFF 0 | le 2 0 1 | 0 1 2 => answer 0xFFFFFFFF 0xFFFFFFFF 1
0xFFFFFFFF 0 0 | le 2 0 1 | 0 1 2 => answer 0xFFFFFFFF 0 0
0xFFFFFFFF 1 0 | add 2 0 1 | 0 1 2 => answer 0xFFFFFFFF 1 0
0 1 0 | sub 2 0 1 | 0 1 2 => answer 0 1 0xFFFFFFFF
0x10000 0x10001 0 | mul 2 0 1 | 0 1 2 => answer 0x10000 0x10001 0x10000
0xFF00 0xFF0 0 | and 2 0 1 | 0 1 2 => answer 0xFF00 0xFF0 0xF00
0xFF00 0xFF0 0 | or 2 0 1 | 0 1 2 => answer 0xFF00 0xFF0 0xFFF0
0xFF00 0xFF0 0 | xor 2 0 1 | 0 1 2 => answer 0xFF00 0xFF0 0xF0F0
-- wide numbers wrap at 64 bits
0xFFFFFFFFFFFFFFFFw 1w 0w | add 2 0 1 | 0 1 2 => answer 0xFFFFFFFFFFFFFFFFw 1w 0w
0w 1w 0w | sub 2 0 1 | 0 1 2 => answer 0w 1w 0xFFFFFFFFFFFFFFFFw
0x100000000w 0x100000001w 0w | mul 2 0 1 | 0 1 2 => answer 0x100000000w 0x100000001w 0x100000000w
0xFFFFFFFFFFFFFFFFw 1w 0w | xor 2 0 1 | 0 1 2 => answer 0xFFFFFFFFFFFFFFFFw 1w 0xFFFFFFFFFFFFFFFEw
0xFFFFFFFFFFFFFFFFw 0xFFFFFFFFFFFFFFFFw 0 | eq 2 0 1 | 0 1 2 => answer 0xFFFFFFFFFFFFFFFFw 0xFFFFFFFFFFFFFFFFw 1
0xFFFFFFFFFFFFFFFFw 0xFFFFFFFFFFFFFFFFw 0 | ne 2 0 1 | 0 1 2 => answer 0xFFFFFFFFFFFFFFFFw 0xFFFFFFFFFFFFFFFFw 0
0xFFFFFFFFw 0x100000000w 0 | lt 2 0 1 | 0 1 2 => answer 0xFFFFFFFFw 0x100000000w 1
0x100000000w 0xFFFFFFFFw 0 | le 2 0 1 | 0 1 2 => answer 0x100000000w 0xFFFFFFFFw 0
-- a shift goes by its distance modulo the width
1 31 0 | shl 2 0 1 | 0 1 2 => answer 1 31 0x80000000
1 32 0 | shl 2 0 1 | 0 1 2 => answer 1 32 1
3 31 0 | shl 2 0 1 | 0 1 2 => answer 3 31 0x80000000
0x80000000 31 0 | shr 2 0 1 | 0 1 2 => answer 0x80000000 31 1
0x80000000 32 0 | shr 2 0 1 | 0 1 2 => answer 0x80000000 32 0x80000000
0x80000000 33 0 | shr 2 0 1 | 0 1 2 => answer 0x80000000 33 0x40000000
1w 32w 0w | shl 2 0 1 | 0 1 2 => answer 1w 32w 0x100000000w
1w 64w 0w | shl 2 0 1 | 0 1 2 => answer 1w 64w 1w
0x8000000000000000w 63w 0w | shr 2 0 1 | 0 1 2 => answer 0x8000000000000000w 63w 1w
5w 64w 0w | shr 2 0 1 | 0 1 2 => answer 5w 64w 5w
-- a constant and a copy keep the low bits of a local's width
9 9w 9 9w | const 0 0x100000005; const 1 0x100000006; move 2 1; move 3 0 | 0 1 2 3 => answer 5 0x100000006w 6 5w";

#[test]
fn numbers_at_their_edges(rt: HostRuntime) -> Result<(), Fail> {
    rows_hold(&rt, rt.alloc(), NUMBERS)
}

const BYTES: &str = "\
-- loads reach the last byte and no further, and read the lowest byte first
memory 8
0 0x0807060504030201w | store 1 0 0 8 => answer
7 0w | load 1 0 0 1 | 0 1 => answer 7 8w
8 0w | load 1 0 0 1 => trap
0 0w | load 1 0 7 1 | 0 1 => answer 0 8w
0 0w | load 1 0 8 1 => trap
6 0w | load 1 0 0 2 | 0 1 => answer 6 0x0807w
7 0w | load 1 0 0 2 => trap
2 0w | load 1 0 2 4 | 0 1 => answer 2 0x08070605w
3 0w | load 1 0 2 4 => trap
0 0w | load 1 0 0 8 | 0 1 => answer 0 0x0807060504030201w
1 0w | load 1 0 0 8 => trap
0xFFFFFFFF 0w | load 1 0 1 1 => trap
0xFFFFFFFF 0w | load 1 0 0xFFFFFFFF 8 => trap
-- a store writes its bytes alone, the lowest first
memory 8
0 0x1122334455667788w | store 1 0 0 1 => answer
0 0w | load 1 0 0 8 | 1 => answer 0x88w
memory 8
1 0x1122334455667788w | store 1 0 0 2 => answer
0 0w | load 1 0 0 8 | 1 => answer 0x778800w
memory 8
4 0x1122334455667788w | store 1 0 0 4 => answer
0 0w | load 1 0 0 8 | 1 => answer 0x5566778800000000w
memory 8
0 0x1122334455667788w | store 1 0 0 8 => answer
0 0w | load 1 0 0 8 | 1 => answer 0x1122334455667788w
memory 8
5 0x1122334455667788w | store 1 0 0 4 => trap
0 0w | load 1 0 0 8 | 1 => answer 0w
memory 8
8 0x1122334455667788w | store 1 0 0 1 => trap
0 0w | load 1 0 0 8 | 1 => answer 0w";

#[test]
fn bytes_of_the_memory(rt: HostRuntime) -> Result<(), Fail> {
    rows_hold(&rt, rt.alloc(), BYTES)
}

const REPEATS: &str = "\
-- a counter goes from 0 to 4, and its sum is 10
0 0 0 0 | const 0 5; const 3 1; repeat 0 0 {; add 1 1 2; add 2 2 3; } | 0 1 2 3 => answer 5 10 5 1
-- a count of zero runs no turn
0 3 | repeat 0 0 {; trap; }; const 1 4 | 0 1 => answer 0 4
-- the count is read on entry alone
4 0 1 | repeat 0 0 {; add 1 1 2; const 0 0; } | 0 1 2 => answer 0 4 1
-- each of three turns runs four, and each has its own count
3 4 0 1 | repeat 0 0 {; repeat 1 1 {; add 2 2 3; }; } | 0 1 2 3 => answer 3 4 12 1
-- the way out of the outer one ends both, and that of the inner one ends a turn
3 4 0 1 | repeat 0 0 {; repeat 1 1 {; add 2 2 3; leave 0; }; } | 0 1 2 3 => answer 3 4 1 1
3 4 0 1 | repeat 0 0 {; repeat 1 1 {; add 2 2 3; leave 1; }; } | 0 1 2 3 => answer 3 4 3 1
-- of two of one name around it, a way out leads after the inner one
3 4 0 1 | repeat 7 0 {; repeat 7 1 {; add 2 2 3; leave 7; }; } | 0 1 2 3 => answer 3 4 3 1
-- an answer and a trap end the routine from within
9 0 1 | repeat 0 0 {; sub 1 1 2; answer; }; const 0 8 | 0 1 2 => answer 9 0xFFFFFFFF 1
9 0 1 | repeat 0 0 {; sub 1 1 2; trap; }; const 0 8 | 0 1 2 => trap 9 0xFFFFFFFF 1
-- what breaks one of the conditions is no routine
0 0w | answer; leave 0 => faulty
0 0w | answer; const 2 0 => faulty
0 0w | answer; move 0 2 => faulty
0 0w | answer; add 0 0 1 => faulty
0 0w | answer; add 0 1 1 => faulty
0 0w | answer; load 0 0 0 8 => faulty
0 0w | answer; load 1 1 0 4 => faulty
0 0w | answer; store 1 0 0 3 => faulty
0 0w | answer; new 14 0 0 => faulty
0 0w | answer; drop 0 1 => faulty
0 0w | answer; repeat 0 1 {; } => faulty
0 0w | answer; repeat 0 0 {; leave 1; } => faulty";

#[test]
fn turns_and_ways_out(rt: HostRuntime) -> Result<(), Fail> {
    rows_hold(&rt, rt.alloc(), REPEATS)
}

/// The routines of a slot table, at 8 and with two places. Local 4 says whether a place was found, and local 1 which.
const TABLES: &str = "\
-- of two places each is given once, a third is not there, and a freed one is given again
memory 48
9 9 9 9 9 3 1 2w | take 8 2 | 4 1 => answer 1 0
9 9 9 9 9 6 0 0w | take 8 2 | 4 1 => answer 1 1
9 9 9 9 9 4 0 0w | take 8 2 | 4 => answer 0
9 0 9 9 9 9 9 9w | free 8 => answer
9 9 9 9 9 4 0 0w | take 8 2 | 4 1 => answer 1 0
9 9 9 9 9 4 0 0w | take 8 2 | 4 => answer 0
9 1 9 9 9 9 9 9w | free 8 => answer
9 0 9 9 9 9 9 9w | free 8 => answer
9 9 9 9 9 5 0 0w | take 8 2 | 4 1 => answer 1 0
9 9 9 9 9 5 0 0w | take 8 2 | 4 1 => answer 1 1
9 9 9 9 9 5 0 0w | take 8 2 | 4 => answer 0
-- an entry's bytes stand in its place alone, the lowest first, and the head names the place after
memory 56
9 9 9 9 9 3 0x04030201 0x0807060504030201w | take 8 2 | 4 1 => answer 1 0
0 9w 9w 9w 9w 9w 9w 9w | load 1 0 0 8; load 2 0 8 8; load 3 0 16 8; load 4 0 24 8; load 5 0 32 8; load 6 0 40 8; load 7 0 48 8 | 1 2 3 4 5 6 7 => answer 0w 2w 0x0403020100000003w 0x0807060504030201w 0w 0w 0w";

#[test]
fn places_of_a_table(rt: HostRuntime) -> Result<(), Fail> {
    rows_hold(&rt, rt.alloc(), TABLES)
}

const HANDLES: &str = "\
-- made handles are of the adapter, and dropped ones of the host
handles own 1 9 70, own 2 3 71
40 0 2 | new 3 0 1; drop 3 2 | 0 1 2 3@17 2@3 1@9 => answer 40 3 2 40 70; [Made { kind: 3, rep: 40, index: 3 }, Dropped { kind: 3, rep: 71, index: 2 }]
-- a handle of another kind, one of the adapter's own, one that is lent and none at all are not dropped
handles own 1 4 70, own 2 17 71, own 3 3 72, lend 3 3
0 | drop 3 0 => trap
1 | drop 3 0 => trap
2 | drop 3 0 => trap
3 | drop 3 0 => trap
4 | drop 3 0 => trap";

#[test]
fn handles_of_a_routine(rt: HostRuntime) -> Result<(), Fail> {
    rows_hold(&rt, rt.alloc(), HANDLES)
}
