//! Routines by the evaluator and, as stubs, by the machine: both end alike.

ghost use Rattle.std.specs.Prelude.{IfOk};
ghost use Rattle.core_store.specs.Scene.{scene_of};
ghost use Rattle.core_store.specs.Fine.{IsFine};

use crate::calls::{Ran, ran_in_words};
use crate::comparing::{counts, holds, same};
use crate::reading::halves;
use crate::running::{evaluate, left_in_words, state_of};
use crate::world::{World, call_by_name, world_of};
use std::alloc::Global;
use std::process::Abort;
use std::test::Fail;

/// How many bytes the memory has: one page.
const PAGE: usize = 65536;

/// Stubs that stand after the first one: one that asks the host, and one that reads eight bytes at a place.
const OTHERS: &str = "\nasks 0 > 0 | answer\n0 > 0w | load 2 0 0 8";

/// A world whose first stub is that of a line in two parts.
pub fn world_with(alloc: Global, head: &str, routine: &str) -> Result<World, Fail>
    ensures { IfOk result (λ w. IsFine (scene_of w.store.value)) }
{
    let mut lines = String::from_str(alloc, head)?;
    lines.push_str(routine)?;
    lines.push_str(OTHERS)?;
    world_of(alloc, lines.as_str())
}

/// Adds what the memory begins with, as four numbers of 64 bits.
fn read_front(alloc: Global, world: &mut World, ran: &mut Ran) -> Result<(), Fail>
    requires { IsFine (scene_of world.old.store.value) }
{
    for place in ["0", "8", "16", "24"] {
        let word = call_by_name(alloc, world, "2", place, &[])?;
        for value in word.values {
            ran.values.push(value)?;
        }
    }
    Ok(())
}

/// Calls the stub of a line: how it ends, in how many steps, and after an answer what the memory begins with.
fn by_machine(alloc: Global, line: &str, given: &str) -> Result<Ran, Fail> {
    let mut world = world_with(alloc, line, "")?;
    let mut ran = call_by_name(alloc, &mut world, "0", given, &[])?;
    if ran.end == "answer" {
        read_front(alloc, &mut world, &mut ran)?;
    }
    Ok(ran)
}

/// The same of a routine by the evaluator in words, without the steps.
fn by_evaluator(alloc: Global, given: &str, text: &str) -> Result<String, Fail> {
    let mut state = state_of(alloc, PAGE)?;
    let end = evaluate(alloc, &mut state, given, text)?;
    if end != "answer" {
        return left_in_words(alloc, end, &state, "");
    }
    let front = "load 0 4 0 8; load 1 4 8 8; load 2 4 16 8; load 3 4 24 8";
    evaluate(alloc, &mut state, "0w 0w 0w 0w 0", front)?;
    left_in_words(alloc, end, &state, "0 1 2 3")
}

/// `LOCALS > | ROUTINE => WANTED in STEPS`: a stub whose parameters are the locals. Both end alike; what is wanted and the steps
/// may be left out.
fn row_holds(rt: &impl Abort, alloc: Global, row: &str) -> Result<(), Fail> {
    let (line, wanted) = halves(row, " => ");
    let (wanted, steps) = halves(wanted, " in ");
    let (given, text) = halves(line, " > | ");
    let ran = by_machine(alloc, line, given)?;
    let found = ran_in_words(alloc, &ran)?;
    let evaluated = by_evaluator(alloc, given, text)?;
    same(rt, row, found.as_str(), evaluated.as_str());
    if ran.steps == 0 {
        return Err(Fail::from("no step was taken"));
    }
    if !wanted.is_empty() {
        holds(rt, alloc, row, found.as_str(), wanted)?;
    }
    counts(rt, alloc, row, ran.steps, steps)
}

/// A line after `-- ` says what the rows below it are about.
fn rows_hold(rt: &impl Abort, alloc: Global, rows: &str) -> Result<(), Fail> {
    for row in rows.lines() {
        if !row.starts_with("-- ") {
            row_holds(rt, alloc, row)?;
        }
    }
    Ok(())
}

/// Each row with an operator in place of `op`.
fn operator_holds(rt: &impl Abort, alloc: Global, operator: &str, rows: &str) -> Result<(), Fail> {
    for row in rows.lines() {
        let (before, behind) = halves(row, "op");
        let mut with = String::from_str(alloc, before)?;
        with.push_str(operator)?;
        with.push_str(behind)?;
        row_holds(rt, alloc, with.as_str())?;
    }
    Ok(())
}

const NARROW: &str = "\
0 0 9 0 > | op 2 0 1; store 2 3 0 4
0xFFFFFFFF 0xFFFFFFFF 9 0 > | op 2 0 1; store 2 3 0 4
0 0xFFFFFFFF 9 0 > | op 2 0 1; store 2 3 0 4
0x80000000 33 9 0 > | op 2 0 1; store 2 3 0 4";

const BROAD_TESTS: &str = "\
0w 0w 9w 9 0 > | op 3 0 1; store 3 4 0 4
0xFFFFFFFFw 0xFFFFFFFFw 9w 9 0 > | op 3 0 1; store 3 4 0 4
0w 0xFFFFFFFFw 9w 9 0 > | op 3 0 1; store 3 4 0 4
0x80000000w 33w 9w 9 0 > | op 3 0 1; store 3 4 0 4
0xFFFFFFFFFFFFFFFFw 0xFFFFFFFFFFFFFFFFw 9w 9 0 > | op 3 0 1; store 3 4 0 4
0xFFFFFFFFFFFFFFFFw 1w 9w 9 0 > | op 3 0 1; store 3 4 0 4
1w 0xFFFFFFFFFFFFFFFFw 9w 9 0 > | op 3 0 1; store 3 4 0 4";

const BROAD: &str = "\
0w 0w 9w 9 0 > | op 2 0 1; store 2 4 0 8
0xFFFFFFFFw 0xFFFFFFFFw 9w 9 0 > | op 2 0 1; store 2 4 0 8
0w 0xFFFFFFFFw 9w 9 0 > | op 2 0 1; store 2 4 0 8
0x80000000w 33w 9w 9 0 > | op 2 0 1; store 2 4 0 8
0xFFFFFFFFFFFFFFFFw 0xFFFFFFFFFFFFFFFFw 9w 9 0 > | op 2 0 1; store 2 4 0 8
0xFFFFFFFFFFFFFFFFw 1w 9w 9 0 > | op 2 0 1; store 2 4 0 8
1w 0xFFFFFFFFFFFFFFFFw 9w 9 0 > | op 2 0 1; store 2 4 0 8";

#[test]
fn operators_agree_at_edge_values(rt: HostRuntime) -> Result<(), Fail> {
    for test in ["eq", "ne", "lt", "le"] {
        operator_holds(&rt, rt.alloc(), test, NARROW)?;
        operator_holds(&rt, rt.alloc(), test, BROAD_TESTS)?;
    }
    for operator in ["add", "sub", "mul", "and", "or", "xor", "shl", "shr"] {
        operator_holds(&rt, rt.alloc(), operator, NARROW)?;
        operator_holds(&rt, rt.alloc(), operator, BROAD)?;
    }
    Ok(())
}

const NUMBERS: &str = "\
-- a shift by the width is one by 0
5 32 9 0 > | shl 2 0 1; store 2 3 0 4 => answer 5w 0w 0w 0w
5 32 9 0 > | shr 2 0 1; store 2 3 0 4 => answer 5w 0w 0w 0w
1 31 9 0 > | shl 2 0 1; store 2 3 0 4 => answer 0x80000000w 0w 0w 0w
5w 64w 9w 9 0 > | shl 2 0 1; store 2 4 0 8 => answer 5w 0w 0w 0w
5w 64w 9w 9 0 > | shr 2 0 1; store 2 4 0 8 => answer 5w 0w 0w 0w
1w 63w 9w 9 0 > | shl 2 0 1; store 2 4 0 8 => answer 0x8000000000000000w 0w 0w 0w
-- constants are cut at the width, and copies to the smaller one are too
9 9w 9w 9 0 > | const 0 0; const 1 0; move 2 0; move 3 1; store 0 4 0 4; store 1 4 8 8; store 2 4 16 8; store 3 4 24 4 => answer 0w 0w 0w 0w
9 9w 9w 9 0 > | const 0 1; const 1 1; move 2 0; move 3 1; store 0 4 0 4; store 1 4 8 8; store 2 4 16 8; store 3 4 24 4 => answer 1w 1w 1w 1w
9 9w 9w 9 0 > | const 0 0x7FFFFFFF; const 1 0x7FFFFFFF; move 2 0; move 3 1; store 0 4 0 4; store 1 4 8 8; store 2 4 16 8; store 3 4 24 4 => answer 0x7FFFFFFFw 0x7FFFFFFFw 0x7FFFFFFFw 0x7FFFFFFFw
9 9w 9w 9 0 > | const 0 0x80000000; const 1 0x80000000; move 2 0; move 3 1; store 0 4 0 4; store 1 4 8 8; store 2 4 16 8; store 3 4 24 4 => answer 0x80000000w 0x80000000w 0x80000000w 0x80000000w
9 9w 9w 9 0 > | const 0 0xFFFFFFFF87654321; const 1 0xFFFFFFFF87654321; move 2 0; move 3 1; store 0 4 0 4; store 1 4 8 8; store 2 4 16 8; store 3 4 24 4 => answer 0x87654321w 0xFFFFFFFF87654321w 0x87654321w 0x87654321w
9 9w 9w 9 0 > | const 0 0xFFFFFFFFFFFFFFFF; const 1 0xFFFFFFFFFFFFFFFF; move 2 0; move 3 1; store 0 4 0 4; store 1 4 8 8; store 2 4 16 8; store 3 4 24 4 => answer 0xFFFFFFFFw 0xFFFFFFFFFFFFFFFFw 0xFFFFFFFFw 0xFFFFFFFFw
-- loads and stores of each width
0 0 0 0xF8E7D6C5B4A39281w > | store 3 2 0 8; load 0 1 1 1; store 0 2 24 1 => answer 0xF8E7D6C5B4A39281w 0w 0w 0x92w
0w 1 0 0xF8E7D6C5B4A39281w > | store 3 2 0 8; load 0 1 0 1; store 0 2 24 1 => answer 0xF8E7D6C5B4A39281w 0w 0w 0x92w
0 0 0 0xF8E7D6C5B4A39281w > | store 3 2 0 8; load 0 1 1 2; store 0 2 24 2 => answer 0xF8E7D6C5B4A39281w 0w 0w 0xA392w
0w 1 0 0xF8E7D6C5B4A39281w > | store 3 2 0 8; load 0 1 0 2; store 0 2 24 2 => answer 0xF8E7D6C5B4A39281w 0w 0w 0xA392w
0 0 0 0xF8E7D6C5B4A39281w > | store 3 2 0 8; load 0 1 1 4; store 0 2 24 4 => answer 0xF8E7D6C5B4A39281w 0w 0w 0xC5B4A392w
0w 1 0 0xF8E7D6C5B4A39281w > | store 3 2 0 8; load 0 1 0 4; store 0 2 24 4 => answer 0xF8E7D6C5B4A39281w 0w 0w 0xC5B4A392w
0w 0 0 0xF8E7D6C5B4A39281w > | store 3 2 0 8; load 0 1 0 8; store 0 2 24 8 => answer 0xF8E7D6C5B4A39281w 0w 0w 0xF8E7D6C5B4A39281w
-- the last byte is at 65535; a place and its offset do not wrap
0 65500 0 0xF8E7D6C5B4A39281w > | store 3 2 0 8; load 0 1 35 1; store 0 2 24 1 => answer 0xF8E7D6C5B4A39281w 0w 0w 0w
0 65500 0 0xF8E7D6C5B4A39281w > | store 3 2 0 8; load 0 1 36 1; store 0 2 24 1 => trap
0 65500 0 0xF8E7D6C5B4A39281w > | store 3 2 0 8; load 0 1 34 2; store 0 2 24 2 => answer 0xF8E7D6C5B4A39281w 0w 0w 0w
0 65500 0 0xF8E7D6C5B4A39281w > | store 3 2 0 8; load 0 1 35 2; store 0 2 24 2 => trap
0 65500 0 0xF8E7D6C5B4A39281w > | store 3 2 0 8; load 0 1 32 4; store 0 2 24 4 => answer 0xF8E7D6C5B4A39281w 0w 0w 0w
0 65500 0 0xF8E7D6C5B4A39281w > | store 3 2 0 8; load 0 1 33 4; store 0 2 24 4 => trap
0w 65529 0 0xF8E7D6C5B4A39281w > | store 3 2 0 8; load 0 1 0 8; store 0 2 24 8 => trap
0 0xFFFFFFFF 0 0xF8E7D6C5B4A39281w > | store 3 2 0 8; load 0 1 1 1; store 0 2 24 1 => trap";

#[test]
fn numbers_in_code(rt: HostRuntime) -> Result<(), Fail> {
    rows_hold(&rt, rt.alloc(), NUMBERS)
}

const REPEATS: &str = "\
-- a counter goes from 0 to 4, and its sum is 10: the block, two constants of two steps, five to begin the turns, in each of five turns the loop, eight and five, and three
0 0 0 0 0 > | const 0 5; const 3 1; repeat 0 0 {; add 1 1 2; add 2 2 3; }; store 1 4 0 4 => answer 10w 0w 0w 0w in 83
-- a count of zero runs no turn: 1, 5, 2 and 3 steps
0 3 > | repeat 0 0 {; trap; }; const 1 4; store 1 0 0 4 => answer 4w 0w 0w 0w in 11
-- the count is read on entry alone
4 0 1 0 > | repeat 0 0 {; add 1 1 2; const 0 0; }; store 1 3 0 4 => answer 4w 0w 0w 0w
-- each of three turns runs four, and each has its own count; a second `Repeat` at a depth counts anew
3 4 0 1 0 > | repeat 0 0 {; repeat 1 1 {; add 2 2 3; }; repeat 1 0 {; add 2 2 3; }; }; store 2 4 0 4 => answer 21w 0w 0w 0w
-- from the inner of two, after the outer one, out of an `If`; and after the inner one
3 4 0 1 0 > | repeat 0 0 {; repeat 1 1 {; add 2 2 3; when 3 {; leave 0; }; }; }; store 2 4 0 4 => answer 1w 0w 0w 0w
3 4 0 1 0 > | repeat 0 0 {; repeat 1 1 {; add 2 2 3; when 3 {; leave 1; }; }; }; store 2 4 0 4 => answer 3w 0w 0w 0w
-- out of two and an `If`, nothing after them is run
3 4 0 7 0 > | repeat 0 0 {; repeat 1 1 {; when 3 {; store 3 4 0 4; answer; }; }; }; trap => answer 7w 0w 0w 0w
-- a trap traps
 > | trap => trap";

#[test]
fn turns_in_code(rt: HostRuntime) -> Result<(), Fail> {
    rows_hold(&rt, rt.alloc(), REPEATS)
}

const TABLES: &str = "\
-- whether a place was found, and which: 0, then 1, then none, then 0 that was freed
9 9 9 9 9 3 1 2w 0 > | take 32 2; store 4 8 0 1; store 1 8 1 1; take 32 2; store 4 8 2 1; store 1 8 3 1; take 32 2; store 4 8 4 1; const 1 0; free 32; take 32 2; store 4 8 6 1; store 1 8 7 1 => answer 0x0001000001010001w 0w 0w 0w
-- a place is taken in 49 steps: a block, the base, the head, its test, the capacity, the comparison and its test take 16; that the place leaves the chain, as one that was never used, and gets its entry takes 33
9 9 9 9 9 3 1 2w > | take 32 2 => answer 0w 0w 0w 0w in 49";

#[test]
fn places_in_code(rt: HostRuntime) -> Result<(), Fail> {
    rows_hold(&rt, rt.alloc(), TABLES)
}
