//! The emitted modules, instantiated and run by the machine.

ghost use Rattle.core_store.specs.Scene.{scene_of};
ghost use Rattle.core_store.specs.Fine.{IsFine};
ghost use Rattle.std.specs.Prelude.{IfOk};

use crate::calls::{Ran, ran_in_words};
use crate::comparing::{counts, holds, same};
use crate::reading::{halves, values};
use crate::stubs::stubs;
use crate::world::{World, call_by_name, world_of};
use adapter_bytes::{Routines, emit_bytes};
use adapter_code::Layout;
use adapter_state::Presence;
use core_interp::CoreValues;
use std::alloc::Global;
use std::process::Abort;
use std::test::Fail;
use virt_base::{Items, copy_bytes};

/// The sum of two numbers, which is written at a place of the area as well. A question to the host with a number and the one
/// after it, where it is not 0; to the answer is added what the area begins with, and where the host is not asked the answer is
/// 9. The word at a place. A word that is written at a place. A handle of kind 1 of a number.
const FIVE: &str = "\
0 0 > 0 | add 3 0 1; const 4 824; store 3 4 0 4
asks 0 > 0 | move 1 0; move 2 0; const 5 1; add 3 0 5; const 4 9 | const 5 824; load 7 5 0 4; add 4 4 7
0 > 0 | load 2 0 0 4
0 0 > | store 1 0 0 4
0 > 0 | new 1 0 2";

/// The answer of a number, or `none` for one without results.
fn answers(alloc: Global, words: &str) -> Result<Vec<CoreValues>, Fail> {
    let mut all = Vec::new(alloc);
    if !words.is_empty() {
        let words = if words == "none" { "" } else { words };
        all.push(Items::new(values(alloc, words)?))?;
    }
    Ok(all)
}

/// `NAME ARGUMENTS < ANSWER`: calls a function of a stub by its place, or one of the state module by its name.
fn called(alloc: Global, world: &mut World, work: &str) -> Result<Ran, Fail>
    requires { IsFine (scene_of world.old.store.value) }
    ensures { IfOk result (λ _. IsFine (scene_of world.new.store.value)) }
{
    let (call, answer) = halves(work, " < ");
    let (name, args) = halves(call, " ");
    let answers = answers(alloc, answer)?;
    call_by_name(alloc, world, name, args, answers.as_slice())
}

/// `CALL => WANTED in STEPS`. What is asked stands after what is wanted.
fn row_holds(rt: &impl Abort, alloc: Global, world: &mut World, row: &str) -> Result<(), Fail>
    requires { IsFine (scene_of world.old.store.value) }
    ensures { IfOk result (λ _. IsFine (scene_of world.new.store.value)) }
{
    let (work, wanted) = halves(row, " => ");
    let (wanted, steps) = halves(wanted, " in ");
    let ran = called(alloc, world, work)?;
    let found = ran_in_words(alloc, &ran)?;
    holds(rt, alloc, row, found.as_str(), wanted)?;
    counts(rt, alloc, row, ran.steps, steps)
}

/// The rows below a line after `-- `, which says what they are about, call a world of their own.
fn line_holds(rt: &impl Abort, alloc: Global, world: &mut World, line: &str) -> Result<(), Fail>
    requires { IsFine (scene_of world.old.store.value) }
    ensures { IfOk result (λ _. IsFine (scene_of world.new.store.value)) }
{
    if line.starts_with("-- ") {
        *world = world_of(alloc, FIVE)?;
        return Ok(());
    }
    row_holds(rt, alloc, world, line)
}

fn rows_hold(rt: &impl Abort, alloc: Global, rows: &str) -> Result<(), Fail> {
    let mut both = world_of(alloc, FIVE)?;
    for line in rows.lines() {
        line_holds(rt, alloc, &mut both, line)?;
    }
    Ok(())
}

const STUBS: &str = "\
-- without a function of the host it answers, in a block, a sum of four steps, a constant of two, a store of three, and the result; the sum stands in the memory of both modules
0 3 4 => answer 7 in 11
2 824 => answer 7
-- with the flag 0 the host is not asked, and what the routine left is answered: a block, two copies of two steps, a constant of two, a sum of four and a constant; the flag and its test; the result
1 0 => answer 9 in 16
-- else it is asked with the two numbers after the flag, and the routine after it adds to its answer: as before up to the test; two operands, the call and the result; a block, a constant, a load and a sum; the result
0 3 4 => answer 7
1 5 < 30 => answer 37; [(300, [I32(5), I32(6)])] in 30
-- it makes a handle
4 40 < 6 => answer 6; [(101, [I32(40)])]
-- a load of the memory's last word answers, and one past the end traps
2 65532 => answer 0
2 65533 => trap";

#[test]
fn stubs_answer_and_ask(rt: HostRuntime) -> Result<(), Fail> {
    rows_hold(&rt, rt.alloc(), STUBS)
}

const STATE: &str = "\
-- the static data stands in its place, between zeros
2 0 => answer 0
2 256 => answer 0
2 812 => answer 0
2 816 => answer 0x04030201
2 820 => answer 0
2 65532 => answer 0
-- each request is answered by the next multiple of 8 in the area, and one that passes its end traps
realloc 0 0 1 5 => answer 824 in 19
realloc 0 0 1 8 => answer 832
realloc 0 0 1 0 => answer 840
realloc 0 0 1 17 => trap
realloc 0 0 1 16 => answer 840
realloc 0 0 1 1 => trap
-- the stubs' flat results are one number or none, so these are its post-returns; each puts the end back
realloc 0 0 1 8 => answer 824
post-i32 3 => answer in 2
realloc 0 0 1 8 => answer 824
post => answer
realloc 0 0 1 0 => answer 824
post-i64 => none
-- of a host's handle a destructor asks for the drop, by the handle's index; it frees the place, which is then the first, and links it to the one that was
3 256 2 => answer
3 264 1 => answer
3 268 77 => answer
free-0 0 < none => answer; [(200, [I32(77)])]
2 256 => answer 1
2 264 => answer 0
2 268 => answer 2
-- it asks for nothing where the entry is another, in a block, the spot of the place in 12 steps, a load of three, a constant of two, a comparison of four and its test, and to free the place in 34; nor where the kind is the adapter's alone
3 256 2 => answer
3 264 4 => answer
3 268 5 => answer
free-0 0 => answer in 58
2 256 => answer 1
2 264 => answer 0
2 268 => answer 2
3 296 2 => answer
3 304 1 => answer
3 308 5 => answer
free-1 0 => answer
2 296 => answer 1
2 304 => answer 0
2 308 => answer 2";

#[test]
fn the_state_module_keeps_its_memory(rt: HostRuntime) -> Result<(), Fail> {
    rows_hold(&rt, rt.alloc(), STATE)
}

/// Tables of 256 places, three bytes of static data, and an area of one page.
const LARGE: Layout = Layout {
    slots: 256,
    image_len: 3,
    spare: 0,
    transfer: 65536,
};

// Fourteen kinds that the host has. It takes less than 4,096 bytes beside the static data.
#[test]
fn the_state_module_is_small(rt: HostRuntime) -> Result<(), Fail> {
    let alloc = rt.alloc();
    let routines = Routines {
        stubs: stubs(alloc, FIVE)?,
        kinds: vec![in alloc; Presence::Host; 14]?,
        image: copy_bytes(alloc, &[1, 2, 3])?,
        layout: LARGE,
    };
    let bytes = emit_bytes(alloc, &routines)?;
    let size = if bytes.state.len() < 3 + 4096 {
        "small"
    } else {
        "large"
    };
    same(&rt, "bytes", size, "small");
    Ok(())
}
