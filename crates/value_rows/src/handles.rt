//! Rows: calls of a component instance's handle table, each with what it answers, or that it traps (Component Model, CanonicalABI.md,
//! "Table State").

use crate::rows::{is_printed, number_in, parts, printed, same};
use handle_space::{HandleTable, Taken};
use std::alloc::Global;
use std::test::Fail;
use virt_base::Trap;

/// What an answer is of, and its number.
type Answer = Option<(&'static str, u32)>;

fn numbered(what: &'static str, number: Option<u32>) -> Answer {
    match number {
        Some(number) => Some((what, number)),
        None => None,
    }
}

fn taken(taken: Result<Taken, Trap>) -> Answer {
    match taken {
        Ok(Taken::Own(rep)) => Some(("own", rep)),
        Ok(Taken::Borrow(rep)) => Some(("borrow", rep)),
        Err(Trap) => None,
    }
}

/// What a call answers. Where it adds, the numbers are a resource and a representation, else an index and a resource.
fn answer(alloc: Global, table: &mut HandleTable, call: &str, a: u32, b: u32) -> Answer {
    match call {
        "add own" => numbered("index", table.add_own(alloc, a, b).ok()),
        "add borrow" => numbered("index", table.add_borrow(alloc, a, b).ok()),
        "take own" => numbered("rep", table.take_own(a, b).ok()),
        "take" => taken(table.take(a, b)),
        "lend" => taken(table.lend(a, b)),
        _ => numbered("rep", table.rep_of(a, b).ok()),
    }
}

fn in_words(alloc: Global, answer: Answer) -> Result<String, Fail> {
    let Some((what, number)) = answer else {
        return Ok(String::from_str(alloc, "trap")?);
    };
    let mut line = String::from_str(alloc, what)?;
    line.push(' ')?;
    line.push_str(printed(alloc, &number)?.as_str())?;
    Ok(line)
}

/// Each row: a call, its two numbers, and what it answers.
fn answers(alloc: Global, table: &mut HandleTable, rows: &str) -> Result<(), Fail> {
    for row in rows.lines() {
        let (asked, wanted) = parts(row, " => ")?;
        let (call, numbers) = parts(asked, ", ")?;
        let (a, b) = parts(numbers, " ")?;
        let found = answer(alloc, table, call, number_in(a)?, number_in(b)?);
        same(row, in_words(alloc, found)?.as_str(), wanted)?;
    }
    Ok(())
}

// A freed index is used again, the one freed last first.
#[test]
fn indexes_are_used_again(rt: HostRuntime) -> Result<(), Fail> {
    let mut table = HandleTable::new(rt.alloc());
    let rows = "\
add own, 7 70 => index 1
add own, 7 71 => index 2
take own, 1 7 => rep 70
add own, 7 72 => index 1
add borrow, 8 80 => index 3
take, 1 7 => own 72
take, 3 8 => borrow 80
add borrow, 8 81 => index 3
rep, 3 8 => rep 81
add borrow, 8 82 => index 1
rep, 1 8 => rep 82
add borrow, 8 83 => index 4
rep, 4 8 => rep 83";
    answers(rt.alloc(), &mut table, rows)
}

// A lent handle stays until its loans ended.
#[test]
fn lent_handles_stay(rt: HostRuntime) -> Result<(), Fail> {
    let alloc = rt.alloc();
    let mut table = HandleTable::new(alloc);
    let added = (
        table.add_own(alloc, 7, 70)?,
        table.add_own(alloc, 7, 71)?,
        table.add_borrow(alloc, 7, 72)?,
    );
    is_printed(alloc, "added", &added, "(1, 2, 3)")?;
    let Ok(lent) = table.lend(2, 7) else {
        return Err(Fail::new("the handle is not lent"));
    };
    let Err(Trap) = table.take(2, 7) else {
        return Err(Fail::new("a lent handle is taken"));
    };
    let Err(Trap) = table.take_own(2, 7) else {
        return Err(Fail::new("a lent handle is taken"));
    };
    let rep = table.rep_of(2, 7);
    is_printed(alloc, "lent", &(lent, rep), "(Own(71), Ok(71))")?;
    table.unlend(2);
    let rows = "\
lend, 3 7 => borrow 72
take own, 3 7 => trap
take, 3 7 => borrow 72
take, 2 7 => own 71";
    answers(alloc, &mut table, rows)
}

// No index is 0, beyond the last, or of another resource.
#[test]
fn other_indexes_trap(rt: HostRuntime) -> Result<(), Fail> {
    let mut table = HandleTable::new(rt.alloc());
    let rows = "\
add own, 7 70 => index 1
rep, 0 7 => trap
lend, 0 7 => trap
take, 0 7 => trap
take own, 0 7 => trap
rep, 2 7 => trap
lend, 2 7 => trap
take, 2 7 => trap
take own, 2 7 => trap
rep, 1 8 => trap
lend, 1 8 => trap
take, 1 8 => trap
take own, 1 8 => trap
rep, 4294967295 7 => trap
lend, 4294967295 7 => trap
take, 4294967295 7 => trap
take own, 4294967295 7 => trap
take, 1 7 => own 70
take, 1 7 => trap";
    answers(rt.alloc(), &mut table, rows)
}
