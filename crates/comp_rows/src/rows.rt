//! Rows as lines: what a row is about, a colon, a component as `spelling` has it, ` => `, and the answer. What it is about may be
//! missing. A line after `# ` says what the next ones share.

use crate::spelling::component_of;
use crate::{joining, parts, plans, reading, running, validity, writing};
use std::alloc::Global;
use std::process::Abort;
use std::test::Fail;

/// What is asked of a component.
#[derive(Clone, Copy)]
pub enum Asked {
    Reading,
    Parts,
    Writing,
    Validity,
    Plans,
    Joining,
    Running,
    Code,
}

fn answer(alloc: Global, asked: Asked, bytes: &[u8]) -> Result<String, Fail> {
    match asked {
        Asked::Reading => reading::answer(alloc, bytes),
        Asked::Parts => parts::answer(alloc, bytes),
        Asked::Writing => writing::answer(alloc, bytes),
        Asked::Validity => validity::answer(alloc, bytes),
        Asked::Plans => plans::answer(alloc, bytes),
        Asked::Joining => joining::answer(alloc, bytes),
        Asked::Running => running::answer(alloc, bytes),
        Asked::Code => running::code(alloc, bytes),
    }
}

/// A row's sides of ` => `.
pub fn sides(row: &str) -> Result<(&str, &str), Fail> {
    match row.split_once(" => ") {
        Some(sides) => Ok(sides),
        None => Err(Fail::from("no answer")),
    }
}

/// What was found is what is wanted.
pub fn same(rt: &impl Abort, about: &str, found: &str, wanted: &str) {
    assert_eq!(rt; found, wanted, "{about}");
}

fn row_holds(rt: &impl Abort, alloc: Global, asked: Asked, row: &str) -> Result<(), Fail> {
    let (given, wanted) = sides(row)?;
    let component = match given.rsplit_once(": ") {
        Some((_, component)) => component,
        None => given,
    };
    let bytes = component_of(alloc, component)?;
    let found = answer(alloc, asked, bytes.as_slice())?;
    same(rt, given, found.as_str(), wanted);
    Ok(())
}

/// Each row's component has the answer that is wanted.
pub fn hold(rt: &impl Abort, alloc: Global, asked: Asked, rows: &str) -> Result<(), Fail> {
    for row in rows.lines() {
        if !row.starts_with("# ") {
            row_holds(rt, alloc, asked, row)?;
        }
    }
    Ok(())
}
