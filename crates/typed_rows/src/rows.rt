//! Rows, and the loop that reads them.
//!
//! A heading, `# LABEL: REMARK;ITEMS`, spells types and functions for the rows under it, in the notation of `wasi_table`. The label is
//! the name of their interface, and where it is a number, that of the parts of `labels`, `cases` and `numbers`. A row is
//! `INPUT => OUTCOME`; the function of each kind says what stands in its input.

use crate::answers::answered;
use crate::faults::judged;
use crate::headings::{first_type, read};
use crate::lifting::lifted;
use crate::loading::loaded;
use crate::storing::stored;
use crate::texts::halves;
use crate::values::printed;
use std::alloc::Global;
use std::process::Abort;
use std::test::Fail;
use wasi_table::Interface;

/// What is done to the input of a row.
#[derive(Clone, Copy)]
pub enum Kind {
    Loaded,
    Lifted,
    Stored,
    Printed,
    Judged,
    Answered,
}

/// What was found of a row is what is wanted.
pub fn same(rt: &impl Abort, found: &str, wanted: &str, of: &str) -> Result<(), Fail> {
    assert_eq!(rt; found, wanted, "{of}");
    Ok(())
}

fn outcome(alloc: Global, kind: Kind, interface: &Interface, input: &str) -> Result<String, Fail> {
    match kind {
        Kind::Loaded => loaded(alloc, first_type(interface)?, input),
        Kind::Lifted => lifted(alloc, first_type(interface)?, input),
        Kind::Stored => stored(alloc, interface, input),
        Kind::Printed => printed(alloc, interface, input),
        Kind::Judged => judged(alloc, interface, input),
        Kind::Answered => answered(alloc, interface, input),
    }
}

fn row_holds(
    rt: &impl Abort,
    alloc: Global,
    kind: Kind,
    interface: &Interface,
    row: &str,
) -> Result<(), Fail> {
    let Some((input, wanted)) = row.split_once(" => ") else {
        return Err(Fail::from("no row"));
    };
    let found = outcome(alloc, kind, interface, input)?;
    same(rt, found.as_str(), wanted, row)
}

/// Each row has the outcome that stands in it.
pub fn hold(rt: &impl Abort, alloc: Global, kind: Kind, rows: &'static str) -> Result<(), Fail> {
    let mut interface = read(alloc, "", "")?;
    for row in rows.lines() {
        match row.strip_prefix("# ") {
            Some(heading) => {
                let (label, items) = halves(heading, ": ");
                interface = read(alloc, label, items)?;
            }
            None => row_holds(rt, alloc, kind, &interface, row)?,
        }
    }
    Ok(())
}
