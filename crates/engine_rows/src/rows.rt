//! Blocks of rows, and what comes of them.
//!
//! A line `# REMARK` begins a block, in which nothing is set. Each other line sets a name: `NAME : TEXT`, or another kind of `bytes_of`, is a
//! file, `NAME / ENTRIES` a folder, `$ WORDS` are the words of a call. A line that goes on with ` => OUTCOME` is a row: with all that was
//! set last in its block the call has this outcome, its status and the text that is put, in which `&` ends a line, and after it what
//! OUT holds, as ` o=DIGITS`, if it is there. Both sides are written out as `written_out` has it.
//!
//! `within x DIGITS` are digits that an output is searched for where only its length is not compared.
//!
//! `before WORDS` are the words of a call over the same files that comes before, whose outcome is not shown.
//!
//! `fails N` and `puts N` say which call of the files and of the sink fails, `out N` and `room N` how many bytes OUT and the sink take, and
//! `show NAMES` which files are shown in place of OUT. Files that tell nothing have also `NAME ! missing`, `NAME ! failed`,
//! `NAME ! memory` and `NAME ! LENGTH`, a file that is so long and fails to be read, and `writes N`, how many writes come to pass; nothing of
//! them is shown.

use crate::texts::{halves, written_out};
use crate::{memory, untold};
use std::alloc::Global;
use std::process::Abort;
use std::test::Fail;

/// Over which files rows are tried.
#[derive(Clone, Copy)]
pub enum Over {
    Memory,
    Untold,
    /// Files in memory; a run under a policy is that of its wrapped component.
    Wrapped,
    /// Files in memory; of an output only what it imports is compared.
    Imports,
    /// Files in memory; of an output only its length is not compared. After the line stands ` within` where it holds what is set so.
    Counts,
}

fn outcome(alloc: Global, over: Over, settings: &[&str]) -> Option<String> {
    let said = match over {
        Over::Memory => memory::outcome(alloc, settings),
        Over::Untold => untold::outcome(alloc, settings),
        Over::Wrapped => memory::wrapped_outcome(alloc, settings),
        Over::Imports => memory::imports_of(alloc, settings),
        Over::Counts => memory::counts_of(alloc, settings),
    }?;
    said.as_str().replace(alloc, '\n', "&").ok()
}

fn same(rt: &impl Abort, found: &str, wanted: &str, row: &str) {
    assert_eq!(rt; found, wanted, "{row}");
}

/// Compares the outcome with what is wanted, unless a row cannot be read or memory runs out.
fn compare(
    rt: &impl Abort,
    alloc: Global,
    over: Over,
    settings: &[&str],
    wanted: &str,
    row: &str,
) -> Option<()> {
    let wanted = written_out(alloc, wanted)?;
    let found = outcome(alloc, over, settings)?;
    same(rt, found.as_str(), wanted.as_str(), row);
    Some(())
}

fn take<'a>(
    rt: &impl Abort,
    alloc: Global,
    over: Over,
    line: &'a str,
    settings: &mut Vec<&'a str>,
) -> Result<(), Fail> {
    if line.starts_with("# ") {
        settings.clear();
        return Ok(());
    }
    let (setting, wanted) = halves(line, " => ");
    settings.push(setting)?;
    if wanted.is_empty() {
        return Ok(());
    }
    match compare(rt, alloc, over, settings.as_slice(), wanted, line) {
        Some(()) => Ok(()),
        None => Err(Fail::from("no row, or no memory")),
    }
}

/// Each row has the outcome that stands in it.
pub fn hold(rt: &impl Abort, alloc: Global, over: Over, rows: &str) -> Result<(), Fail> {
    let mut settings = Vec::new(alloc);
    for line in rows.lines() {
        take(rt, alloc, over, line, &mut settings)?;
    }
    Ok(())
}
