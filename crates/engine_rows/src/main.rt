//! Calls the engine with the words of tables, and says of each row whether its status and its lines are those that stand beside it. Its
//! tests are rows too, over files in memory, and over files that tell nothing and answer what a row says, where a file of any length
//! costs nothing.
#![tactic(auto)]

mod calling;
#[cfg(test)]
mod damaged;
#[cfg(test)]
mod imports;
#[cfg(test)]
mod made_calls;
#[cfg(test)]
mod memory;
#[cfg(test)]
mod plug_calls;
#[cfg(test)]
mod plug_imports;
#[cfg(test)]
mod plug_refusals;
#[cfg(test)]
mod plug_runs;
#[cfg(test)]
mod plug_texts;
#[cfg(test)]
mod policy_limits;
#[cfg(test)]
mod policy_refusals;
#[cfg(test)]
mod policy_runs;
#[cfg(test)]
mod rows;
#[cfg(test)]
mod run_statuses;
#[cfg(test)]
mod runs;
#[cfg(test)]
mod settings;
mod stored;
#[cfg(test)]
mod texts;
#[cfg(test)]
mod untold;
#[cfg(test)]
mod virt_calls;
#[cfg(test)]
mod virt_refusals;
#[cfg(test)]
mod virt_statuses;
mod wrapped;

use std::process::ExitCode;
use std::{env, fs, io};
use stored::comes_out;
use wrapped::comes_out_wrapped;

/// Says how a row came out.
fn report(rt: &HostRuntime, name: &str, how: &str, good: bool) -> io::Result<()> {
    let said = if good { "as written" } else { "otherwise" };
    println!(rt; "{name}{how}: {said}")
}

/// Whether a row of a table comes out; a row under a policy also where its component is wrapped, but for a row of `alone`.
fn run_row(rt: &HostRuntime, row: &str, alone: bool) -> io::Result<bool> {
    let (status, rest) = row.split_once(' ').unwrap_or((row, ""));
    let (name, words) = rest.split_once(' ').unwrap_or((rest, ""));
    let good = comes_out(rt, status, name, words);
    report(rt, name, "", good)?;
    if alone || !words.contains(" -p ") {
        return Ok(good);
    }
    let wrapped = comes_out_wrapped(rt, status, name, words);
    report(rt, name, " wrapped", wrapped)?;
    Ok(good && wrapped)
}

/// Rows of components that are not wrapped: what holds one is a component deeper, and may be too deep to run.
const ALONE: &str = "deep.txt";

/// Whether each row of a table does.
fn run_table(rt: &HostRuntime, name: &str) -> io::Result<bool> {
    let table = fs::read_to_string(rt, name)?;
    let mut good = true;
    for row in table.as_str().lines() {
        if !run_row(rt, row, name == ALONE)? {
            good = false;
        }
    }
    Ok(good)
}

fn main(rt: HostRuntime) -> io::Result<ExitCode> {
    let mut good = true;
    for name in env::args(&rt)?.skip(1) {
        if !run_table(&rt, name.as_str())? {
            good = false;
        }
    }
    Ok(if good {
        ExitCode::SUCCESS
    } else {
        ExitCode::FAILURE
    })
}
