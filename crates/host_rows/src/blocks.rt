//! Blocks of rows, and what comes of them.
//!
//! A block begins with a line `# REMARK`. A row is `CALL => OUTCOME`, or `drop RESOURCE NUMBER => OUTCOME`, as `calls` has them. The
//! outcome is what reaches the host underneath, in the lines that `run` prints, and after it what is answered: a value as JSON, or `done`,
//! `trap`, `ended` or `bad`. `: ANSWERS` are answers of the host underneath, as in scripts, with commas between them, and
//! `@ INTERFACE VERSION` is an import of the application. All other lines are the policy.

use crate::calls::{call_of, resource_of};
use crate::hosts::{Under, host_of};
use crate::interfaces::{described, number_of};
use crate::texts::{halves, written_out};
use host_port::{Answer, Host, Observation};
use script_lines::print_observation;
use std::alloc::Global;
use std::process::Abort;
use std::test::Fail;
use virt_base::{Items, Text};
use wasi_match::{Listed, ListedUse, ListedUses};
use wasi_table::Interface;
use wit_types::WitType;

/// What stands before the rows of a block.
#[derive(Drop)]
struct Setup {
    policy: String,
    listed: Listed,
    answers: String,
}

fn add_use(
    alloc: Global,
    interfaces: &[Interface],
    import: &str,
    uses: &mut ListedUses,
) -> Result<(), Fail> {
    let (name, version) = halves(import, " ");
    uses.push(ListedUse {
        interface: number_of(interfaces, name)?,
        version: Text::from_str(alloc, version)?,
        functions: Items::empty(alloc),
    })?;
    Ok(())
}

fn add_text(all: &mut String, text: &str, end: char) -> Result<(), Fail> {
    all.push_str(text)?;
    all.push(end)?;
    Ok(())
}

fn add_line(
    alloc: Global,
    interfaces: &[Interface],
    line: &str,
    setup: &mut Setup,
) -> Result<(), Fail> {
    if line.contains(" => ") || line.starts_with("# ") {
        return Ok(());
    }
    if let Some(import) = line.strip_prefix("@ ") {
        return add_use(alloc, interfaces, import, &mut setup.listed.uses);
    }
    match line.strip_prefix(": ") {
        Some(answers) => add_text(&mut setup.answers, answers, ','),
        None => add_text(&mut setup.policy, line, '\n'),
    }
}

fn setup_of(alloc: Global, interfaces: &[Interface], block: &str) -> Result<Setup, Fail> {
    let mut setup = Setup {
        policy: String::new(alloc),
        listed: Listed {
            uses: Items::empty(alloc),
        },
        answers: String::new(alloc),
    };
    for line in block.lines() {
        add_line(alloc, interfaces, line, &mut setup)?;
    }
    let _comma = setup.answers.pop();
    Ok(setup)
}

/// The line of what is seen, without its end.
fn line_of(alloc: Global, seen: &Observation, ty: Option<&WitType>) -> Result<String, Fail> {
    let mut line = String::from_utf8(print_observation(alloc, seen, ty)?)?;
    let _end = line.pop();
    Ok(line)
}

fn answer_in_words(alloc: Global, answer: Answer, ty: Option<&WitType>) -> Result<String, Fail> {
    let word = match answer {
        Answer::Value(None) => "done",
        Answer::Trap => "trap",
        Answer::Ended => "ended",
        Answer::Bad => "bad",
        Answer::Value(Some(value)) => {
            let line = line_of(alloc, &Observation::Returned(Some(value)), ty)?;
            let value = line.as_str().trim_start_matches("[\"return\",");
            return Ok(String::from_str(alloc, value.strip_suffix("]").unwrap_or(value))?);
        }
    };
    Ok(String::from_str(alloc, word)?)
}

fn act(
    alloc: Global,
    interfaces: &[Interface],
    host: &mut Under,
    what: &str,
) -> Result<String, Fail> {
    if let Some(lost) = what.strip_prefix("drop ") {
        let (name, number) = halves(lost, " ");
        let resource = resource_of(alloc, interfaces, name)?;
        host.drop_handle(alloc, &resource, number.parse::<u32>()?)?;
        return Ok(String::from_str(alloc, "done")?);
    }
    let call = call_of(alloc, interfaces, what)?;
    let func = call.func.clone()?;
    let answer = host.call(alloc, call)?;
    answer_in_words(alloc, answer, func.result.as_ref())
}

/// What comes of a call or a drop.
fn outcome(
    alloc: Global,
    interfaces: &[Interface],
    host: &mut Under,
    what: &str,
) -> Result<String, Fail> {
    let before = host.observations().len();
    let answer = act(alloc, interfaces, host, what)?;
    let mut outcome = String::new(alloc);
    for seen in host.observations().as_slice().iter().skip(before) {
        outcome.push_str(line_of(alloc, seen, None)?.as_str())?;
        outcome.push(' ')?;
    }
    outcome.push_str(answer.as_str())?;
    Ok(outcome)
}

/// Adds a row that comes out otherwise, with what was found.
fn try_row(
    alloc: Global,
    interfaces: &[Interface],
    host: &mut Under,
    line: &str,
    otherwise: &mut String,
) -> Result<(), Fail> {
    let Some((what, wanted)) = line.split_once(" => ") else {
        return Ok(());
    };
    let found = outcome(alloc, interfaces, host, what)?;
    if found.as_str() != wanted {
        otherwise.push_str(format!(in alloc; "{line}\n    found {found}\n")?.as_str())?;
    }
    Ok(())
}

/// Adds the rows of a block that come out otherwise.
fn play(
    alloc: Global,
    interfaces: &[Interface],
    block: &str,
    otherwise: &mut String,
) -> Result<(), Fail> {
    let setup = setup_of(alloc, interfaces, block)?;
    let mut host = host_of(
        alloc,
        setup.policy.as_str(),
        &setup.listed,
        setup.answers.as_str(),
    )?;
    for line in block.lines() {
        try_row(alloc, interfaces, &mut host, line, otherwise)?;
    }
    Ok(())
}

/// Each row of these blocks has the outcome that stands in it.
pub fn hold(rt: &impl Abort, alloc: Global, blocks: &str) -> Result<(), Fail> {
    let interfaces = described(alloc)?;
    let blocks = written_out(alloc, blocks)?;
    let mut otherwise = String::new(alloc);
    for block in blocks.as_str().split("\n\n") {
        play(alloc, interfaces.as_slice(), block, &mut otherwise)?;
    }
    assert!(rt; otherwise.is_empty(), "{otherwise}");
    Ok(())
}
