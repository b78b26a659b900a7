//! Routines by the evaluator, and what is seen of what they leave.

use crate::comparing::in_words;
use crate::reading::{halves, locals, low, number, numbers, value};
use crate::routines::routine;
use adapter_code::{CodeEnd, Local, RowState, eval, is_well_formed, widths_of};
use core_store::CoreValue;
use handle_space::HandleTable;
use std::alloc::Global;
use std::test::Fail;

/// A state without locals, without handles, and with that many bytes of zeros.
pub fn state_of(alloc: Global, len: usize) -> Result<RowState, Fail> {
    Ok(RowState {
        locals: Vec::new(alloc),
        memory: vec![in alloc; 0; len]?,
        table: HandleTable::new(alloc),
        effects: Vec::new(alloc),
    })
}

/// Adds a handle with the index that it gets, its resource and what it stands for; or lends or takes out the one of an index and a
/// resource. Whether that went well.
fn goes_well(alloc: Global, table: &mut HandleTable, verb: &str, numbers: &[u64]) -> bool {
    match numbers {
        [index, resource, rep] => {
            table.add_own(alloc, low(*resource), low(*rep)).ok() == Some(low(*index))
        }
        [index, resource] => {
            if verb == "lend" {
                table.lend(low(*index), low(*resource)).is_ok()
            } else {
                table.take_own(low(*index), low(*resource)).is_ok()
            }
        }
        _ => verb == "none",
    }
}

fn change(alloc: Global, table: &mut HandleTable, piece: &str) -> Result<(), Fail> {
    let (verb, words) = halves(piece, " ");
    let numbers = numbers(alloc, words)?;
    if !goes_well(alloc, table, verb, numbers.as_slice()) {
        return Err(Fail::from("a handle is another than the row says"));
    }
    Ok(())
}

/// Gives a state these handles: `own INDEX RESOURCE REP`, `lend INDEX RESOURCE`, `take INDEX RESOURCE`, or `none`.
pub fn set_handles(alloc: Global, state: &mut RowState, list: &str) -> Result<(), Fail> {
    state.table = HandleTable::new(alloc);
    for piece in list.split(", ") {
        change(alloc, &mut state.table, piece)?;
    }
    Ok(())
}

/// Runs a routine over these locals, and says how it ends.
pub fn evaluate(
    alloc: Global,
    state: &mut RowState,
    given: &str,
    text: &str,
) -> Result<&'static str, Fail> {
    state.locals = locals(alloc, given)?;
    state.effects.clear();
    let list = routine(alloc, text)?;
    let widths = widths_of(alloc, &state.locals)?;
    if !is_well_formed(alloc, &widths, &list)? {
        return Ok("faulty");
    }
    match eval(alloc, &list, state)? {
        CodeEnd::Answer => Ok("answer"),
        CodeEnd::Trap => Ok("trap"),
    }
}

/// The local of a number, or what a handle stands for, by `INDEX@RESOURCE`.
fn look(state: &RowState, place: &str) -> Result<Option<Local>, Fail> {
    match place.split_once('@') {
        Some((index, resource)) => {
            match state
                .table
                .rep_of(low(number(index)?), low(number(resource)?))
            {
                Ok(rep) => Ok(Some(Local::Small(rep))),
                Err(_) => Ok(None),
            }
        }
        None => Ok(state.locals.get(number(place)? as usize).copied()),
    }
}

/// What stands at places of a state. What is not there is left out.
fn seen(alloc: Global, state: &RowState, places: &str) -> Result<Vec<CoreValue>, Fail> {
    let mut all = Vec::new(alloc);
    for place in places.split_whitespace() {
        if let Some(local) = look(state, place)? {
            all.push(value(local))?;
        }
    }
    Ok(all)
}

/// What comes of `LOCALS | ROUTINE | PLACES` in words.
pub fn evaluated(alloc: Global, state: &mut RowState, work: &str) -> Result<String, Fail> {
    let (given, rest) = halves(work, " | ");
    let (text, places) = halves(rest, " | ");
    let end = evaluate(alloc, state, given, text)?;
    left_in_words(alloc, end, state, places)
}

/// How a routine ended in words, with what is seen at places of the state that it left, and the handles that it made and dropped.
pub fn left_in_words(
    alloc: Global,
    end: &str,
    state: &RowState,
    places: &str,
) -> Result<String, Fail> {
    let left = seen(alloc, state, places)?;
    let done = format!(in alloc; "{:?}", state.effects)?;
    in_words(alloc, end, left.as_slice(), done.as_str())
}
