//! `wasi:io/poll` (WASI 0.2), where a pollable is not the host's: it is always ready.

#![tactic(auto, using(wit_types::proofs::ValueLemmas::values, crate::proofs::PollLemmas::one_more, crate::proofs::PollLemmas::polled_none))]

ghost use Rattle.std.specs.Prelude.{◌≡◌, ◌++◌, IfOk, OnOk, map};
ghost use Rattle.wit_types.specs.PlainValue.{plain_value};
ghost use Rattle.reference_step.specs.Pollables as polling;
ghost use Rattle.tree_table.specs.Tables.{Forest};
ghost use Rattle.ref_answers.specs.Shown.{shown};
ghost use Rattle.ref_answers.specs.Polled.{polled, ready_place};

use crate::row::{Effect, Row, returns};
use crate::values::{list, number};
use std::alloc::Global;
use virt_base::NoMemory;
use wit_types::Value;

/// A pollable that is not the host's is ready.
pub fn ready() -> Row
    ensures { (f : Forest) → shown f result ≡ polling.ready }
{
    returns(Value::Bool(true))
}

/// It does not block.
pub fn block() -> Row
    ensures { (f : Forest) → shown f result ≡ polling.block }
{
    Row::Does(Effect {
        value: None,
        makes: None,
        becomes: None,
    })
}

/// Notes the place of a pollable that is always ready.
fn note_ready(places: &mut Vec<Value>, is_host: bool, place: usize) -> Result<(), NoMemory>
    ensures { OnOk result (map plain_value places.new.items ≡ map plain_value places.old.items ++ ready_place is_host place) }
{
    if !is_host {
        places.push(number(place as u64))?;
    }
    Ok(())
}

/// The places of those that are always ready; of no pollable it traps. Of each it is said whether it is the host's.
pub fn poll(alloc: Global, are_host: &[bool]) -> Result<Row, NoMemory>
    ensures { IfOk result (λ row. (f : Forest) → shown f row ≡ polled are_host.now) }
{
    if are_host.is_empty() {
        return Ok(Row::Traps);
    }
    let mut places = Vec::new(alloc);
    for place in 0..are_host.len() {
        note_ready(&mut places, are_host[place], place)?;
    }
    Ok(returns(list(places)))
}
