//! A plan of storing goes on, with an answer or without: what is in progress in memory first, then the flat values.

#![tactic(auto, using(crate::proofs::Views::views))]

ghost use Rattle.std.specs.Prelude.{ℕ, ◌≡◌, ◌≤◌, ◌<◌, ◌^◌, length, reverse, IfOk};
ghost use Rattle.core_memory.specs.Linear.{Linear};
ghost use Rattle.core_store.specs.State.{InMemory, memory_at};
ghost use Rattle.abi_store.specs.Plan.{answered, tested, is_room as has_room};
ghost use Rattle.abi_store.specs.Rooms.{cell_place};
ghost use Rattle.abi_store.specs.Flows.{chain, flow_lowered, led};
ghost use Rattle.abi_store.specs.Works.{works_lowered, IsOver};
ghost use Rattle.abi_layout.specs.Storing.{Lowered};
ghost use Rattle.abi_store.specs.Slots.{slot_lowered, slots_lowered, known, IsThrough};
ghost use Rattle.abi_store.specs.Stages.{asked_left, IsPlaced};

use crate::content::Cell;
use crate::contents::begin_content;
use crate::request::{Flow, Request};
use crate::room::{is_room, len_of, request_for};
use crate::slot::{Flats, Slot};
use crate::storing::{run, settle};
use crate::work::{PlaceWork, Work};
use core_store::Store;
use std::alloc::Global;
use virt_base::NoMemory;

/// One flat value more is known, or it asks.
fn turn_slot(done: &mut Vec<u64>, slot: Slot) -> Result<Flow, NoMemory>
    ensures { IfOk result (λ flow. (rest : ℕ → Lowered) → (m : Linear) → led (known done.old.items) (chain (slot_lowered slot) rest 0) m ≡ led (known done.new.items) (chain (flow_lowered flow) rest 0) m) }
{
    match slot {
        Slot::Number(number) => {
            done.push(number)?;
            Ok(Flow::Goes)
        }
        Slot::Place(content) => Ok(request_for(content, Cell::Flat)),
    }
}

/// Goes on with the flat values up to the next request, or to the end.
pub fn run_flats(flats: &mut Flats) -> Result<Flow, NoMemory>
    ensures leads { IfOk result (λ flow. (m : Linear) → led (known flats.old.done.items) (slots_lowered (reverse flats.old.left.items) 0) m ≡ led (known flats.new.done.items) (chain (flow_lowered flow) (slots_lowered (reverse flats.new.left.items)) 0) m) }
    ensures through { IfOk result (λ flow. IsThrough flow flats.new.left.items) }
{
    while let Some(slot) = flats.left.pop() {
        match turn_slot(&mut flats.done, slot)? {
            Flow::Goes => {}
            Flow::Asks(request) => return Ok(Flow::Asks(request)),
            Flow::Trapped => return Ok(Flow::Trapped),
        }
    }
    Ok(Flow::Goes)
}

/// Goes on with what is in progress in memory, and then with the flat values.
pub fn proceed(
    alloc: Global,
    store: &mut Store,
    memory: u32,
    works: &mut Vec<Work>,
    flats: &mut Flats,
) -> Result<Flow, NoMemory>
    requires memory { memory < length store.old.memories }
    ensures leads { IfOk result (λ flow. InMemory store.old store.new memory (λ m n. led (known flats.old.done.items) (chain (works_lowered (reverse works.old.items)) (slots_lowered (reverse flats.old.left.items)) 0) m ≡ led (known flats.new.done.items) (chain (flow_lowered flow) (chain (works_lowered (reverse works.new.items)) (slots_lowered (reverse flats.new.left.items))) 0) n)) }
    ensures over { IfOk result (λ flow. IsOver flow works.new.items) }
    ensures through { IfOk result (λ flow. IsThrough flow flats.new.left.items) }
{
    match run(alloc, store, memory, works)? {
        Flow::Goes => {
            let flow = run_flats(flats)?;
            Ok(flow)
        }
        Flow::Asks(request) => Ok(Flow::Asks(request)),
        Flow::Trapped => Ok(Flow::Trapped),
    }
}

/// The answer to a request goes where it is due.
fn place_answer(
    works: &mut Vec<Work>,
    flats: &mut Flats,
    cell: Cell,
    place: u32,
    len: u64,
) -> Result<(), NoMemory>
    requires low { cell_place cell ≤ 2 ^ 50 }
    ensures { IfOk result (λ _. IsPlaced cell place len works.old.items flats.old works.new.items flats.new) }
{
    match cell {
        Cell::Memory(at) => {
            works.push(Work::Place(PlaceWork { at, place, len }))?;
            Ok(())
        }
        Cell::Flat => {
            flats.done.push(place as u64)?;
            Ok(())
        }
    }
}

/// Goes on with the answer to a request.
pub fn resume(
    alloc: Global,
    store: &mut Store,
    memory: u32,
    works: &mut Vec<Work>,
    flats: &mut Flats,
    request: Request,
    place: u32,
) -> Result<Flow, NoMemory>
    requires memory { memory < length store.old.memories }
    ensures leads { IfOk result (λ flow. InMemory store.old store.new memory (λ m n. tested (has_room m request.align request.len place) (answered place (asked_left request works.old.items flats.old)) m ≡ led (known flats.new.done.items) (chain (flow_lowered flow) (chain (works_lowered (reverse works.new.items)) (slots_lowered (reverse flats.new.left.items))) 0) n)) }
    ensures over { IfOk result (λ flow. IsOver flow works.new.items) }
    ensures through { IfOk result (λ flow. IsThrough flow flats.new.left.items) }
{
    if !is_room(store, memory, place, request.align, request.len) {
        return Ok(Flow::Trapped);
    }
    let len = len_of(&request.content);
    let cell = request.cell;
    let begun = begin_content(alloc, store, memory, request.content, place)?;
    place_answer(works, flats, cell, place, len)?;
    match settle(works, begun)? {
        Flow::Goes => {
            let flow = proceed(alloc, store, memory, works, flats)?;
            Ok(flow)
        }
        Flow::Asks(request) => Ok(Flow::Asks(request)),
        Flow::Trapped => Ok(Flow::Trapped),
    }
}
