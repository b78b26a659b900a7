//! What is in progress in memory goes on, turn by turn, up to the next request for memory.

#![tactic(auto, using(crate::proofs::Views::views))]

ghost use Rattle.std.specs.Prelude.{◌≡◌, ◌≤◌, ◌<◌, ◌+◌, ◌*◌, ◌^◌, ◌++◌, ◌∷◌, [], length, reverse, IfOk, OnOk};
ghost use Rattle.core_memory.specs.Number.{bytes_of};
ghost use Rattle.abi_store.specs.Flows.{chain, flow_lowered};
ghost use Rattle.abi_store.specs.Works.{Took, begun_lowered, work_lowered, works_lowered, place_lowered, IsOver};
ghost use Rattle.abi_store.specs.Weights.{work_turns, works_turns, begun_turns};
ghost use Rattle.abi_store.specs.declared.work.Work.TheVariants.{List as OfList, Record as OfRecord};

use crate::beginning::{begin, put};
use crate::parts::part;
use crate::request::{Flow, Request};
use crate::work::{Begun, ListWork, PlaceWork, RecordWork, Work, Written};
use abi_layout::{align_to, layout_of};
use core_store::Store;
use std::alloc::Global;
use virt_base::NoMemory;

/// What is in progress, with what a value came to on top of it.
pub fn settle(works: &mut Vec<Work>, begun: Begun) -> Result<Flow, NoMemory>
    ensures turns { IfOk result (λ _. works_turns works.new.items ≤ works_turns works.old.items + begun_turns begun) }
    ensures value { IfOk result (λ flow. chain (begun_lowered begun) (works_lowered (reverse works.old.items)) 0 ≡ chain (flow_lowered flow) (works_lowered (reverse works.new.items)) 0) }
{
    match begun {
        Begun::Stored => Ok(Flow::Goes),
        Begun::Opened(work) => {
            works.push(work)?;
            Ok(Flow::Goes)
        }
        Begun::Asks(request) => Ok(Flow::Asks(request)),
        Begun::Trapped => Ok(Flow::Trapped),
    }
}

fn turn_list(
    alloc: Global,
    store: &mut Store,
    memory: u32,
    works: &mut Vec<Work>,
    work: ListWork,
) -> Result<Flow, NoMemory>
    requires memory { memory < length store.old.memories }
    ensures fewer { IfOk result (λ _. works_turns works.new.items < works_turns works.old.items + work_turns (OfList work)) }
    ensures took { IfOk result (λ flow. Took store.old store.new memory (chain (work_lowered (OfList work)) (works_lowered (reverse works.old.items))) (chain (flow_lowered flow) (works_lowered (reverse works.new.items)))) }
{
    let mut left = work.left;
    match left.pop() {
        None => Ok(Flow::Goes),
        Some(value) => {
            let begun = begin(alloc, store, memory, &work.item, value, work.at)?;
            works.push(Work::List(ListWork {
                item: work.item,
                width: work.width,
                left,
                at: work.at + work.width as u64,
            }))?;
            let flow = settle(works, begun)?;
            Ok(flow)
        }
    }
}

fn turn_record(
    alloc: Global,
    store: &mut Store,
    memory: u32,
    works: &mut Vec<Work>,
    work: RecordWork,
) -> Result<Flow, NoMemory>
    requires memory { memory < length store.old.memories }
    ensures fewer { IfOk result (λ _. works_turns works.new.items < works_turns works.old.items + work_turns (OfRecord work)) }
    ensures took { IfOk result (λ flow. Took store.old store.new memory (chain (work_lowered (OfRecord work)) (works_lowered (reverse works.old.items))) (chain (flow_lowered flow) (works_lowered (reverse works.new.items)))) }
{
    match part(alloc, &work.parts, work.next)? {
        None => Ok(Flow::Goes),
        Some(ty) => {
            let mut left = work.left;
            match left.pop() {
                None => Ok(Flow::Goes),
                Some(value) => {
                    let layout = layout_of(&ty);
                    let start = align_to(work.offset, layout.align);
                    let begun = begin(alloc, store, memory, &ty, value, work.at + start as u64)?;
                    works.push(Work::Record(RecordWork {
                        parts: work.parts,
                        next: work.next + 1,
                        left,
                        at: work.at,
                        offset: start + layout.size,
                    }))?;
                    let flow = settle(works, begun)?;
                    Ok(flow)
                }
            }
        }
    }
}

fn turn_place(store: &mut Store, memory: u32, work: PlaceWork) -> Result<Flow, NoMemory>
    requires memory { memory < length store.old.memories }
    ensures { IfOk result (λ flow. Took store.old store.new memory (place_lowered work.at work.place work.len) (flow_lowered flow)) }
{
    match put(store, memory, work.at, 4, work.place as u64)? {
        Written::Past => Ok(Flow::Trapped),
        Written::Done => match put(store, memory, work.at + 4, 4, work.len)? {
            Written::Past => Ok(Flow::Trapped),
            Written::Done => Ok(Flow::Goes),
        },
    }
}

/// One turn: what is topmost goes on.
fn turn(
    alloc: Global,
    store: &mut Store,
    memory: u32,
    works: &mut Vec<Work>,
    work: Work,
) -> Result<Flow, NoMemory>
    requires memory { memory < length store.old.memories }
    ensures fewer { IfOk result (λ _. works_turns works.new.items < works_turns works.old.items + work_turns work) }
    ensures took { IfOk result (λ flow. Took store.old store.new memory (chain (work_lowered work) (works_lowered (reverse works.old.items))) (chain (flow_lowered flow) (works_lowered (reverse works.new.items)))) }
{
    match work {
        Work::List(work) => turn_list(alloc, store, memory, works, work),
        Work::Record(work) => turn_record(alloc, store, memory, works, work),
        Work::Value(work) => {
            let value = work.value;
            let begun = begin(alloc, store, memory, &work.ty, value, work.at)?;
            let flow = settle(works, begun)?;
            Ok(flow)
        }
        Work::Place(work) => turn_place(store, memory, work),
    }
}

/// Goes on with what is in progress up to the next request, or to the end.
pub fn run(
    alloc: Global,
    store: &mut Store,
    memory: u32,
    works: &mut Vec<Work>,
) -> Result<Flow, NoMemory>
    requires memory { memory < length store.old.memories }
    ensures took { IfOk result (λ flow. Took store.old store.new memory (works_lowered (reverse works.old.items)) (chain (flow_lowered flow) (works_lowered (reverse works.new.items)))) }
    ensures over { IfOk result (λ flow. IsOver flow works.new.items) }
{
    while let Some(work) = works.pop() {
        match turn(alloc, store, memory, works, work)? {
            Flow::Goes => {}
            Flow::Asks(request) => return Ok(Flow::Asks(request)),
            Flow::Trapped => return Ok(Flow::Trapped),
        }
    }
    Ok(Flow::Goes)
}
