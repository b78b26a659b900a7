//! The plan of storing a value, from request to request for memory (Component Model, CanonicalABI.md, "Storing" and "Flat Lowering").
//! Between two steps the caller runs `realloc`.

#![tactic(auto, using(crate::proofs::Views::views))]

ghost use Rattle.std.specs.Prelude.{◌≡◌, ◌≤◌, ◌<◌, [], true, length, reverse, IfOk, Some, take};
ghost use Rattle.virt_base.specs.declared.core_type.CoreType.TheVariants.{I32};
ghost use Rattle.core_store.specs.State.{InMemory, memory_at};
ghost use Rattle.wit_types.specs.Plain.{plain};
ghost use Rattle.wit_types.specs.PlainValue.{plain_value};
ghost use Rattle.wit_types.specs.Layout.{flat_of};
ghost use Rattle.wit_types.specs.Limits.{IsSmall};
ghost use Rattle.abi_layout.specs.Flat.{types_of};
ghost use Rattle.abi_store.specs.Plan.{is_due, goes_on, at_plan, flat_plan as plan_of_flats, spill_plan as plan_of_spill, Nothing};
ghost use Rattle.abi_store.specs.Flows.{chain, flow_lowered, led};
ghost use Rattle.abi_store.specs.Works.{IsOver};
ghost use Rattle.abi_store.specs.Slots.{slots_lowered, known, IsThrough};
ghost use Rattle.abi_store.specs.Stages.{rest_of, due_of, left_of, idle_works};
ghost use Rattle.abi_store.specs.Targets.{plan_for, Stops};
ghost use Rattle.abi_store.specs.declared.target.Target.TheVariants.{Flat as ToFlats};

use crate::content::{Content, WholeContent};
use crate::flats::lower;
use crate::going::{proceed, resume, run_flats};
use crate::request::Flow;
use crate::room::is_room;
use crate::slot::{Flats, Slot};
use crate::stage::{Spot, Stage};
use crate::target::{StoreStep, Target};
use crate::values::core_values;
use crate::work::{ValueWork, Work};
use abi_layout::{flatten, layout_of};
use core_store::Store;
use std::alloc::Global;
use std::marker::Model;
use std::mem;
use std::rc::Rc;
use virt_base::{CoreType, NoMemory};
use wit_types::{Value, WitType, copy_type};

/// What is left of storing a value.
#[derive(Drop)]
pub struct StorePlan {
    stage: Stage,
    works: Vec<Work>,
    flats: Flats,
    types: Vec<CoreType>,
}

impl Model for StorePlan {
    ghost use Rattle.std.specs.Prelude.{◌≡◌, []};
    ghost use Rattle.abi_store.specs.Plan.{Plan};
    ghost use Rattle.abi_store.specs.Stages.{plan_of, idle_works};

    ghost Value = { Plan };

    ghost view = { λ p. plan_of p.stage p.works.items p.flats p.types.items };

    ghost invariant = { λ p. idle_works p.stage p.works.items ≡ [] };
}

/// A plan with these flat values alone.
fn slots_plan(alloc: Global, slots: Vec<Slot>, types: Vec<CoreType>) -> StorePlan
    ensures { result ≡ record { due = Nothing; left = slots_lowered slots.items 0; types = types.items } }
{
    let mut left = slots;
    left.reverse();
    StorePlan {
        stage: Stage::Flat,
        works: Vec::new(alloc),
        flats: Flats {
            done: Vec::new(alloc),
            left,
        },
        types,
    }
}

/// A plan for a place of the caller's.
fn placed_plan(alloc: Global, value: Value, ty: &WitType, place: u32) -> Result<StorePlan, NoMemory>
    requires small { IsSmall ty.now }
    ensures { IfOk result (λ plan. plan ≡ at_plan place (plain ty.now) (plain_value value)) }
{
    let layout = layout_of(ty);
    let shared = Rc::new(alloc, copy_type(alloc, ty)?)?;
    let mut works = Vec::new(alloc);
    works.push(Work::Value(ValueWork {
        ty: shared,
        value,
        at: place as u64,
    }))?;
    Ok(StorePlan {
        stage: Stage::Given(Spot {
            place,
            align: layout.align,
            len: layout.size,
        }),
        works,
        flats: Flats {
            done: Vec::new(alloc),
            left: Vec::new(alloc),
        },
        types: Vec::new(alloc),
    })
}

fn flat_plan(alloc: Global, value: Value, ty: &WitType) -> Result<StorePlan, NoMemory>
    requires small { IsSmall ty.now }
    requires flat { length (flat_of ty.now) ≤ 16 }
    ensures { IfOk result (λ plan. plan ≡ plan_of_flats (plain ty.now) (plain_value value)) }
{
    let mut slots = Vec::new(alloc);
    lower(alloc, &mut slots, ty, value)?;
    let flat = flatten(ty);
    let types = Vec::from_slice(alloc, &flat.types[..flat.count as usize])?;
    Ok(slots_plan(alloc, slots, types))
}

fn spill_plan(alloc: Global, value: Value, ty: &WitType) -> Result<StorePlan, NoMemory>
    requires small { IsSmall ty.now }
    ensures { IfOk result (λ plan. plan ≡ plan_of_spill (plain ty.now) (plain_value value)) }
{
    let shared = Rc::new(alloc, copy_type(alloc, ty)?)?;
    let mut slots = Vec::new(alloc);
    slots.push(Slot::Place(Content::Whole(WholeContent { ty: shared, value })))?;
    let mut types = Vec::new(alloc);
    types.push(CoreType::I32)?;
    Ok(slots_plan(alloc, slots, types))
}

/// Goes on up to the next request, or to the end.
fn advance(
    alloc: Global,
    store: &mut Store,
    memory: u32,
    stage: Stage,
    works: &mut Vec<Work>,
    flats: &mut Flats,
    answer: Option<u32>,
) -> Result<Flow, NoMemory>
    requires idle { idle_works stage works.old.items ≡ [] }
    requires memory { is_due (due_of stage) ≡ true → memory < length store.old.memories }
    ensures leads { IfOk result (λ flow. InMemory store.old store.new memory (λ m n. goes_on (due_of stage) (left_of stage works.old.items flats.old) answer m ≡ led (known flats.new.done.items) (chain (flow_lowered flow) (rest_of works.new.items flats.new) 0) n)) }
    ensures over { IfOk result (λ flow. IsOver flow works.new.items) }
    ensures through { IfOk result (λ flow. IsThrough flow flats.new.left.items) }
{
    match stage {
        Stage::Broken => Ok(Flow::Trapped),
        Stage::Flat => {
            let flow = run_flats(flats)?;
            Ok(flow)
        }
        Stage::Given(spot) => {
            if !is_room(store, memory, spot.place, spot.align, spot.len) {
                return Ok(Flow::Trapped);
            }
            let flow = proceed(alloc, store, memory, works, flats)?;
            Ok(flow)
        }
        Stage::Asked(request) => match answer {
            None => Ok(Flow::Trapped),
            Some(place) => {
                let flow = resume(alloc, store, memory, works, flats, request, place)?;
                Ok(flow)
            }
        },
    }
}

impl StorePlan {
    /// A plan that stores a value, whose handles are indexes already.
    pub fn begin(
        alloc: Global,
        value: Value,
        ty: &WitType,
        target: Target,
    ) -> Result<StorePlan, NoMemory>
        requires small { IsSmall ty.now }
        requires flat { target ≡ ToFlats → length (flat_of ty.now) ≤ 16 }
        ensures { IfOk result (λ plan. plan ≡ plan_for target (plain ty.now) (plain_value value)) }
    {
        match target {
            Target::At(place) => placed_plan(alloc, value, ty, place),
            Target::Flat => flat_plan(alloc, value, ty),
            Target::Spill => spill_plan(alloc, value, ty),
        }
    }

    /// Goes on up to the next request, or to the end, with the answer to the last request. Where no answer is brought to a request,
    /// it traps. After `Trap`, and where memory ran out, the plan is not used again.
    pub fn next(
        &mut self,
        alloc: Global,
        store: &mut Store,
        memory: u32,
        answer: Option<u32>,
    ) -> Result<StoreStep, NoMemory>
        requires memory { is_due self.old.due ≡ true → memory < length store.old.memories }
        ensures memories { IfOk result (λ _. length store.new.memories ≡ length store.old.memories) }
        ensures stops { IfOk result (λ step. InMemory store.old store.new memory (λ old new. Stops (goes_on self.old.due self.old.left answer old) self.old.types step self.new new)) }
    {
        let stage = mem::replace(&mut self.stage, Stage::Broken);
        match advance(
            alloc,
            store,
            memory,
            stage,
            &mut self.works,
            &mut self.flats,
            answer,
        )? {
            Flow::Trapped => Ok(StoreStep::Trap),
            Flow::Asks(request) => {
                let step = StoreStep::NeedsRealloc {
                    place: 0,
                    old_len: 0,
                    align: request.align,
                    len: request.len,
                };
                self.stage = Stage::Asked(request);
                Ok(step)
            }
            Flow::Goes => {
                let values = core_values(alloc, &self.types, &self.flats.done)?;
                self.stage = Stage::Flat;
                Ok(StoreStep::Done(values))
            }
        }
    }
}
