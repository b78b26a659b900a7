//! The machine, from pause to pause.

ghost use Rattle.std.specs.Prelude.{◌≡◌, ◌-◌, ◌<◌, ◌≤◌, ◌++◌, [], ℕ, List, IfOk, OnOk, length, slice_get, reverse, take, replicate};
ghost use Rattle.core_store.specs.State.{State};
ghost use Rattle.core_store.specs.declared.value.CoreValue.{CoreValue};
ghost use Rattle.core_store.specs.Words.{values_in};
ghost use Rattle.core_store.specs.Config.{Reply};
ghost use Rattle.core_slots.specs.Stacked.{with_operands};
ghost use Rattle.core_store.specs.Scene.{scene_of};
ghost use Rattle.core_store.specs.Fine.{IsFine};
ghost use Rattle.core_interp.specs.Session.{goes_on, results_due, CanRun, IsCallable, IsOutside, params_at, AsksBy, Dues, PauseLeads, PauseTraps, granted, Follows, Pauses, IsAwaited, awaited, resumed};

use crate::calls::type_of;
use crate::control::{Control, Flow};
use crate::running::Running;
use core_slots::{CoreValues, Slots, values};
use core_store::{Store, StoreFunc, function, functions};
use std::alloc::Global;
use virt_base::NoMemory;

/// How far a machine has come.
#[derive(Clone, Copy)]
pub enum Stage {
    /// No call is begun.
    Starts,
    /// It stands in the code of a function.
    Runs,
    /// The function of `start` is the embedder's, and its results are there.
    Answered,
    /// A call is due that is too deep.
    Due,
}

/// Why a run stopped.
#[derive(Debug, Drop)]
pub enum Pause {
    /// The call ended with these results.
    Done(CoreValues),
    /// The call trapped.
    Trapped,
    /// A function of the embedder is called, by its number, with these arguments.
    AtHost(u32, CoreValues),
    /// An instruction, or a call that is too deep, is due, and the budget is 0.
    Spent,
    /// The 65,537th call in progress is due.
    TooDeep,
}

/// A call of a core function in progress.
#[derive(Drop)]
pub struct Machine {
    entry: u32,
    stage: Stage,
    running: Running,
    awaits: usize,
}

impl Machine {
    /// A call of the function at a place of a store, before its first step.
    pub fn start(alloc: Global, function: u32, args: &CoreValues) -> Result<Machine, NoMemory>
        ensures { IfOk result (λ m. (s : State) → IsCallable (slice_get s.functions function) (length args.now) → Follows s function args.now [] 0 m s) }
    {
        let mut slots = Slots::new(alloc);
        slots.push_values(args.as_slice())?;
        Ok(Machine {
            entry: function,
            stage: Stage::Starts,
            running: Running {
                function,
                at: 0,
                slots,
                controls: Vec::new(alloc),
            },
            awaits: 0,
        })
    }

    /// How many results of the call that the last pause asked for it awaits.
    pub fn awaits(&self) -> usize
        ensures { result ≡ awaited self.now }
    {
        self.awaits
    }

    /// Takes the results of the call that the last pause asked for.
    pub fn resume(&mut self, results: &CoreValues)
        requires { IsAwaited self.old (length results.now) }
        ensures { self.new ≡ resumed self.old results.now }
    {
        self.running.slots.put_values(results.as_slice());
    }

    /// Goes on until the call ends, traps or asks, or until no step is left in the budget.
    pub fn run(
        &mut self,
        alloc: Global,
        store: &mut Store,
        budget: &mut u64,
    ) -> Result<Pause, NoMemory>
        requires can { CanRun self.old store.old }
        requires fine { IsFine (scene_of store.old) }
        ensures { IfOk result (λ pause. Pauses self.old store.old budget.old pause self.new store.new budget.new) }
    {
        let pause = self.next_pause(alloc, store, budget)?;
        Ok(pause)
    }

    fn next_pause(
        &mut self,
        alloc: Global,
        store: &mut Store,
        budget: &mut u64,
    ) -> Result<Pause, NoMemory>
        requires can { CanRun self.old store.old }
        requires fine { IsFine (scene_of store.old) }
        ensures leads { IfOk result (λ pause. PauseLeads (granted (goes_on self.old store.old) (budget.old - budget.new)) budget.new pause self.new store.new) }
        ensures scene { IfOk result (λ _. scene_of store.old ≡ scene_of store.new) }
        ensures budget { IfOk result (λ _. budget.new ≤ budget.old) }
        ensures entry { IfOk result (λ _. self.new.entry ≡ self.old.entry) }
        ensures traps { IfOk result (PauseTraps (goes_on self.old store.old) (budget.old - budget.new)) }
    {
        match self.stage {
            Stage::Starts => self.begin(alloc, store, budget),
            Stage::Runs => self.go_on(alloc, store, budget),
            Stage::Answered => {
                let count = self.running.slots.height();
                let values = self.results(alloc, store, count)?;
                Ok(Pause::Done(values))
            }
            Stage::Due => Ok(due(*budget)),
        }
    }

    // The first call begins.
    fn begin(
        &mut self,
        alloc: Global,
        store: &mut Store,
        budget: &mut u64,
    ) -> Result<Pause, NoMemory>
        requires stage { self.old.stage ≡ Stage.Starts }
        requires can { CanRun self.old store.old }
        requires fine { IsFine (scene_of store.old) }
        ensures leads { IfOk result (λ pause. PauseLeads (granted (goes_on self.old store.old) (budget.old - budget.new)) budget.new pause self.new store.new) }
        ensures scene { IfOk result (λ _. scene_of store.old ≡ scene_of store.new) }
        ensures budget { IfOk result (λ _. budget.new ≤ budget.old) }
        ensures entry { IfOk result (λ _. self.new.entry ≡ self.old.entry) }
        ensures traps { IfOk result (PauseTraps (goes_on self.old store.old) (budget.old - budget.new)) }
    {
        match function(store, self.entry) {
            StoreFunc::Inside {
                ty,
                instance: _,
                locals,
                body: _,
            } => {
                let ty = ty.get();
                let params = ty.params.len();
                let results = ty.results.len();
                let count = locals.len();
                match store.enter() {
                    Ok(()) => {
                        self.running.slots.open(params, count)?;
                        self.running.controls.push(Control::Entry { results })?;
                        self.stage = Stage::Runs;
                        let pause = self.go_on(alloc, store, budget)?;
                        Ok(pause)
                    }
                    Err(_) => {
                        self.stage = Stage::Due;
                        Ok(due(*budget))
                    }
                }
            }
            StoreFunc::Outside { ty: _, number: _ } => {
                self.stage = Stage::Answered;
                let entry = self.entry;
                let pause = self.ask(alloc, store, entry)?;
                Ok(pause)
            }
        }
    }

    // Goes on in the code of a function.
    fn go_on(
        &mut self,
        alloc: Global,
        store: &mut Store,
        budget: &mut u64,
    ) -> Result<Pause, NoMemory>
        requires stage { self.old.stage ≡ Stage.Runs }
        requires can { CanRun self.old store.old }
        requires fine { IsFine (scene_of store.old) }
        ensures leads { IfOk result (λ pause. PauseLeads (granted (goes_on self.old store.old) (budget.old - budget.new)) budget.new pause self.new store.new) }
        ensures scene { IfOk result (λ _. scene_of store.old ≡ scene_of store.new) }
        ensures budget { IfOk result (λ _. budget.new ≤ budget.old) }
        ensures entry { IfOk result (λ _. self.new.entry ≡ self.old.entry) }
        ensures traps { IfOk result (PauseTraps (goes_on self.old store.old) (budget.old - budget.new)) }
    {
        let flow = self.running.run_on(alloc, store, budget)?;
        match flow {
            Flow::Ended(count) => {
                let values = self.results(alloc, store, count)?;
                Ok(Pause::Done(values))
            }
            Flow::Failed => Ok(Pause::Trapped),
            Flow::Asking(callee) => {
                let pause = self.ask(alloc, store, callee)?;
                Ok(pause)
            }
            Flow::Exhausted => Ok(Pause::Spent),
            Flow::Deep => {
                self.stage = Stage::Due;
                Ok(due(*budget))
            }
            Flow::On => unreachable!(),
        }
    }

    // The results of the call: the topmost operands.
    fn results(&self, alloc: Global, store: &Store, count: usize) -> Result<CoreValues, NoMemory>
        requires entry { self.now.entry < length store.now.functions }
        requires fits { count ≤ length self.now.running.slots.operands }
        ensures { IfOk result (λ values. values ≡ values_in (length store.now.functions) (results_due self.now store.now) (reverse (take count self.now.running.slots.operands))) }
    {
        let ty = type_of(function(store, self.entry));
        let operands = self.running.slots.operands();
        let from = operands.len() - count;
        values(
            alloc,
            functions(store),
            ty.results.as_slice(),
            &operands[from..],
        )
    }

    // Asks for a call of the embedder's function at a place. Zeros keep the room of its results.
    fn ask(&mut self, alloc: Global, store: &Store, callee: u32) -> Result<Pause, NoMemory>
        requires outside { IsOutside (slice_get store.now.functions callee) }
        requires fits { params_at (slice_get store.now.functions callee) ≤ length self.old.running.slots.operands }
        ensures { IfOk result (λ pause. AsksBy (slice_get store.now.functions callee) store.now self.old self.new pause) }
    {
        match function(store, callee) {
            StoreFunc::Outside { ty, number } => {
                let ty = ty.get();
                let operands = self.running.slots.operands();
                let from = operands.len() - ty.params.len();
                let args = values(
                    alloc,
                    functions(store),
                    ty.params.as_slice(),
                    &operands[from..],
                )?;
                self.running.slots.drop_top(ty.params.len());
                add_zeros(&mut self.running.slots, ty.results.len())?;
                self.awaits = ty.results.len();
                Ok(Pause::AtHost(*number, args))
            }
            _ => unreachable!(),
        }
    }
}

// A call is due that is too deep.
fn due(budget: u64) -> Pause
    ensures { Dues budget result }
{
    if budget == 0 {
        Pause::Spent
    } else {
        Pause::TooDeep
    }
}

// Adds zeros to the operands.
#[tactic(auto, using(crate::proofs::Asking::zeros_none, crate::proofs::Asking::zeros_more))]
fn add_zeros(slots: &mut Slots, count: usize) -> Result<(), NoMemory>
    ensures { OnOk result (slots.new ≡ with_operands slots.old (replicate count 0 ++ slots.old.operands)) }
{
    for _ in 0..count {
        slots.push(0)?;
    }
    Ok(())
}
