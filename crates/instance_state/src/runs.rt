//! The store of a component instance with the calls of core functions in progress in it, of which only the innermost goes on.

#![tactic(auto)]

ghost use Rattle.std.specs.Prelude.{◌≡◌, ◌≤◌, ◌++◌, ◌∷◌, [], ℕ, true, false, length, IfSome, IfOk, IsTrue, ◌↔◌, ◌<◌};
ghost use Rattle.core_store.specs.State.{empty as empty_store};
ghost use Rattle.abi_store.specs.Plan.{is_due};
ghost use Rattle.core_validate.specs.Validity.{IsValidModule};
ghost use Rattle.core_instance.specs.Matching.{HasCounts};
ghost use Rattle.core_instance.specs.Spaces.{IsThere};
ghost use Rattle.instance_state.specs.Counting.{Counted};
ghost use Rattle.instance_state.specs.Done.{Ran, stays_by, Begins, Goes, goes_by, Resumes, Provides, AreThere, Instantiates, Stores};
ghost use Rattle.core_store.specs.Scene.{scene_of};
ghost use Rattle.core_store.specs.Fine.{IsFine};
ghost use Rattle.core_interp.specs.Session.{CanRun};

use crate::calls::{CoreCall, is_callable};
use abi_store::{StorePlan, StoreStep};
use core_instance::{CoreInstance, Extern, Externs, imports_match, instantiate};
use core_interp::{Machine, Pause};
use core_slots::CoreValues;
use core_store::{Shared, Store, StoreFault, StoreFunc, add_function, functions};
use std::alloc::Global;
use std::marker::Model;
use virt_base::{NoMemory, Trap};
use wasm_ast::{CoreFunc, Module};

/// A store, and the calls of its functions that are in progress, each begun while the one before it awaits results. The innermost goes on
/// or awaits results itself. Where memory ran out nothing is left in it.
#[derive(Drop)]
pub struct CoreRuns {
    store: Store,
    calls: Vec<CoreCall>,
    going: bool,
    counts: Counts,
}

/// How many items of three sorts a store has.
#[derive(Clone, Copy)]
struct Counts {
    tables: usize,
    memories: usize,
    globals: usize,
}

impl Counts {
    /// With those that a module defines.
    fn with(self, core_module: &Module) -> Option<Counts>
        ensures { IfSome result (λ counts. Counted self core_module.now counts) }
    {
        Some(Counts {
            tables: self.tables.checked_add(core_module.tables.len())?,
            memories: self.memories.checked_add(core_module.memories.len())?,
            globals: self.globals.checked_add(core_module.globals.len())?,
        })
    }
}

impl Model for CoreRuns {
    ghost use Rattle.std.specs.Prelude.{◌≡◌};
    ghost use Rattle.core_store.specs.Scene.{scene_of};
    ghost use Rattle.core_store.specs.Fine.{IsFine};
    ghost use Rattle.instance_state.specs.Ready.{Runs, AreReady};

    ghost Value = { Runs };

    ghost view = { λ r. record { store = r.store; calls = r.calls.items; going = r.going } };

    ghost use Rattle.instance_state.specs.Counting.{CountsOf};

    ghost invariant = { λ r. IsFine (scene_of r.store) × AreReady r.calls.items r.going r.store × CountsOf r.store r.counts };
}

fn goes_on(pause: &Pause) -> bool
    ensures { result ≡ goes_by pause.now }
{
    match pause {
        Pause::Spent => true,
        Pause::AtHost(_, _) | Pause::Done(_) | Pause::Trapped | Pause::TooDeep => false,
    }
}

/// Whether the call may go on after the pause, by itself or with results.
fn stays(pause: &Pause) -> bool
    ensures { result ≡ stays_by pause.now }
{
    match pause {
        Pause::AtHost(_, _) | Pause::Spent => true,
        Pause::Done(_) | Pause::Trapped | Pause::TooDeep => false,
    }
}

/// A call goes on to its next pause; it stays, after those outside it, where it may go on later.
fn run_call(
    alloc: Global,
    store: &mut Store,
    calls: &mut Vec<CoreCall>,
    call: CoreCall,
    budget: &mut u64,
) -> Result<Pause, NoMemory>
    requires can { CanRun call.machine store.old }
    requires fine { IsFine (scene_of store.old) }
    ensures { IfOk result (λ pause. Ran calls.old.items call store.old budget.old pause calls.new.items store.new budget.new) }
{
    let mut machine = call.machine;
    let pause = machine.run(alloc, store, budget)?;
    if !stays(&pause) {
        return Ok(pause);
    }
    let nesting = store.nesting();
    calls.push(CoreCall { machine, nesting })?;
    Ok(pause)
}

impl CoreRuns {
    /// A store without items. It takes no memory.
    pub fn new(alloc: Global) -> CoreRuns
        ensures { result ≡ record { store = empty_store; calls = []; going = false } }
    {
        CoreRuns {
            store: Store::new(alloc),
            calls: Vec::new(alloc),
            going: false,
            counts: Counts {
                tables: 0,
                memories: 0,
                globals: 0,
            },
        }
    }

    /// The store as it is now.
    pub fn store(&self) -> &Store
        ensures { result.now ≡ self.now.store }
    {
        &self.store
    }

    /// Begins a call of a function, where `nesting` calls are in progress.
    ///
    /// # Errors
    ///
    /// `Trap` where there is no such function, or it takes another number of arguments, or the innermost call does not await results.
    pub fn begin(
        &mut self,
        alloc: Global,
        function: u32,
        args: &CoreValues,
        nesting: u32,
    ) -> Result<(), StoreFault>
        requires { nesting ≤ 65536 }
        ensures { Begins self.old function args.now nesting self.new result }
    {
        if self.going || !is_callable(&self.store, function, args.len()) {
            return Err(StoreFault::Trap);
        }
        let machine = Machine::start(alloc, function, args)?;
        self.calls.push(CoreCall { machine, nesting })?;
        self.store.set_nesting(nesting);
        self.going = true;
        Ok(())
    }

    /// The innermost call goes on until it ends, traps or asks, or until no step is left in the budget. One that awaits results traps.
    pub fn go_on(&mut self, alloc: Global, budget: &mut u64) -> Result<Pause, NoMemory>
        ensures goes { IfOk result (λ pause. Goes self.old budget.old pause self.new budget.new) }
        ensures budget { IfOk result (λ _. budget.new ≤ budget.old) }
    {
        if !self.going {
            return Ok(Pause::Trapped);
        }
        let Some(call) = self.calls.pop() else {
            return Ok(Pause::Trapped);
        };
        match run_call(alloc, &mut self.store, &mut self.calls, call, budget) {
            Ok(pause) => {
                self.going = goes_on(&pause);
                Ok(pause)
            }
            Err(_) => {
                *self = CoreRuns::new(alloc);
                Err(NoMemory)
            }
        }
    }

    /// The innermost call gets the results that it awaits.
    ///
    /// # Errors
    ///
    /// `Trap` where none awaits results, or not that many.
    pub fn resume(&mut self, results: &CoreValues) -> Result<(), Trap>
        ensures { Resumes self.old results.now self.new result }
    {
        if self.going {
            return Err(Trap);
        }
        let Some(call) = self.calls.pop() else {
            return Err(Trap);
        };
        if call.machine.awaits() != results.len() {
            self.calls.push_reserved(call);
            return Err(Trap);
        }
        let CoreCall { machine, nesting } = call;
        let mut machine = machine;
        machine.resume(results);
        self.store.set_nesting(nesting);
        self.calls.push_reserved(CoreCall { machine, nesting });
        self.going = true;
        Ok(())
    }

    /// A function of the embedder becomes a function of the store, by the embedder's number: its place.
    ///
    /// # Errors
    ///
    /// `Trap` where the innermost call does not await results.
    pub fn provide(&mut self, alloc: Global, ty: CoreFunc, number: u32) -> Result<u32, StoreFault>
        ensures { Provides self.old ty number self.new result }
    {
        if self.going {
            return Err(StoreFault::Trap);
        }
        let ty = Shared::new(alloc, ty)?;
        let place = add_function(alloc, &mut self.store, StoreFunc::Outside { ty, number })?;
        Ok(place)
    }

    /// Whether there is a memory at the place.
    pub fn has_memory(&self, at: u32) -> bool
        ensures { IsTrue result ↔ (at < length self.now.store.memories) }
    {
        (at as usize) < self.counts.memories
    }

    fn is_there(&self, item: Extern) -> bool
        ensures { IsTrue result ↔ IsThere self.now.store item }
    {
        match item {
            Extern::Func(at) => at < functions(&self.store),
            Extern::Table(at) => (at as usize) < self.counts.tables,
            Extern::Memory(at) => (at as usize) < self.counts.memories,
            Extern::Global(at) => (at as usize) < self.counts.globals,
        }
    }

    fn are_there(&self, items: &[Extern]) -> bool
        ensures { IsTrue result ↔ AreThere self.now.store items.now }
    {
        for item in items {
            if !self.is_there(*item) {
                return false;
            }
        }
        true
    }

    /// Instantiates a module, whose start function does not run. After a trap, or where memory ran out, nothing is left.
    ///
    /// # Errors
    ///
    /// `Trap` where instantiation traps, or an import is given what is not there or of another type, or the innermost call does not await
    /// results.
    pub fn instantiate(
        &mut self,
        alloc: Global,
        core_module: &Module,
        imports: &Externs,
    ) -> Result<CoreInstance, StoreFault>
        requires valid { IsValidModule core_module.now }
        requires counts { HasCounts core_module.now }
        ensures { Instantiates self.old core_module.now imports.now self.new result }
    {
        if self.going || !self.are_there(imports.as_slice()) {
            return Err(StoreFault::Trap);
        }
        if !imports_match(&self.store, core_module, imports) {
            return Err(StoreFault::Trap);
        }
        let Some(counts) = self.counts.with(core_module) else {
            return Err(StoreFault::NoMemory);
        };
        match instantiate(alloc, &mut self.store, core_module, imports) {
            Ok(instance) => {
                self.counts = counts;
                Ok(instance)
            }
            Err(fault) => {
                *self = CoreRuns::new(alloc);
                Err(fault)
            }
        }
    }

    /// A plan of storing goes on in a memory, with the answer to its last request. Where memory ran out nothing is left.
    ///
    /// # Errors
    ///
    /// `Trap` where the innermost call does not await results.
    pub fn store_next(
        &mut self,
        alloc: Global,
        plan: &mut StorePlan,
        memory: u32,
        answer: Option<u32>,
    ) -> Result<StoreStep, StoreFault>
        requires memory { is_due plan.old.due ≡ true → memory < length self.old.store.memories }
        ensures { Stores self.old plan.old memory answer plan.new self.new result }
    {
        if self.going {
            return Err(StoreFault::Trap);
        }
        match plan.next(alloc, &mut self.store, memory, answer) {
            Ok(step) => Ok(step),
            Err(_) => {
                *self = CoreRuns::new(alloc);
                Err(StoreFault::NoMemory)
            }
        }
    }
}
