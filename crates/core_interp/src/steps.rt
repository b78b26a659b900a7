//! The instructions, one after another.

ghost use Rattle.std.specs.Prelude.{◌≡◌, ◌+◌, ◌-◌, ◌*◌, ◌<◌, ◌≤◌, Some, IfOk, length, slice_get};
ghost use Rattle.core_store.specs.Eval.{target as target_of};
ghost use Rattle.wasm_ast.specs.declared.instr.Instr.{Instr};
ghost use Rattle.core_store.specs.Scene.{scene_of, code_at, spaces_at};
ghost use Rattle.core_store.specs.Fine.{IsFine};
ghost use Rattle.core_interp.specs.Run.{IsBefore, IsTable, HasTable, TakesLabel, Leads, Performs, steps, Steps, Ready, goes, ahead, RunLeads, Remains, TrapsBehind, Falls, Stops};

use crate::control::Flow;
use crate::fetch::{instr_at, jump_at, scope_at};
use crate::operands::low;
use crate::plain::operate;
use crate::running::Running;
use core_store::{Code, CoreSpaces, Store};
use std::alloc::Global;
use virt_base::NoMemory;
use wasm_ast::{BranchTable, Instr, Op};

impl Running {
    // An instruction that does as one does that goes on to the next.
    #[inline(always)]
    fn plain(
        &mut self,
        alloc: Global,
        spaces: &CoreSpaces,
        store: &mut Store,
        op: Op,
    ) -> Result<Flow, NoMemory>
        requires before { (i : Instr) × Performs i op × IsBefore i self.old store.old }
        requires spaces { spaces.now ≡ spaces_at (scene_of store.old) self.old.function }
        ensures leads { IfOk result (λ flow. Leads (steps self.old store.old) flow self.new store.new) }
        ensures entry { IfOk result (λ flow. Remains flow self.old self.new) }
        ensures scene { IfOk result (λ _. scene_of store.old ≡ scene_of store.new) }
        ensures grows { IfOk result (λ _. length self.new.controls.items ≤ length self.old.controls.items + 1) }
    {
        let went = operate(alloc, &mut self.slots, store, spaces, op)?;
        if went {
            self.at += 1;
            return Ok(Flow::On);
        }
        Ok(Flow::Failed)
    }

    // A constant of 64 bits.
    #[inline(always)]
    fn constant(&mut self, store: &Store, value: i64) -> Result<Flow, NoMemory>
        requires { IsBefore (Instr.I64Const value) self.old store.now }
        ensures leads { IfOk result (λ flow. Leads (steps self.old store.now) flow self.new store.now) }
        ensures entry { IfOk result (λ flow. Remains flow self.old self.new) }
        ensures grows { IfOk result (λ _. length self.new.controls.items ≤ length self.old.controls.items + 1) }
    {
        self.slots.push(value.cast_unsigned())?;
        self.at += 1;
        Ok(Flow::On)
    }

    fn br(&mut self, store: &mut Store, label: u32) -> Flow
        requires { IsBefore (Instr.Br label) self.old store.old }
        ensures leads { Leads (steps self.old store.old) result self.new store.new }
        ensures entry { Remains result self.old self.new }
        ensures scene { scene_of store.old ≡ scene_of store.new }
        ensures grows { length self.new.controls.items ≤ length self.old.controls.items + 1 }
    {
        let flow = self.branch(store, label);
        flow
    }

    #[inline(always)]
    fn br_if(&mut self, store: &mut Store, label: u32) -> Flow
        requires { IsBefore (Instr.BrIf label) self.old store.old }
        ensures leads { Leads (steps self.old store.old) result self.new store.new }
        ensures entry { Remains result self.old self.new }
        ensures scene { scene_of store.old ≡ scene_of store.new }
        ensures grows { length self.new.controls.items ≤ length self.old.controls.items + 1 }
    {
        let test = low(self.slots.pop());
        if test == 0 {
            self.at += 1;
            return Flow::On;
        }
        let flow = self.branch(store, label);
        flow
    }

    fn br_table(&mut self, code: &Code, store: &mut Store) -> Flow
        requires table { IsTable self.old store.old }
        requires code { code.now ≡ code_at (scene_of store.old) self.old.function }
        ensures leads { Leads (steps self.old store.old) result self.new store.new }
        ensures entry { Remains result self.old self.new }
        ensures scene { scene_of store.old ≡ scene_of store.new }
        ensures grows { length self.new.controls.items ≤ length self.old.controls.items + 1 }
    {
        let index = low(self.slots.pop());
        let label = label_at(code, self.at, index);
        let flow = self.branch(store, label);
        flow
    }

    fn return_from(&mut self, store: &mut Store) -> Flow
        requires { IsBefore Instr.Return self.old store.old }
        ensures leads { Leads (steps self.old store.old) result self.new store.new }
        ensures entry { Remains result self.old self.new }
        ensures scene { scene_of store.old ≡ scene_of store.new }
        ensures grows { length self.new.controls.items ≤ length self.old.controls.items + 1 }
    {
        let flow = self.back(store);
        flow
    }

    // An instruction that takes a step.
    #[inline(always)]
    fn step(
        &mut self,
        alloc: Global,
        code: &Code,
        spaces: &CoreSpaces,
        store: &mut Store,
    ) -> Result<Flow, NoMemory>
        requires steps { Steps self.old store.old }
        requires code { code.now ≡ code_at (scene_of store.old) self.old.function }
        requires spaces { spaces.now ≡ spaces_at (scene_of store.old) self.old.function }
        requires fine { IsFine (scene_of store.old) }
        ensures leads { IfOk result (λ flow. Leads (steps self.old store.old) flow self.new store.new) }
        ensures entry { IfOk result (λ flow. Remains flow self.old self.new) }
        ensures scene { IfOk result (λ _. scene_of store.old ≡ scene_of store.new) }
        ensures grows { IfOk result (λ _. length self.new.controls.items ≤ length self.old.controls.items + 1) }
    {
        match instr_at(code, self.at) {
            Instr::Plain(op) => self.plain(alloc, spaces, store, *op),
            Instr::I64Const(value) => self.constant(store, *value),
            Instr::SelectTyped(_) => self.plain(alloc, spaces, store, Op::Select),
            Instr::Unreachable => Ok(Flow::Failed),
            Instr::Block(ty) => self.block(code, spaces, store, *ty),
            Instr::Loop(ty) => self.begin_loop(spaces, store, *ty),
            Instr::If(ty) => self.begin_if(code, spaces, store, *ty),
            Instr::Br(label) => Ok(self.br(store, *label)),
            Instr::BrIf(label) => Ok(self.br_if(store, *label)),
            Instr::BrTable(_) => Ok(self.br_table(code, store)),
            Instr::Return => Ok(self.return_from(store)),
            Instr::Call(index) => self.call(spaces, store, *index),
            Instr::CallIndirect { ty, table } => self.call_indirect(spaces, store, *ty, *table),
            Instr::Else => unreachable!(),
            Instr::End => unreachable!(),
        }
    }

    // An instruction that takes a step, if the budget has one.
    #[inline(always)]
    fn counted(
        &mut self,
        alloc: Global,
        code: &Code,
        spaces: &CoreSpaces,
        store: &mut Store,
        budget: &mut u64,
    ) -> Result<Flow, NoMemory>
        requires steps { Steps self.old store.old }
        requires code { code.now ≡ code_at (scene_of store.old) self.old.function }
        requires spaces { spaces.now ≡ spaces_at (scene_of store.old) self.old.function }
        requires fine { IsFine (scene_of store.old) }
        ensures leads { IfOk result (λ flow. RunLeads (ahead (goes self.old store.old) (budget.old - budget.new)) budget.new flow self.new store.new) }
        ensures traps { IfOk result (λ flow. TrapsBehind (goes self.old store.old) (budget.old - budget.new) flow) }
        ensures entry { IfOk result (λ flow. Remains flow self.old self.new) }
        ensures scene { IfOk result (λ _. scene_of store.old ≡ scene_of store.new) }
        ensures budget { IfOk result (λ _. budget.new ≤ budget.old) }
        ensures falls { IfOk result (λ flow. Falls flow (2 * budget.new + length self.new.controls.items) (2 * budget.old + length self.old.controls.items)) }
    {
        if *budget == 0 {
            return Ok(Flow::Exhausted);
        }
        *budget -= 1;
        let flow = self.step(alloc, code, spaces, store)?;
        Ok(flow)
    }

    // One instruction, or the end of a piece.
    #[inline(always)]
    #[tactic(auto, using(crate::proofs::Entries::no_trap))]
    fn one(
        &mut self,
        alloc: Global,
        code: &Code,
        spaces: &CoreSpaces,
        store: &mut Store,
        budget: &mut u64,
    ) -> Result<Flow, NoMemory>
        requires ready { Ready self.old store.old }
        requires code { code.now ≡ code_at (scene_of store.old) self.old.function }
        requires spaces { spaces.now ≡ spaces_at (scene_of store.old) self.old.function }
        requires fine { IsFine (scene_of store.old) }
        ensures leads { IfOk result (λ flow. RunLeads (ahead (goes self.old store.old) (budget.old - budget.new)) budget.new flow self.new store.new) }
        ensures traps { IfOk result (λ flow. TrapsBehind (goes self.old store.old) (budget.old - budget.new) flow) }
        ensures entry { IfOk result (λ flow. Remains flow self.old self.new) }
        ensures scene { IfOk result (λ _. scene_of store.old ≡ scene_of store.new) }
        ensures budget { IfOk result (λ _. budget.new ≤ budget.old) }
        ensures falls { IfOk result (λ flow. Falls flow (2 * budget.new + length self.new.controls.items) (2 * budget.old + length self.old.controls.items)) }
    {
        if self.at >= code.len() {
            let next = self.at;
            let flow = self.leave(store, next);
            return Ok(flow);
        }
        match instr_at(code, self.at) {
            Instr::End => {
                let next = self.at + 1;
                let flow = self.leave(store, next);
                Ok(flow)
            }
            Instr::Else => {
                let next = jump_at(code, self.at).behind;
                let flow = self.leave(store, next);
                Ok(flow)
            }
            _ => self.counted(alloc, code, spaces, store, budget),
        }
    }

    // A straight run, and the instruction after it.
    #[inline(always)]
    fn stretch(
        &mut self,
        alloc: Global,
        code: &Code,
        spaces: &CoreSpaces,
        store: &mut Store,
        budget: &mut u64,
    ) -> Result<Flow, NoMemory>
        requires ready { Ready self.old store.old }
        requires code { code.now ≡ code_at (scene_of store.old) self.old.function }
        requires spaces { spaces.now ≡ spaces_at (scene_of store.old) self.old.function }
        requires fine { IsFine (scene_of store.old) }
        ensures leads { IfOk result (λ flow. RunLeads (ahead (goes self.old store.old) (budget.old - budget.new)) budget.new flow self.new store.new) }
        ensures traps { IfOk result (λ flow. TrapsBehind (goes self.old store.old) (budget.old - budget.new) flow) }
        ensures entry { IfOk result (λ flow. Remains flow self.old self.new) }
        ensures scene { IfOk result (λ _. scene_of store.old ≡ scene_of store.new) }
        ensures budget { IfOk result (λ _. budget.new ≤ budget.old) }
        ensures falls { IfOk result (λ flow. Falls flow (2 * budget.new + length self.new.controls.items) (2 * budget.old + length self.old.controls.items)) }
    {
        self.run_straight(code, spaces, store, budget)?;
        let flow = self.one(alloc, code, spaces, store, budget)?;
        Ok(flow)
    }

    // Runs while the code of one function is at hand, which the caller holds.
    fn run_in(
        &mut self,
        alloc: Global,
        code: &Code,
        spaces: &CoreSpaces,
        store: &mut Store,
        budget: &mut u64,
    ) -> Result<Flow, NoMemory>
        requires ready { Ready self.old store.old }
        requires code { code.now ≡ code_at (scene_of store.old) self.old.function }
        requires spaces { spaces.now ≡ spaces_at (scene_of store.old) self.old.function }
        requires fine { IsFine (scene_of store.old) }
        ensures leads { IfOk result (λ flow. RunLeads (ahead (goes self.old store.old) (budget.old - budget.new)) budget.new flow self.new store.new) }
        ensures traps { IfOk result (λ flow. TrapsBehind (goes self.old store.old) (budget.old - budget.new) flow) }
        ensures entry { IfOk result (λ flow. Remains flow self.old self.new) }
        ensures scene { IfOk result (λ _. scene_of store.old ≡ scene_of store.new) }
        ensures budget { IfOk result (λ _. budget.new ≤ budget.old) }
        ensures falls { IfOk result (λ flow. Falls flow (2 * budget.new + length self.new.controls.items) (2 * budget.old + length self.old.controls.items)) }
    {
        let function = self.function;
        let mut left = *budget;
        loop {
            let flow = self.stretch(alloc, code, spaces, store, &mut left)?;
            match flow {
                Flow::On if self.function == function => {}
                flow => {
                    *budget = left;
                    return Ok(flow);
                }
            }
        }
    }

    /// Runs until the outermost call ends, or until the run stops.
    pub fn run_on(
        &mut self,
        alloc: Global,
        store: &mut Store,
        budget: &mut u64,
    ) -> Result<Flow, NoMemory>
        requires ready { Ready self.old store.old }
        requires fine { IsFine (scene_of store.old) }
        ensures leads { IfOk result (λ flow. RunLeads (ahead (goes self.old store.old) (budget.old - budget.new)) budget.new flow self.new store.new) }
        ensures traps { IfOk result (λ flow. TrapsBehind (goes self.old store.old) (budget.old - budget.new) flow) }
        ensures entry { IfOk result (λ flow. Remains flow self.old self.new) }
        ensures scene { IfOk result (λ _. scene_of store.old ≡ scene_of store.new) }
        ensures budget { IfOk result (λ _. budget.new ≤ budget.old) }
        ensures stops { IfOk result Stops }
    {
        loop {
            let scope = scope_at(store, self.function)?;
            match self.run_in(alloc, scope.code.get(), scope.spaces.get(), store, budget)? {
                Flow::On => {}
                flow => return Ok(flow),
            }
        }
    }
}

// The label to which the br_table there leads.
fn label_at(code: &Code, at: usize, index: u32) -> u32
    requires within { at < length code.now }
    requires table { HasTable (slice_get code.now at) }
    ensures { TakesLabel (slice_get code.now at) index result }
{
    match instr_at(code, at) {
        Instr::BrTable(table) => target(table, index),
        _ => unreachable!(),
    }
}

// The label to which a br_table leads.
fn target(table: &BranchTable, index: u32) -> u32
    ensures { result ≡ target_of table.now index }
{
    match table.labels.as_slice().get(index as usize) {
        Some(label) => *label,
        None => table.default,
    }
}
