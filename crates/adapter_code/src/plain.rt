//! The run of one statement that holds no others: it sets a local, loads, stores, makes or drops a handle, or ends a list.

ghost use Rattle.std.specs.Prelude.{◌≡◌, ◌+◌, ◌<◌, ◌^◌, IfOk, OnOk, map, length, List, ℕ};
ghost use Rattle.adapter_code.specs.declared.statement.Width.TheVariants.{Narrow};
ghost use Rattle.adapter_code.specs.declared.statement.Statement.{Load as LoadOf, Store as StoreOf, NewHandle as NewHandleOf, DropHandle as DropHandleOf};
ghost use Rattle.adapter_code.specs.Code.{Stop, Then, before};
ghost use Rattle.adapter_code.specs.Run.{local_width, with_value, number_at, width_at, set_local, runs};
ghost use Rattle.adapter_code.specs.WellFormed.{IsFine};
ghost use Rattle.adapter_code.specs.Shown.{seen, Shows};
ghost use Rattle.adapter_code.specs.Plain.{IsPlain};

use crate::flow::Flow;
use crate::memory;
use crate::number::{apply, low, moved};
use crate::state::{CodeEnd, Effect, Local, RowState};
use crate::statement::{Statement, Width};
use handle_space::AddFault;
use std::alloc::Global;
use virt_base::NoMemory;

/// The number in a local.
pub fn number(state: &RowState, local: u32) -> u64
    requires { local < length state.now.locals.items }
    ensures value { result ≡ number_at (seen state.now) local }
    ensures fits { width_at (seen state.now) local ≡ Narrow → result < 2 ^ 32 }
{
    match state.locals[local as usize] {
        Local::Small(number) => number as u64,
        Local::Wide(number) => number,
    }
}

// The number in a local of 32 bits.
fn small(state: &RowState, local: u32) -> u32
    requires there { local < length state.now.locals.items }
    requires narrow { width_at (seen state.now) local ≡ Narrow }
    ensures { result ≡ number_at (seen state.now) local }
{
    match state.locals[local as usize] {
        Local::Small(number) => number,
        Local::Wide(_) => unreachable!(),
    }
}

fn width_of(state: &RowState, local: u32) -> Width
    requires { local < length state.now.locals.items }
    ensures { result ≡ width_at (seen state.now) local }
{
    match state.locals[local as usize] {
        Local::Small(_) => Width::Narrow,
        Local::Wide(_) => Width::Broad,
    }
}

// A local of the same width with another number.
fn with_number(local: Local, number: u64) -> Local
    requires { local_width local ≡ Narrow → number < 2 ^ 32 }
    ensures { result ≡ with_value local number }
{
    match local {
        Local::Small(_) => Local::Small(number as u32),
        Local::Wide(_) => Local::Wide(number),
    }
}

// Puts a number into a local.
#[tactic(auto, using(crate::proofs::Places::widths_set))]
fn set(state: &mut RowState, to: u32, number: u64)
    requires there { to < length state.old.locals.items }
    requires fits { width_at (seen state.old) to ≡ Narrow → number < 2 ^ 32 }
    ensures value { seen state.new ≡ set_local (seen state.old) to number }
    ensures wide { map local_width state.new.locals.items ≡ map local_width state.old.locals.items }
{
    let local = with_number(state.locals[to as usize], number);
    state.locals[to as usize] = local;
}

/// Runs a statement that holds no others.
pub fn run_plain(
    alloc: Global,
    statement: &Statement,
    state: &mut RowState,
) -> Result<Flow, NoMemory>
    requires plain { IsPlain statement.now }
    requires fine { (names : List ℕ) × IsFine (map local_width state.old.locals.items) names statement.now }
    ensures shows { IfOk result (λ flow. (k : ℕ) → Shows (runs (before statement.now Stop) k (seen state.old)) flow (seen state.new)) }
    ensures wide { OnOk result (map local_width state.new.locals.items ≡ map local_width state.old.locals.items) }
{
    let _statement = statement;
    match statement {
        Statement::Const { to, value } => {
            let number = low(width_of(state, *to), *value);
            set(state, *to, number);
            Ok(Flow::Next)
        }
        Statement::Move { to, from } => {
            let was = number(state, *from);
            let becomes = moved(width_of(state, *to), width_of(state, *from), was);
            set(state, *to, becomes);
            Ok(Flow::Next)
        }
        Statement::Int { op, to, a, b } => {
            let x = number(state, *a);
            let y = number(state, *b);
            let becomes = apply(*op, width_of(state, *a), x, y);
            set(state, *to, becomes);
            Ok(Flow::Next)
        }
        Statement::Load {
            to,
            at,
            offset,
            width,
        } => Ok(load(*to, *at, *offset, *width, state)),
        Statement::Store {
            from,
            at,
            offset,
            width,
        } => Ok(store(*from, *at, *offset, *width, state)),
        Statement::Leave { name } => Ok(Flow::Left(*name)),
        Statement::NewHandle { kind, rep, to } => make(alloc, *kind, *rep, *to, state),
        Statement::DropHandle { kind, index } => give_up(*kind, *index, state),
        Statement::Trap => Ok(Flow::Over(CodeEnd::Trap)),
        Statement::Answer => Ok(Flow::Over(CodeEnd::Answer)),
        Statement::If { .. } | Statement::Repeat { .. } => unreachable!(),
    }
}

// The place in a local plus an offset, which does not wrap.
fn place_of(state: &RowState, at: u32, offset: u32) -> u64
    requires there { at < length state.now.locals.items }
    requires narrow { width_at (seen state.now) at ≡ Narrow }
    ensures value { result ≡ number_at (seen state.now) at + offset }
    ensures fits { result < 2 ^ 33 }
{
    small(state, at) as u64 + offset as u64
}

fn load(to: u32, at: u32, offset: u32, width: u8, state: &mut RowState) -> Flow
    requires { (names : List ℕ) × IsFine (map local_width state.old.locals.items) names (LoadOf to at offset width) }
    ensures shows { (k : ℕ) → Shows (runs (Then (LoadOf to at offset width) Stop) k (seen state.old)) result (seen state.new) }
    ensures wide { map local_width state.new.locals.items ≡ map local_width state.old.locals.items }
{
    let place = place_of(state, at, offset);
    match memory::load(&state.memory, place, width) {
        Some(number) => {
            set(state, to, number);
            Flow::Next
        }
        None => Flow::Over(CodeEnd::Trap),
    }
}

fn store(from: u32, at: u32, offset: u32, width: u8, state: &mut RowState) -> Flow
    requires { (names : List ℕ) × IsFine (map local_width state.old.locals.items) names (StoreOf from at offset width) }
    ensures shows { (k : ℕ) → Shows (runs (Then (StoreOf from at offset width) Stop) k (seen state.old)) result (seen state.new) }
    ensures wide { map local_width state.new.locals.items ≡ map local_width state.old.locals.items }
{
    let place = place_of(state, at, offset);
    let number = number(state, from);
    if memory::store(&mut state.memory, place, width, number) {
        Flow::Next
    } else {
        Flow::Over(CodeEnd::Trap)
    }
}

// Adds a handle of the adapter's own resource of a kind.
fn make(alloc: Global, kind: u8, rep: u32, to: u32, state: &mut RowState) -> Result<Flow, NoMemory>
    requires { (names : List ℕ) × IsFine (map local_width state.old.locals.items) names (NewHandleOf kind rep to) }
    ensures shows { IfOk result (λ flow. (k : ℕ) → Shows (runs (Then (NewHandleOf kind rep to) Stop) k (seen state.old)) flow (seen state.new)) }
    ensures wide { OnOk result (map local_width state.new.locals.items ≡ map local_width state.old.locals.items) }
{
    let rep = small(state, rep);
    match state.table.add_own(alloc, 14 + kind as u32, rep) {
        Ok(index) => {
            state.effects.push(Effect::Made { kind, rep, index })?;
            set(state, to, index as u64);
            Ok(Flow::Next)
        }
        Err(AddFault::Full) => Ok(Flow::Over(CodeEnd::Trap)),
        Err(AddFault::NoMemory) => Err(NoMemory),
    }
}

// Takes out a handle of the host's resource of a kind.
fn give_up(kind: u8, index: u32, state: &mut RowState) -> Result<Flow, NoMemory>
    requires { (names : List ℕ) × IsFine (map local_width state.old.locals.items) names (DropHandleOf kind index) }
    ensures shows { IfOk result (λ flow. (k : ℕ) → Shows (runs (Then (DropHandleOf kind index) Stop) k (seen state.old)) flow (seen state.new)) }
    ensures wide { OnOk result (map local_width state.new.locals.items ≡ map local_width state.old.locals.items) }
{
    let index = small(state, index);
    match state.table.take_own(index, kind as u32) {
        Ok(rep) => {
            state.effects.push(Effect::Dropped { kind, rep, index })?;
            Ok(Flow::Next)
        }
        Err(_) => Ok(Flow::Over(CodeEnd::Trap)),
    }
}
