//! The evaluator: lists of statements, and the statements that hold others. `plain` runs the rest.

ghost use Rattle.std.specs.Prelude.{◌≡◌, [], IfOk, OnOk, map, ℕ};
ghost use Rattle.adapter_code.specs.Code.{Stop, before, code_of};
ghost use Rattle.adapter_code.specs.Run.{local_width, turns, runs, routine_run};
ghost use Rattle.adapter_code.specs.WellFormed.{IsWellFormed};
ghost use Rattle.adapter_code.specs.Shown.{seen, Shows, EndsAs};
ghost use Rattle.adapter_code.specs.Plain.{AreUsable, IsUsable};

use crate::flow::Flow;
use crate::plain::{number, run_plain};
use crate::state::{CodeEnd, RowState};
use crate::statement::Statement;
use std::alloc::Global;
use virt_base::NoMemory;

/// Runs a routine that is well formed over the state's locals, and says how it ends. It always returns.
///
/// `Trap` comes exactly where a `Trap` statement, a place outside the memory, a `DropHandle` of an index at which no such
/// handle is, or a `NewHandle` on a full table is reached. After `NoMemory` nothing is said of the state.
pub fn eval(alloc: Global, routine: &[Statement], state: &mut RowState) -> Result<CodeEnd, NoMemory>
    requires { IsWellFormed (map local_width state.old.locals.items) [] (code_of routine.now) }
    ensures { IfOk result (λ end. EndsAs (routine_run (code_of routine.now) (seen state.old)) end (seen state.new)) }
{
    match run_list(alloc, routine, state)? {
        Flow::Next => Ok(CodeEnd::Answer),
        Flow::Left(_) => Ok(CodeEnd::Trap),
        Flow::Over(end) => Ok(end),
    }
}

#[cycle(eval)]
fn run_list(alloc: Global, list: &[Statement], state: &mut RowState) -> Result<Flow, NoMemory>
    requires { AreUsable (map local_width state.old.locals.items) list.now }
    ensures shows { IfOk result (λ flow. (k : ℕ) → Shows (runs (code_of list.now) k (seen state.old)) flow (seen state.new)) }
    ensures wide { OnOk result (map local_width state.new.locals.items ≡ map local_width state.old.locals.items) }
{
    for statement in list {
        match run_one(alloc, statement, state)? {
            Flow::Next => {}
            other => return Ok(other),
        }
    }
    Ok(Flow::Next)
}

#[cycle(eval)]
fn run_one(alloc: Global, statement: &Statement, state: &mut RowState) -> Result<Flow, NoMemory>
    requires { IsUsable (map local_width state.old.locals.items) statement.now }
    ensures shows { IfOk result (λ flow. (k : ℕ) → Shows (runs (before statement.now Stop) k (seen state.old)) flow (seen state.new)) }
    ensures wide { OnOk result (map local_width state.new.locals.items ≡ map local_width state.old.locals.items) }
{
    match statement {
        Statement::If { test, yes, no } => {
            if number(state, *test) != 0 {
                run_list(alloc, yes, state)
            } else {
                run_list(alloc, no, state)
            }
        }
        Statement::Repeat { name, count, body } => {
            let turns = number(state, *count);
            repeat(alloc, *name, turns, body, state)
        }
        plain => run_plain(alloc, plain, state),
    }
}

#[cycle(eval)]
fn repeat(
    alloc: Global,
    name: u32,
    count: u64,
    body: &[Statement],
    state: &mut RowState,
) -> Result<Flow, NoMemory>
    requires { AreUsable (map local_width state.old.locals.items) body.now }
    ensures shows { IfOk result (λ flow. (k : ℕ) → Shows (turns name (runs (code_of body.now)) count k (seen state.old)) flow (seen state.new)) }
    ensures wide { OnOk result (map local_width state.new.locals.items ≡ map local_width state.old.locals.items) }
{
    let mut left = count;
    while left > 0 {
        left -= 1;
        match run_list(alloc, body, state)? {
            Flow::Next => {}
            Flow::Left(other) => {
                if other == name {
                    return Ok(Flow::Next);
                }
                return Ok(Flow::Left(other));
            }
            Flow::Over(end) => return Ok(Flow::Over(end)),
        }
    }
    Ok(Flow::Next)
}
