//! Calls of functions of a store, whose questions to the embedder are answered in order.

ghost use Rattle.std.specs.Prelude.{IsTrue, IfOk, slice_get};
ghost use Rattle.core_store.specs.Scene.{scene_of};
ghost use Rattle.core_store.specs.Fine.{IsFine};
ghost use Rattle.core_interp.specs.Session.{IsCallable};
ghost use Rattle.routine_rows.specs.Going.{Goes};

use crate::comparing::in_words;
use core_interp::{CoreValues, Machine, Pause};
use core_store::{CoreValue, Store, StoreFunc, function, functions};
use std::alloc::Global;
use std::test::Fail;

/// The steps that a call may take between questions.
const BUDGET: u64 = 1_000_000;

/// How a call ended: with an answer, or by a trap or a question that got no answer; with which values; what it asked of the
/// embedder, by number and with these arguments; and the steps that it took.
#[derive(Drop)]
pub struct Ran {
    pub end: &'static str,
    pub values: Vec<CoreValue>,
    pub questions: Vec<(u32, Vec<CoreValue>)>,
    pub steps: u64,
}

/// A call that has not begun.
pub fn unanswered(alloc: Global, end: &'static str) -> Ran {
    Ran {
        end,
        values: Vec::new(alloc),
        questions: Vec::new(alloc),
        steps: 0,
    }
}

/// What came of a call in words.
pub fn ran_in_words(alloc: Global, ran: &Ran) -> Result<String, Fail> {
    let asked = format!(in alloc; "{:?}", ran.questions)?;
    in_words(alloc, ran.end, ran.values.as_slice(), asked.as_str())
}

/// Whether there is a function of that many parameters at a place of the store.
fn is_callable(store: &Store, at: u32, count: usize) -> bool
    ensures { IsTrue result → IsCallable (slice_get store.now.functions at) count }
{
    if at >= functions(store) {
        return false;
    }
    match function(store, at) {
        StoreFunc::Inside { ty, .. } => ty.get().params.len() == count,
        StoreFunc::Outside { ty, .. } => ty.get().params.len() == count,
    }
}

/// Runs a machine to its end.
fn go_on(
    alloc: Global,
    store: &mut Store,
    machine: &mut Machine,
    answers: &[CoreValues],
    ran: &mut Ran,
) -> Result<(), Fail>
    requires goes { Goes machine.old store.old }
    requires fine { IsFine (scene_of store.old) }
    ensures fine { IfOk result (λ _. IsFine (scene_of store.new)) }
{
    let mut left = BUDGET;
    let pause = machine.run(alloc, store, &mut left)?;
    ran.steps = ran.steps.saturating_add(BUDGET.saturating_sub(left));
    match pause {
        Pause::Done(values) => {
            ran.end = "answer";
            ran.values = values.into_vec();
            Ok(())
        }
        Pause::Trapped => Ok(()),
        Pause::AtHost(number, args) => {
            ran.questions.push((number, args.into_vec()))?;
            match answers {
                [answer, rest @ ..] => {
                    if answer.len() != machine.awaits() {
                        return Err(Fail::from("another number of results is due"));
                    }
                    machine.resume(answer);
                    go_on(alloc, store, machine, rest, ran)
                }
                // the embedder refuses
                [] => Ok(()),
            }
        }
        _ => Err(Fail::from("the call does not end")),
    }
}

/// Calls the function at a place, whose questions get these answers, one after another; one more is refused.
pub fn call(
    alloc: Global,
    store: &mut Store,
    at: u32,
    args: &CoreValues,
    answers: &[CoreValues],
) -> Result<Ran, Fail>
    requires { IsFine (scene_of store.old) }
    ensures { IfOk result (λ _. IsFine (scene_of store.new)) }
{
    if !is_callable(store, at, args.len()) {
        return Err(Fail::from("no function of these arguments"));
    }
    let mut machine = Machine::start(alloc, at, args)?;
    let mut ran = unanswered(alloc, "trap");
    go_on(alloc, store, &mut machine, answers, &mut ran)?;
    Ok(ran)
}
