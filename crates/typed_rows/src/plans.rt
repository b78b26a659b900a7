//! Plans of storing that are run to their end.

ghost use Rattle.std.specs.Prelude.{◌<◌, length, IfOk};

use abi_layout::{flatten, is_small};
use abi_store::{StorePlan, Target};
use core_store::Store;
use std::alloc::Global;
use std::test::Fail;
use wit_types::{Value, WitType, has_type};

/// Goes on with a plan, and adds how far it has come.
fn go_on(
    alloc: Global,
    plan: &mut StorePlan,
    store: &mut Store,
    answer: Option<u32>,
    text: &mut String,
) -> Result<(), Fail>
    requires { 0 < length store.old.memories }
    ensures { IfOk result (λ _. 0 < length store.new.memories) }
{
    let step = plan.next(alloc, store, 0, answer)?;
    text.push_str(format!(in alloc; "{step:?}; ")?.as_str())?;
    Ok(())
}

/// Runs a plan, where these are the answers to its requests.
fn run(
    alloc: Global,
    plan: &mut StorePlan,
    store: &mut Store,
    answers: &str,
    text: &mut String,
) -> Result<(), Fail>
    requires { 0 < length store.old.memories }
    ensures { IfOk result (λ _. 0 < length store.new.memories) }
{
    go_on(alloc, plan, store, None, text)?;
    for answer in answers.split_whitespace() {
        go_on(alloc, plan, store, Some(answer.parse::<u32>()?), text)?;
    }
    Ok(())
}

/// Stores a value, and adds the steps of its plan.
pub fn store_value(
    alloc: Global,
    store: &mut Store,
    ty: &WitType,
    value: Value,
    target: Target,
    answers: &str,
    text: &mut String,
) -> Result<(), Fail>
    requires { 0 < length store.old.memories }
    ensures { IfOk result (λ _. 0 < length store.new.memories) }
{
    if !is_small(ty) || !has_type(&value, ty) || flatten(ty).count > 16 {
        return Err(Fail::from("not a value for this test"));
    }
    let mut plan = StorePlan::begin(alloc, value, ty, target)?;
    run(alloc, &mut plan, store, answers, text)
}
