//! `wasi:cli/environment` (WASI 0.2), where the host is not asked.

#![tactic(auto, using(wit_types::proofs::ValueLemmas::values))]

ghost use Rattle.std.specs.Prelude.{◌≡◌, IfOk, map};
ghost use Rattle.wit_types.specs.PlainValue.{plain_value, PlainValues, StringValue};
ghost use Rattle.reference_step.specs.Environment.{variable_value, folder_in, arguments_in};
ghost use Rattle.reference_step.specs.Values.{list};
ghost use Rattle.reference_step.specs.State.{View};
ghost use Rattle.reference_step.specs.Rows.{environment_rows};
ghost use Rattle.tree_table.specs.Tables.{Forest};
ghost use Rattle.ref_answers.specs.Shown.{shown};
ghost use Rattle.ref_answers.specs.Found.{found};

use crate::row::{Row, returns};
use crate::values::{list, none, pair, some, text};
use policy_data::{Arguments, Policy, Variable, WorkingDirectory};
use std::alloc::Global;
use virt_base::{NoMemory, Text};
use wit_types::Value;

fn variable_value(alloc: Global, variable: &Variable) -> Result<Value, NoMemory>
    ensures { IfOk result (λ v. plain_value v ≡ variable_value variable.now) }
{
    let name = text(alloc, &variable.name)?;
    let value = text(alloc, &variable.value)?;
    pair(alloc, name, value)
}

pub fn variable_values(alloc: Global, variables: &[Variable]) -> Result<Vec<Value>, NoMemory>
    ensures { IfOk result (λ vs. map plain_value vs.items ≡ map variable_value variables.now) }
{
    let mut values = Vec::new(alloc);
    for variable in variables {
        values.push(variable_value(alloc, variable)?)?;
    }
    Ok(values)
}

fn text_values(alloc: Global, texts: &[Text]) -> Result<Vec<Value>, NoMemory>
    ensures { IfOk result (λ vs. map plain_value vs.items ≡ map StringValue texts.now) }
{
    let mut values = Vec::new(alloc);
    for item in texts {
        values.push(text(alloc, item)?)?;
    }
    Ok(values)
}

fn arguments(alloc: Global, arguments: &Arguments) -> Result<Value, NoMemory>
    ensures { IfOk result (λ v. plain_value v ≡ list (map StringValue (arguments_in arguments.now))) }
{
    match arguments {
        Arguments::Given(texts) => Ok(list(text_values(alloc, texts.as_slice())?)),
        Arguments::Allow => Ok(list(Vec::new(alloc))),
        Arguments::Deny => Ok(list(Vec::new(alloc))),
    }
}

fn folder(alloc: Global, folder: &WorkingDirectory) -> Result<Value, NoMemory>
    ensures { IfOk result (λ v. plain_value v ≡ folder_in folder.now) }
{
    match folder {
        WorkingDirectory::Given(path) => some(alloc, text(alloc, path)?),
        WorkingDirectory::Allow => Ok(none()),
        WorkingDirectory::Deny => Ok(none()),
    }
}

/// The row of a function of wasi:cli/environment.
pub fn environment_row(alloc: Global, policy: &Policy, function: &str) -> Result<Row, NoMemory>
    ensures { IfOk result (λ row. (f : Forest) (v : View) (args : PlainValues) → shown f row ≡ found environment_rows function.now (record v { policy = policy.now }) args) }
{
    if "get-environment" == function {
        Ok(returns(list(variable_values(alloc, policy.env_set.as_slice())?)))
    } else if "get-arguments" == function {
        Ok(returns(arguments(alloc, &policy.env_arguments)?))
    } else if "initial-cwd" == function {
        Ok(returns(folder(alloc, &policy.env_cwd)?))
    } else {
        Ok(Row::Traps)
    }
}
