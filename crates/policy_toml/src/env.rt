//! The table `env` of a policy: which variables of the host are passed, which are set, the arguments and the working directory.

ghost use Rattle.std.specs.Prelude.{[]};
ghost use Rattle.toml.specs.View.{table_view, view};
ghost use Rattle.policy_toml.specs.Reading.{Gives, each_member};
ghost use Rattle.policy_toml.specs.Environment.{env_keys, env_of, variable_of, variables_in, arguments_in, cwd_in};

use crate::keys::{bad_value, over_limit, path_of};
use crate::lists::{Each, List, member_count};
use crate::reader::{Reader, TableReader, optional};
use crate::values::{Boolean, PlainText, VariableName, is_variable, plain_text};
use policy_data::{Arguments, ReadPolicyFault, Texts, Variable, Variables, WorkingDirectory};
use std::alloc::Global;
use toml::{Table, Value};
use virt_base::{Items, Text};

/// What `env` says.
#[derive(Debug, Drop)]
pub struct Env {
    pub pass: bool,
    pub allow: Texts,
    pub set: Variables,
    pub arguments: Arguments,
    pub cwd: WorkingDirectory,
}

#[derive(Drop)]
pub struct EnvReader;

impl TableReader for EnvReader {
    type Item = Env;

    ghost known = { λ _. env_keys };

    ghost fields = { λ _. env_of };

    fn known(&self) -> &'static [&'static str] {
        &["pass", "allow", "set", "arguments", "cwd"]
    }

    fn fields(&self, alloc: Global, path: &str, table: &Table) -> Result<Env, ReadPolicyFault> {
        let pass = optional(alloc, path, "pass", false, &Boolean, table)?;
        let names = List {
            greatest: 1024,
            item: Each(VariableName),
        };
        let allow = optional(alloc, path, "allow", Items::empty(alloc), &names, table)?;
        let set = optional(
            alloc,
            path,
            "set",
            Items::empty(alloc),
            &VariablesReader,
            table,
        )?;
        let arguments = optional(
            alloc,
            path,
            "arguments",
            Arguments::Deny,
            &ArgumentsReader,
            table,
        )?;
        let cwd = optional(
            alloc,
            path,
            "cwd",
            WorkingDirectory::Deny,
            &CwdReader,
            table,
        )?;
        Ok(Env {
            pass,
            allow,
            set,
            arguments,
            cwd,
        })
    }
}

#[derive(Drop)]
struct VariablesReader;

impl Reader for VariablesReader {
    type Item = Variables;

    ghost reads = { λ _. variables_in };

    fn read(&self, alloc: Global, path: &str, value: &Value) -> Result<Variables, ReadPolicyFault> {
        let table = match value.as_table() {
            Some(table) => table,
            None => return bad_value(alloc, path),
        };
        let count = member_count(table);
        if count > 1024 {
            return over_limit(alloc, path, count as u64);
        }
        each_variable(alloc, path, table)
    }
}

fn each_variable(alloc: Global, path: &str, table: &Table) -> Result<Variables, ReadPolicyFault>
    ensures { Gives (each_member (variable_of path.now) [] (table_view table.now)) result }
{
    let mut variables = Items::empty(alloc);
    for (name, value) in table {
        let variable = variable_of(alloc, path, name.as_str(), value)?;
        variables.push(variable)?;
    }
    Ok(variables)
}

fn variable_of(
    alloc: Global,
    path: &str,
    name: &str,
    value: &Value,
) -> Result<Variable, ReadPolicyFault>
    ensures { Gives (variable_of path.now [] name.now (view value.now)) result }
{
    let path = path_of(alloc, path, name)?;
    if !is_variable(name) {
        return bad_value(alloc, path.as_str());
    }
    let value = plain_text(alloc, path.as_str(), value)?;
    let name = Text::from_str(alloc, name)?;
    Ok(Variable { name, value })
}

#[derive(Drop)]
struct ArgumentsReader;

impl Reader for ArgumentsReader {
    type Item = Arguments;

    ghost reads = { λ _. arguments_in };

    fn read(&self, alloc: Global, path: &str, value: &Value) -> Result<Arguments, ReadPolicyFault> {
        match value.as_bool() {
            Some(true) => Ok(Arguments::Allow),
            Some(false) => Ok(Arguments::Deny),
            None => {
                let texts = List {
                    greatest: 1024,
                    item: Each(PlainText),
                };
                let given = texts.read(alloc, path, value)?;
                Ok(Arguments::Given(given))
            }
        }
    }
}

#[derive(Drop)]
struct CwdReader;

impl Reader for CwdReader {
    type Item = WorkingDirectory;

    ghost reads = { λ _. cwd_in };

    fn read(
        &self,
        alloc: Global,
        path: &str,
        value: &Value,
    ) -> Result<WorkingDirectory, ReadPolicyFault> {
        match value.as_bool() {
            Some(true) => Ok(WorkingDirectory::Allow),
            Some(false) => Ok(WorkingDirectory::Deny),
            None => {
                let given = plain_text(alloc, path, value)?;
                Ok(WorkingDirectory::Given(given))
            }
        }
    }
}
