//! A script, its items, and the functions that it may call.

use crate::kept::Answers;
use serde_json::Value as Json;
use virt_base::{Items, Text};
use wit_types::{FuncType, Values};

/// How one call of a host's function is answered.
#[derive(Debug, Drop)]
pub enum ScriptItem {
    /// It traps.
    Traps,
    /// It returns, and has no result.
    NoValue,
    /// It returns the value for which this stands by the function's result type.
    Value(Json),
}

/// A call of a function that can be called, with arguments of its parameters' types.
#[derive(Debug, Drop)]
pub struct Call {
    pub name: Text,
    pub args: Values,
}

/// The calls of a script, in order.
pub type Calls = Items<Call>;

#[derive(Debug, Drop)]
pub struct Script {
    pub answers: Answers,
    pub calls: Calls,
}

/// A script as it was read whole.
#[derive(Debug, Drop)]
pub struct WholeScript {
    pub answers: Items<ScriptItem>,
    pub calls: Calls,
}

/// A function that can be called: an exported function by its name, or a function of an exported instance by the instance's
/// name, `#` and its own.
#[derive(Debug, Drop)]
pub struct ExportType {
    pub name: Text,
    pub ty: FuncType,
}
