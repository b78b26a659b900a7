//! What comes back from a host: its answer to a call, and what is observed of a component that runs over it.

use crate::call::{HostCall, Resource};
use virt_base::Items;
use wit_types::Value;

/// What a host answers to a call.
#[derive(Debug, Drop)]
pub enum Answer {
    /// The call returns: a value where it has a result type, and none where it has none.
    Value(Option<Value>),
    /// The call traps.
    Trap,
    /// The host has no more answers.
    Ended,
    /// The host's answer is none of the call's result type.
    Bad,
}

/// What is seen of a component that runs.
#[derive(Debug, Drop)]
pub enum Observation {
    /// The host was called.
    Called(HostCall),
    /// A handle of the host, by its number, was dropped.
    Dropped(Resource, u32),
    /// A call from outside returned.
    Returned(Option<Value>),
    /// The component trapped.
    Trapped,
    /// The host had no more answers.
    ScriptEnded,
    /// The host's answer was none of the call's result type.
    BadAnswer,
    /// No step was left.
    Spent,
    /// Too many calls would have been in progress at once.
    TooDeep,
}

/// Observations in order.
pub type Observations = Items<Observation>;
