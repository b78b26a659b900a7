//! Calls in progress: core code that runs, why it runs, and so what follows once it ends.

ghost use Rattle.std.specs.Prelude.{◌≡◌, true};
ghost use Rattle.abi_store.specs.Plan.{is_due};

use crate::depth::Depth;
use abi_store::StorePlan;
use core_slots::CoreValues;
use instance_state::{CallOptions, Lifting, Loan, Target};
use std::rc::Rc;
use wit_types::Value;

/// Core code of an instance in progress.
#[derive(Drop)]
pub struct Frame {
    pub instance: u32,
    pub purpose: Purpose,
}

/// Why core code runs, and so what follows.
#[derive(Drop)]
pub enum Purpose {
    /// It is the start function of a module.
    Starts,
    /// It is the core function of a lifted function.
    Serves(Service),
    /// It is `realloc`, for values that are stored.
    Grants(Storing),
    /// It is a post-return.
    Returns(Back),
    /// It is a destructor.
    Destroys(Visit),
}

/// Who called a function.
#[derive(Drop)]
pub enum Caller {
    Outside,
    /// The code below, by a lowered function.
    Inside(Call),
}

/// A call of a lowered function by core code, which awaits its results.
#[derive(Drop)]
pub struct Call {
    pub target: Target,
    pub options: CallOptions,
    /// Where the result goes, if it goes through memory.
    pub place: u32,
    /// The handles that are lent for the call.
    pub loans: Vec<Loan>,
}

/// A call of a lifted function.
#[derive(Drop)]
pub struct Service {
    pub instance: u32,
    pub lifting: Rc<Lifting>,
    pub caller: Caller,
    /// How many calls are in progress in it.
    pub depth: Depth,
}

/// Values that are stored in an instance, which is closed meanwhile.
#[derive(Drop)]
pub struct Storing {
    pub instance: u32,
    pub plan: StorePlan,
    pub options: CallOptions,
    pub depth: Depth,
    /// The next step of it may come to memory.
    pub writes: bool,
    pub then: Stored,
    pub ghost due: { is_due plan.due ≡ true → writes ≡ true },
}

/// What follows when all is stored.
#[derive(Drop)]
pub enum Stored {
    /// They are the parameters of a lifted function, which runs now.
    Params(Service),
    /// They are the result of a call, which is left now.
    Result(Due),
}

/// A call that was answered and is not yet left.
#[derive(Drop)]
pub enum Due {
    /// The host answered.
    Host,
    /// A lifted function answered.
    Served(Served),
}

/// A lifted function that answered, with the results of its core function.
#[derive(Drop)]
pub struct Served {
    pub instance: u32,
    pub lifting: Rc<Lifting>,
    pub results: CoreValues,
    pub depth: Depth,
}

/// Where an answer goes once the call is left.
#[derive(Drop)]
pub enum Back {
    /// To the outside, as a tuple of the result.
    Outside(Value),
    /// To the code below, as core values.
    Inside(CoreValues),
}

/// Whose destructor runs.
#[derive(Debug, Clone, Copy, PartialEq, Eq)]
pub enum Visit {
    /// The instance's that dropped the handle.
    Own,
    /// Another instance's, which is entered for it.
    Other,
}

/// Whether there is core code to go on with.
#[derive(Drop)]
pub enum Flow {
    Goes,
    /// All that was begun from outside is done: a start function, or a call with the tuple of its result.
    Done(Option<Value>),
}
