//! The limits on what is read, which depend on the command that asks for it, and the refusal of what is above one.

#![tactic(auto, using(crate::proofs::Judging::over))]

ghost use Rattle.std.specs.Prelude.{codes};
ghost use Rattle.component_judge.specs.Limits.{IsOver, IsWithin};

use crate::refusal::Refusal;
use std::alloc::Global;
use virt_base::Text;

/// What a component is read for: the command that asks for it.
#[derive(Debug, Clone, Copy, PartialEq, Eq)]
pub enum Purpose {
    Virt,
    Run,
}

/// An application that is to be wrapped has at most that many bytes. Those of its code are not limited by themselves.
pub const APPLICATION_BYTES: u64 = 33_554_432;

/// A component that is to be run has at most that many bytes.
pub const COMPONENT_BYTES: u64 = 201_326_592;

/// Its code sections have at most that many together.
pub const CODE_BYTES: u64 = 67_108_864;

/// A script has at most that many bytes.
pub const SCRIPT_BYTES: u64 = 67_108_864;

fn over_limit(alloc: Global, what: &str, value: u64) -> Refusal
    ensures { IsOver what.now value result }
{
    match Text::from_str(alloc, what) {
        Ok(what) => Refusal::OverLimit(what, value),
        Err(_) => Refusal::NoMemory,
    }
}

/// Refuses a quantity that is above its limit.
pub fn within(alloc: Global, what: &str, limit: u64, value: u64) -> Result<(), Refusal>
    ensures { IsWithin what.now limit value result }
{
    if value > limit {
        Err(over_limit(alloc, what, value))
    } else {
        Ok(())
    }
}

/// Refuses a component that stands so deep in others.
pub fn too_nested(alloc: Global, depth: u64) -> Refusal
    ensures { IsOver (codes "nesting") depth result }
{
    over_limit(alloc, "nesting", depth)
}
