//! How far a plan of storing has come: only flat values are left, a place is to be tested, a request waits for its answer, or it broke
//! off.

ghost use Rattle.std.specs.Prelude.{◌≤◌};

use crate::request::Request;

/// A place of the caller's, and the room that must be there.
#[derive(Clone, Copy)]
pub struct Spot {
    pub place: u32,
    pub align: u32,
    pub len: u32,
    pub ghost least: { 1 ≤ align },
}

#[derive(Drop)]
pub enum Stage {
    /// Only flat values are left.
    Flat,
    /// The place of the caller's is tested next.
    Given(Spot),
    /// A request is to be answered.
    Asked(Request),
    /// The plan trapped, or memory ran out.
    Broken,
}
