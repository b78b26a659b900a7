//! Laws of what canonical calls of core code lead to, one step at a time. No code but laws.

ghost use Rattle.comp_worlds.specs.Groups.{Group, Nesting};
ghost use Rattle.comp_frames.specs.Laws.{CallsGoBack, CallsFromOutside, StoringGoesOn, LowersByPlans, LeavesCalls};

use host_port::Host;

/// What canonical calls of core code lead to, a step at a time: where their results go back, from outside, where values are stored, and
/// where an answered call is left.
pub fn calls_go_step_by_step<H: Host>()
    ensures inside { (G : Group) (d : Nesting) → CallsGoBack G H.step d }
    ensures outside { (G : Group) (d : Nesting) → CallsFromOutside G H.step d }
    ensures storing { (G : Group) (d : Nesting) → StoringGoesOn G H.step d }
    ensures lowering { (G : Group) (d : Nesting) → LowersByPlans G H.step d }
    ensures leaving { (G : Group) (d : Nesting) → LeavesCalls G H.step d }
{}
