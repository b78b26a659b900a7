//! Laws of core code that runs in a group: it goes from question to question, with no bound on how deep they nest, as its machine pauses.
//! No code but laws.

ghost use Rattle.std.specs.Prelude.{List};
ghost use Rattle.comp_worlds.specs.Groups.{Group};
ghost use Rattle.comp_worlds.specs.Hosts.{hosted};
ghost use Rattle.comp_worlds.specs.Observed.{stack};
ghost use Rattle.comp_frames.specs.RunsLaws.{NeedsNoFuel, MeetsWithoutFuel, Unfolds, GoesByItsRest, RunsServe};
ghost use Rattle.comp_frames.specs.Pausing.{PausesLead, MachinesRest};

use host_port::Host;

/// What a group over others over a host does in fewer steps than fuel allows questions to nest, it does with no bound: each act, and
/// how it meets the imports of what is above it. What is observed of a group over a host needs none.
pub fn core_code_needs_no_fuel<H: Host>()
    ensures acts { (G : Group) (below : List Group) → NeedsNoFuel G (stack below (hosted H.step)) }
    ensures ports { (G : Group) (below : List Group) → MeetsWithoutFuel G (stack below (hosted H.step)) }
    ensures alone { RunsServe H.step }
{}

/// Core code runs to its end or its next question, has that answered by a canonical call, and goes on.
pub fn core_code_goes_from_question_to_question<H: Host>()
    ensures unfolds { (G : Group) (below : List Group) → Unfolds G (stack below (hosted H.step)) }
    ensures rests { (G : Group) (below : List Group) → GoesByItsRest G (stack below (hosted H.step)) }
{}

/// A machine that runs core code of a group leads it from pause to pause, and leaves no more steps than it gets.
pub fn pauses_lead_core_code<H: Host>()
    ensures leads { (G : Group) (below : List Group) → PausesLead G (stack below (hosted H.step)) }
    ensures rests { MachinesRest }
{}
