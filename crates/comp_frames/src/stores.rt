//! Laws of a plan of storing while it goes on: it does what the definition does, and its room stays. No code but laws.

ghost use Rattle.comp_frames.specs.StoresLaws.{GoesOn, KeepsRoom, HasRoom};

/// Where a plan goes on, what is left of it is done as the definition does it: to the next request for room, to the end with the flat
/// values, or to a trap.
pub fn plans_go_on_as_stores()
    ensures { GoesOn }
{}

/// The room that was asked for holds what is written, from the beginning of a plan on, and while the memory does not shrink.
pub fn plans_keep_their_room()
    ensures begins { HasRoom }
    ensures keeps { KeepsRoom }
{}
