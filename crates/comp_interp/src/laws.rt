//! The law that the linked form of a valid component can be made.

ghost use Rattle.comp_interp.specs.Sound.{LinkedCanBeMade};

/// What linking answers for a valid component that bytes spell can be made.
pub fn spelled_components_can_be_made()
    ensures { LinkedCanBeMade }
{}
