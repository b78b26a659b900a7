//! Laws of what a plan has made so far: what comes later is added at its end, and changes neither the numbers nor the owners of resources.

ghost use Rattle.comp_joins.specs.Growing.{ItemsGrow, PlansGrow};
ghost use Rattle.comp_joins.specs.Settled.{PassAlike};
ghost use Rattle.comp_joins.specs.SettledLaws.{NumbersStayBelow, WhatStandsIsSettled};

/// A plan adds stages, canonical functions and resources at the end of those that are there; resources get numbers one after the
/// other.
pub fn plans_add_at_the_end()
    ensures items { ItemsGrow }
    ensures plans { PlansGrow }
{}

/// Where each resource that a plan names was brought or defined before, the numbers in what is made stay below the next one.
pub fn numbers_stay_below_the_next()
    ensures { NumbersStayBelow }
{}

/// The canonical functions that are there are those of the whole group, and the resources that they name have the same owners there.
pub fn what_stands_is_settled()
    ensures { WhatStandsIsSettled }
{}

/// Borrowed handles are lowered alike where the resources that the type names are owned alike.
pub fn handles_pass_alike()
    ensures { PassAlike }
{}
