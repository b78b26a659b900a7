//! The law of stores while a component is made: they have as many items as the plan counts, so the places that it gives are those of the
//! stores.

ghost use Rattle.comp_joins.specs.Made.{StoresAreAsPlanned};

use host_port::Host;

/// As a component is made, the store of each of its instances has as many items as its plan counts, whatever runs meanwhile; so the
/// places that the plan gives are those of the store.
pub fn stores_are_as_planned<H: Host>()
    ensures { StoresAreAsPlanned H.step }
{}
