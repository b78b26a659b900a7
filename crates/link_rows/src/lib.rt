//! What is seen of small components, alone, in one another and wrapped, by examples that compute.
#![tactic(auto)]

mod worlds;
mod wraps;

ghost use Rattle.link_rows.specs.Rows.{ReaderExamples, NestedExamples, ResourceExamples, StartExamples, EnteredExamples, BorrowExamples, InsideExamples};
ghost use Rattle.link_rows.specs.Plugged.{PluggedExamples, PluggedPremises};
ghost use Rattle.link_rows.specs.Taking.{TakingExamples, TakingPremises};
ghost use Rattle.link_rows.specs.Sharing.{SharingExamples, SharingHands, SharingPremises};
ghost use Rattle.link_rows.specs.GivingMore.{GivingMoreExamples, GivingMorePremises};

pub use worlds::{
    Counters, Keepers, Readers, clocks_are_read, counters_are_seen_alike, destructors_run,
    handles_have_places, instances_are_entered, kept_borrows_trap, kinds_have_other_numbers,
    places_are_seen_alike, readers_are_joined, readers_do_what_both_do, resources_are_renumbered,
    room_is_asked,
};
pub use wraps::{
    components_are_called, exports_are_of_their_types, hosts_are_asked, outputs_are_called,
    silent_components_are_wrapped, wrapped_components_are_called, wrapping_premises_are_met,
};

/// A component reads a clock, with its steps counted. It does nothing when it runs.
#[tactic(auto, using(crate::proofs::Compute::reader_examples))]
pub fn components_run()
    ensures { ReaderExamples }
{}

/// Components in a component are made, also by an outer alias. It does nothing when it runs.
#[tactic(auto, using(crate::proofs::Compute::nested_examples))]
pub fn components_are_made()
    ensures { NestedExamples }
{}

/// A handle of another component's resource is made and dropped. It does nothing when it runs.
#[tactic(auto, using(crate::proofs::Compute::resource_examples))]
pub fn resources_are_linked()
    ensures { ResourceExamples }
{}

/// A start function calls a function that its own component lifts. It does nothing when it runs.
#[tactic(auto, using(crate::proofs::Compute::start_examples))]
pub fn start_functions_call_their_own()
    ensures { StartExamples }
{}

/// A component in a component calls back into the one around it, which is entered. It does nothing when it runs.
#[tactic(auto, using(crate::proofs::Compute::entered_examples))]
pub fn entered_components_trap()
    ensures { EnteredExamples }
{}

/// A component keeps what it borrows past its call, or not. It does nothing when it runs.
#[tactic(auto, using(crate::proofs::Compute::borrow_examples))]
pub fn borrows_end()
    ensures { BorrowExamples }
{}

/// The premises of the law of components in components can be met: a component with a resource meets them. It does nothing when it runs.
#[tactic(auto, using(crate::proofs::Compute::inside_examples))]
pub fn premises_are_met()
    ensures { InsideExamples }
{}

/// A clock reader that is plugged to a component with a clock of its own reads that one, as it does over it. It does nothing when it
/// runs.
#[tactic(auto, using(crate::proofs::Plugged::plugged_examples))]
pub fn plugged_components_run()
    ensures { PluggedExamples }
{}

/// The premises of the law of joined components can be met: these two meet them. It does nothing when it runs.
#[tactic(auto, using(crate::proofs::Plugged::premises_hold))]
pub fn joining_premises_are_met()
    ensures { PluggedPremises }
{}

/// A component takes a handle from the one to which it is plugged, and drops it. It does nothing when it runs.
#[tactic(auto, using(crate::proofs::Taking::taking_examples))]
pub fn handles_are_taken()
    ensures { TakingExamples }
{}

/// The premises of the law of joined components can be met where a resource has another number in the whole. It does nothing when it
/// runs.
#[tactic(auto, using(crate::proofs::Taking::premises_hold))]
pub fn taking_premises_are_met()
    ensures { TakingPremises }
{}

/// A component takes one import from the one to which it is plugged, and one from the host, as the whole does. It does nothing when it
/// runs.
#[tactic(auto, using(crate::proofs::Sharing::sharing_examples))]
pub fn imports_are_shared()
    ensures { SharingExamples }
{}

/// The premises of the law of joined components can be met where the second has an import that the whole meets. It does nothing when it
/// runs.
#[tactic(auto, using(crate::proofs::Sharing::premises_hold))]
pub fn sharing_premises_are_met()
    ensures { SharingPremises }
{}

/// A component is given an export as it is, with more in it than the component imports. It does nothing when it runs.
#[tactic(auto, using(crate::proofs::GivingMore::giving_more_examples))]
pub fn more_is_given()
    ensures { GivingMoreExamples }
{}

/// The premises of the law of joined components can be met where the second is given more than it imports. It does nothing when it runs.
#[tactic(auto, using(crate::proofs::GivingMore::more_premises_hold))]
pub fn more_given_premises_are_met()
    ensures { GivingMorePremises }
{}

/// What hands on the second's exports, and the numbers of both, are as the laws on these ask. It does nothing when it runs.
#[tactic(auto, using(crate::proofs::Sharing::handing_holds))]
pub fn handing_premises_are_met()
    ensures { SharingHands }
{}
