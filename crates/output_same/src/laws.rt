//! The law that an output does what its application does, where that imports nothing, and the laws that it stands on: of places in bytes,
//! and of hosts as strategies.

ghost use Rattle.output_same.specs.Strategies.{IsItsStrategy, SameOverHost};
ghost use Rattle.output_same.specs.Laws.{OutputsWrap, PlacesMakeNoDifference, OutputsDoTheSame};

use host_port::Host;

/// The output of a valid component that imports nothing holds it unchanged, and hands on all that it exports.
pub fn outputs_wrap_applications()
    ensures { OutputsWrap }
{}

/// Where the parts of a component stand in its bytes makes no difference to what it does.
pub fn places_make_no_difference_to_groups()
    ensures { PlacesMakeNoDifference }
{}

/// Over whatever host, the output of a valid component that imports nothing is seen to do what the component does, for every list of
/// calls of its exports, in one step more.
pub fn outputs_do_the_same()
    ensures { OutputsDoTheSame }
{}

/// A host from a state is seen to do what a host does whose state is what it was asked.
pub fn hosts_are_seen_by_their_strategies<H: Host>()
    ensures { IsItsStrategy H.step }
{}

/// What does the same over hosts whose state is what they were asked, does so over every host.
pub fn strategies_are_all_hosts<H: Host>()
    ensures { SameOverHost H.step }
{}
