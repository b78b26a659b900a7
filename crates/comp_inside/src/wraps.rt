//! Laws of what stands after or around something else: a plan after other instances, a group that surrounds another one, and a component
//! that only hands on the exports of the one in it.

ghost use Rattle.comp_inside.specs.Inside.{LinkedInside};
ghost use Rattle.comp_inside.specs.Laws.{SurroundingDoSame, WrappedDoSame};

use host_port::Host;

/// What a plan makes after other instances is what it makes alone, at other numbers of instances; its imports are what it is given.
pub fn plans_link_inside_as_alone()
    ensures { LinkedInside }
{}

/// A group that surrounds another one is observed to do what that one does with one step less, over any host, for every list of
/// calls, whatever the limit on calls in progress.
pub fn surrounding_groups_do_the_same<H: Host>()
    ensures { SurroundingDoSame H.step }
{}

/// A component without imports is seen to do the same where it stands unchanged in a component that only hands its exports on: over
/// any host, for every list of calls, in one step more.
pub fn wrapped_components_do_the_same<H: Host>()
    ensures { WrappedDoSame H.step }
{}
