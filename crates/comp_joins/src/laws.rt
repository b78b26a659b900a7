//! The laws of joined components and of plugged ones, with laws that they stand on: what a plan looks up in what it is given, and in how
//! many steps groups are made.

ghost use Rattle.comp_joins.specs.Alike.{LinkedAlike, LinkedAmong};
ghost use Rattle.comp_joins.specs.Laws.{StepsMore, JoinedDoSame, PluggedDoSame};

use host_port::Host;

/// What a plan makes depends on what is found by its names in what it is given, and on no order.
pub fn plans_find_what_they_are_given()
    ensures { LinkedAlike }
{}

/// What a plan makes does not depend on what is given beside what it looks up: where it finds all of that, and is given more, also in
/// instances that it hands on, it makes the same, and finds more only in what it exports (Component Model, Explainer.md, "Instance and
/// Component Definitions": an argument may have more exports than are asked for).
pub fn plans_need_no_more_than_they_look_up()
    ensures { LinkedAmong }
{}

/// Two groups, one over the other, that are each made in a step more do what they do without, in two steps more.
pub fn steps_of_making_are_counted<H: Host>()
    ensures { StepsMore H.step }
{}

/// A component that joins two others is observed to do what the second does over the first and the host, where each import of the second
/// is an export of the first or an import of the whole: over any host, for every list of calls, whatever the limit on calls in progress;
/// each of the two is made in one step more.
pub fn joined_components_do_what_their_parts_do<H: Host>()
    ensures { JoinedDoSame H.step }
{}

/// Where the second imports nothing but what the first exports, and the whole imports what the first imports, it is observed to do what the
/// second does over the first.
pub fn plugged_components_do_what_their_parts_do<H: Host>()
    ensures { PluggedDoSame H.step }
{}
