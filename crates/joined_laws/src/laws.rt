//! The laws of this crate, each the contract of a function without a body.

ghost use Rattle.joined_laws.specs.Behaves.{JoiningDoesSame};
ghost use Rattle.joined_laws.specs.PluggedIn.{PluggedInDoesSame};
ghost use Rattle.joined_laws.specs.Shown.{ShownDoesSame, ShownIsPluggedIn};

use host_port::Host;

/// A component that joins two valid ones is observed to do what the second does over the first and the host, where each of the two is
/// given what it asks for: over any host, for every list of calls, whatever the limit on calls in progress.
pub fn joining_components_do_what_their_parts_do<H: Host>()
    ensures { JoiningDoesSame H.step }
{}

/// Where it imports what the first imports, and the first exports all that the second imports, it is observed to do what the second does
/// over the first alone, which has its own numbers of resources.
pub fn plugged_in_components_do_what_their_parts_do<H: Host>()
    ensures { PluggedInDoesSame H.step }
{}

/// Where the first's type exports each function and each resource of the second's imports, its instance exports them, and the second's
/// resources have partners before the first's last; so the second is plugged into the first, if no two of its resources are one of the
/// first's, and the functions have the types that are imported.
pub fn what_a_type_exports_is_plugged_in()
    ensures { ShownIsPluggedIn }
{}

/// A component that joins two such valid ones is observed to do what the second does over the first alone.
pub fn joined_components_plugged_by_their_types_do_what_their_parts_do<H: Host>()
    ensures { ShownDoesSame H.step }
{}
