//! The law of groups that differ by the numbers of their resources alone: they are observed to do the same.

ghost use Rattle.comp_inside.specs.Renaming.{SameOverGroups, SameOverHosts};

use host_port::Host;

/// A group is observed to do the same where its resources have other numbers, in as many steps, whatever the limit on calls: over
/// other groups; and over a host, which sees the types of the imports, where these stay.
pub fn renamed_groups_do_the_same<H: Host>()
    ensures over_groups { SameOverGroups H.step }
    ensures over_hosts { SameOverHosts H.step }
{}
