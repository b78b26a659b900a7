//! Laws of hosts that show calls without their types: to compare what two processes do, it is enough to look at these.

ghost use Rattle.output_same.specs.Shown.{ByHosts, ShowsUntyped};

use host_port::Host;

/// Over a host that shows calls without their types, the same is seen as over the host, without these types. It does nothing when it
/// runs.
pub fn hosts_may_show_no_types<H: Host>()
    ensures { ShowsUntyped H.step }
{}

/// To do the same up to the types of host calls is to do the same over hosts that show none. It does nothing when it runs.
pub fn doing_the_same_needs_no_types<G: Host, H: Host>()
    ensures { ByHosts G.step H.step }
{}
