//! Laws of what is seen of a group over a host: more steps only extend it, and it is alike over hosts that are related. No code but laws.

ghost use Rattle.std.specs.Prelude.{ℕ, List, Bool};
ghost use Rattle.host_port.specs.Hosts.{HostStep};
ghost use Rattle.comp_worlds.specs.Groups.{Group, Due};
ghost use Rattle.comp_worlds.specs.Hosts.{hosted};
ghost use Rattle.comp_worlds.specs.Observed.{State, stack};
ghost use Rattle.comp_worlds.specs.Laws.{PortsGrow, MoreStepsExtend, HostsGrow, GroupsGrow};
ghost use Rattle.comp_worlds.specs.Related.{Both, Related, SeenAlike};

use host_port::Host;

/// What was done over a host is done alike with more steps, and as many more are left; where a step was due and none was left,
/// what was seen until then is seen again.
pub fn more_steps_extend<H: Host>()
    ensures runs { MoreStepsExtend H.step }
    ensures hosts { HostsGrow H.step }
{}

/// Two hosts, groups that stand over the second, and how these stand to the first.
pub trait Worlds {
    /// The states of the first host.
    ghost first: { Type 0 };

    /// The states of the second host.
    ghost second: { Type 0 };

    /// The first host.
    ghost one: { HostStep first };

    /// The second host.
    ghost two: { HostStep second };

    /// What stands over the second host.
    ghost adapter: { List Group };

    /// The resources whose handles may have other numbers.
    ghost host: { ℕ → Bool };

    /// Between calls.
    ghost idle: { first → State adapter second → Type 0 };

    /// When an answer was given, and the call is not yet left.
    ghost answered: { first → Due → State adapter second → Due → Type 0 };

    /// The pairs of handles.
    ghost live: { first → State adapter second → ℕ → Both → Type 0 };

    /// It is a value.
    fn known(self);
}

/// The law of related hosts: where each call of an import that the group makes, each return from one and each drop of a handle that
/// it drops is done alike on both sides and keeps the relation, the group over the first host is seen to do what it does over the
/// adapter over the second, and the other way round.
pub fn related_hosts_are_seen_alike<W: Worlds>()
    ensures { (G : Group) → Related G W.host (hosted W.one) (stack W.adapter (hosted W.two)) W.idle W.answered W.live →
        SeenAlike W.adapter W.one W.two W.host W.idle G }
{}
