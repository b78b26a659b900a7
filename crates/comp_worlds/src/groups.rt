//! The law of a group that is made of two: it does what the one does over the other. No code but the law.

ghost use Rattle.std.specs.Prelude.{ℕ, List};
ghost use Rattle.host_port.specs.Hosts.{HostStep};
ghost use Rattle.comp_worlds.specs.Groups.{Nesting, Import, Target, Group};
ghost use Rattle.comp_worlds.specs.Observed.{Call};
ghost use Rattle.comp_worlds.specs.Parts.{Joins, SameAsParts};

/// Two groups, one made of the two, and the host and the groups over which they stand.
pub trait Parts {
    /// The states of the host.
    ghost states: { Type 0 };

    /// The host.
    ghost machine: { HostStep states };

    /// What stands over the host.
    ghost below: { List Group };

    /// The part whose exports meet the imports of the other.
    ghost lower: { Group };

    /// The part whose exports are those of the whole.
    ghost upper: { Group };

    /// The group made of both.
    ghost whole: { Group };

    /// Where the lower part's instances stand in the whole.
    ghost left: { ℕ → ℕ };

    /// Where the upper part's instances stand in the whole.
    ghost right: { ℕ → ℕ };

    /// The export of the lower part that meets an import of the upper one.
    ghost meets: { Import → Target };

    /// It is a value.
    fn known(self);
}

/// The law of parts: a group made of two is observed to do what the one does over the other, in as many steps, whatever the limit on
/// calls within calls.
pub fn parts_do_what_the_whole_does<P: Parts>()
    ensures { Joins P.lower P.upper P.whole P.left P.right P.meets → (s : P.states) (d : Nesting) (calls : List Call) (n : ℕ) →
        SameAsParts P.lower P.upper P.whole P.below P.machine s d calls n }
{}
