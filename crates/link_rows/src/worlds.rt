//! What is seen of small groups of instances, by examples that compute.

ghost use Rattle.std.specs.Prelude.{ℕ, List, [], ◌∷◌};
ghost use Rattle.comp_worlds.specs.Groups.{Nesting, Group};
ghost use Rattle.comp_worlds.specs.Observed.{Call, seen, SameObservations};
ghost use Rattle.comp_worlds.specs.Related.{SeenAlike};
ghost use Rattle.comp_worlds.specs.Parts.{SameAsParts};
ghost use Rattle.comp_inside.specs.Renaming.{Renames};
ghost use Rattle.comp_link.specs.Linking.{group_of};
ghost use Rattle.comp_link.specs.Components.{AreCalls, component_seen};
ghost use Rattle.host_port.specs.Scripts.{Script, script};
ghost use Rattle.link_rows.specs.Counters.{single, double, of_hosts, SameCount, SameAnswered, Given};
ghost use Rattle.link_rows.specs.Samples.{clock, reader};
ghost use Rattle.link_rows.specs.Joined.{both_readers, at_first, at_second, meets_reader, JoinedExamples};
ghost use Rattle.link_rows.specs.Renumbered.{dropper_at, seven_more};
ghost use Rattle.link_rows.specs.OtherNumbers.{KindsExamples};
ghost use Rattle.link_rows.specs.Places.{Books, keeper, opening, adapter, app, of_table, Idle, Answered, Held, PlacesExamples};
ghost use Rattle.link_rows.specs.WorldsRows.{ClockExamples, ReallocExamples, BorrowExamples, DestructorExamples, EnteredExamples};

use comp_link::components_are_seen_alike;
use comp_worlds::{Parts, Worlds, parts_do_what_the_whole_does, related_hosts_are_seen_alike};

/// A component reads a clock, with steps and calls in progress counted. It does nothing when it runs.
#[tactic(auto, using(crate::proofs::WorldsCompute::clock_examples))]
pub fn clocks_are_read()
    ensures { ClockExamples }
{}

/// A text is lowered, and `realloc` may call nothing. It does nothing when it runs.
#[tactic(auto, using(crate::proofs::WorldsCompute::realloc_examples))]
pub fn room_is_asked()
    ensures { ReallocExamples }
{}

/// A borrowed handle is kept past its call, or not. It does nothing when it runs.
#[tactic(auto, using(crate::proofs::WorldsCompute::borrow_examples))]
pub fn kept_borrows_trap()
    ensures { BorrowExamples }
{}

/// A destructor runs inside a drop. It does nothing when it runs.
#[tactic(auto, using(crate::proofs::WorldsCompute::destructor_examples))]
pub fn destructors_run()
    ensures { DestructorExamples }
{}

/// An instance is called back, and one that is being made calls itself. It does nothing when it runs.
#[tactic(auto, using(crate::proofs::WorldsCompute::entered_examples))]
pub fn instances_are_entered()
    ensures { EnteredExamples }
{}

/// Two hosts that hand out handles, whose numbers differ.
#[derive(Clone, Copy)]
pub struct Counters;

impl Worlds for Counters {
    ghost first = { ℕ };

    ghost second = { ℕ };

    ghost one = { single };

    ghost two = { double };

    ghost adapter = { [] };

    ghost host = { of_hosts };

    ghost idle = { SameCount };

    ghost answered = { SameAnswered };

    ghost live = { Given };

    fn known(self) {}
}

/// The premise of the law of related hosts holds of them, so that what is over one is seen to do what it does over the other.
pub fn counters_are_seen_alike()
    ensures { (G : Group) → SeenAlike [] single double of_hosts SameCount G }
{
    related_hosts_are_seen_alike::<Counters>();
}

/// A component makes two handles, drops one and reads the other, over a host and over a component in the host's place. It does nothing
/// when it runs.
pub fn handles_have_places()
    ensures { PlacesExamples }
{}

/// A host that hands out handles, and a component that does so in its place, by places of a table of its own.
#[derive(Clone, Copy)]
pub struct Keepers;

impl Worlds for Keepers {
    ghost first = { Books };

    ghost second = { Script };

    ghost one = { keeper };

    ghost two = { script };

    ghost adapter = { group_of adapter ∷ [] };

    ghost host = { of_table };

    ghost idle = { Idle };

    ghost answered = { Answered };

    ghost live = { Held };

    fn known(self) {}
}

/// The premise of the law of related hosts holds of the two and of an application that asks for a part of what they answer, so that it
/// is seen to do over the one what it does over the other, whatever the script says.
pub fn places_are_seen_alike()
    ensures { (items : Script) (calls : List Call) → AreCalls app calls →
        SameObservations (component_seen app keeper (opening items) calls) (seen (group_of app) (group_of adapter ∷ []) script items calls) }
{
    components_are_seen_alike::<Keepers>();
}

/// Two components that import two resources in another order are seen to do the same, but for the types of a host's calls. It does
/// nothing when it runs.
pub fn kinds_have_other_numbers()
    ensures { KindsExamples }
{}

/// One reader of the clock over another, and the group of both. It does nothing when it runs.
#[tactic(auto, using(crate::proofs::Joining::joined_examples))]
pub fn readers_are_joined()
    ensures { JoinedExamples }
{}

/// A reader of the clock over another one.
#[derive(Clone, Copy)]
pub struct Readers;

impl Parts for Readers {
    ghost states = { ℕ };

    ghost machine = { clock };

    ghost below = { [] };

    ghost lower = { reader };

    ghost upper = { reader };

    ghost whole = { both_readers };

    ghost left = { at_first };

    ghost right = { at_second };

    ghost meets = { meets_reader };

    fn known(self) {}
}

/// The premise of the law of parts holds of them.
pub fn readers_do_what_both_do()
    ensures { (s : ℕ) (d : Nesting) (calls : List Call) (n : ℕ) → SameAsParts reader reader both_readers [] clock s d calls n }
{
    parts_do_what_the_whole_does::<Readers>();
}

/// The premise of the law of other numbers can be met: the resource of a group gets another one. It does nothing when it runs.
#[tactic(auto, using(crate::proofs::Renumbering::renumbered))]
pub fn resources_are_renumbered()
    ensures { Renames (dropper_at 3) (dropper_at 10) seven_more }
{}
