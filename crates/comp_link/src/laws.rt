//! Laws of the group of a component: its own resources are new, and it is seen alike over related hosts. No code but laws.

ghost use Rattle.comp_grammar.specs.Trees.{Tree};
ghost use Rattle.comp_worlds.specs.Hosts.{hosted};
ghost use Rattle.comp_worlds.specs.Observed.{stack};
ghost use Rattle.comp_worlds.specs.Related.{Related};
ghost use Rattle.comp_link.specs.Linking.{group_of};
ghost use Rattle.comp_link.specs.Laws.{OwnResourcesAreNew, ComponentSeenAlike};

use comp_worlds::{Worlds, related_hosts_are_seen_alike};

/// The resources that a component's instances define have other numbers than those of its imports.
pub fn own_resources_are_new()
    ensures { OwnResourcesAreNew }
{}

/// Where each call of an import that the component makes, each return from one and each drop of a handle that it drops is done alike
/// on both sides and keeps the relation, the component over the first host is seen to do what it does over the adapter over the
/// second, and the other way round.
pub fn components_are_seen_alike<W: Worlds>()
    ensures { (tree : Tree) → Related (group_of tree) W.host (hosted W.one) (stack W.adapter (hosted W.two)) W.idle W.answered W.live →
        ComponentSeenAlike W.adapter W.one W.two W.host W.idle tree }
{
    related_hosts_are_seen_alike::<W>();
}
