//! The law that linking a valid component is sound, and what it needs of the modules that bytes spell.

ghost use Rattle.comp_joins.specs.Counts.{SpelledCount};
ghost use Rattle.comp_joins.specs.Sound.{LinkedIsSound, LinkingIsSound};

/// Each step of the plan of a valid component finds what it needs: modules are given what they import, core functions have the flattened
/// types, options fit.
pub fn linking_is_sound()
    ensures { LinkingIsSound }
{}

/// A linked component is sound where its plan is that of a valid component.
pub fn linked_components_are_sound()
    ensures { LinkedIsSound }
{}

/// Of a component that bytes spell, each module has its counts.
pub fn spelled_components_have_counts()
    ensures { SpelledCount }
{}
