//! Laws of what the plan of a valid component names: resources that were brought or defined before. So it is linked inside another
//! component as it is alone.

ghost use Rattle.comp_joins.specs.Known.{KnownInOrder, ValidLinkInside, ValidNamesKnown};

/// What a plan knows where numbers stay as they are, it knows where they become others, if numbers of its own resources one after the
/// other stay so.
pub fn plans_know_in_order()
    ensures { KnownInOrder }
{}

/// The plan of a valid component names resources that were brought or defined before, and no others.
pub fn valid_components_know_what_they_name()
    ensures { ValidNamesKnown }
{}

/// A valid component has inside another one the linked form that it has alone, wherever it stands, at other numbers.
pub fn valid_components_link_inside_as_alone()
    ensures { ValidLinkInside }
{}
