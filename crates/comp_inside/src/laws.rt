//! Laws of a component inside another one: its index spaces, its plan and its linked form are those that it has alone, at later numbers.

ghost use Rattle.comp_inside.specs.Later.{SpacesInside, PlannedInside, ValidStay};
ghost use Rattle.comp_inside.specs.Linked.{LinkedInside, ComponentsLinkInside};

/// A component of which no outer alias leads out has inside another one the index spaces and the plan that it has alone, at later
/// numbers of resources.
pub fn components_are_planned_inside_as_alone()
    ensures spaces { SpacesInside }
    ensures plans { PlannedInside }
{}

/// No outer alias leads out of a valid component.
pub fn valid_components_stay_whole()
    ensures { ValidStay }
{}

/// What a plan makes inside another component, at later numbers, is what it makes alone, at other numbers of instances and resources;
/// its imports are what it is given. Each resource that it names was brought or defined before.
pub fn later_plans_link_inside_as_alone()
    ensures { LinkedInside }
{}

/// A component has inside another one the linked form that it has alone, at other numbers, its imports being what it is given. No
/// outer alias leads out of it, and each resource that it names was brought or defined before.
pub fn components_link_inside_as_alone()
    ensures { ComponentsLinkInside }
{}
