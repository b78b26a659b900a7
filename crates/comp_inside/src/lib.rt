//! A component inside another one is planned and made as it is alone, at other numbers; one that holds another and hands its exports on
//! does what that one does; and a group does the same where its resources have other numbers. `specs/` hold the definitions.
#![tactic(auto)]

mod laws;
mod renames;
mod wraps;

pub use laws::{
    components_are_planned_inside_as_alone, components_link_inside_as_alone,
    later_plans_link_inside_as_alone, valid_components_stay_whole,
};
pub use renames::renamed_groups_do_the_same;
pub use wraps::{
    plans_link_inside_as_alone, surrounding_groups_do_the_same, wrapped_components_do_the_same,
};
