//! A component that joins two others does what the one does over the other; what a valid component's plan names, it has brought or
//! defined before; and linking a valid component is sound: definitions and laws. `specs/` hold the definitions.
#![tactic(auto)]

mod agrees;
mod asks;
mod knows;
mod laws;
mod making;
mod settled;
mod sound;

pub use agrees::{handed_exports_fit, valid_components_agree};
pub use asks::valid_components_ask_what_they_import;
pub use knows::{
    plans_know_in_order, valid_components_know_what_they_name,
    valid_components_link_inside_as_alone,
};
pub use laws::{
    joined_components_do_what_their_parts_do, plans_find_what_they_are_given,
    plans_need_no_more_than_they_look_up, plugged_components_do_what_their_parts_do,
    steps_of_making_are_counted,
};
pub use making::stores_are_as_planned;
pub use settled::{
    handles_pass_alike, numbers_stay_below_the_next, plans_add_at_the_end, what_stands_is_settled,
};
pub use sound::{linked_components_are_sound, linking_is_sound, spelled_components_have_counts};
