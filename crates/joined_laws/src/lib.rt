//! What a component that joins two others does: what the second does over the first. `specs/` hold the definitions.
#![tactic(auto)]

mod laws;

pub use laws::{
    joined_components_plugged_by_their_types_do_what_their_parts_do,
    joining_components_do_what_their_parts_do, plugged_in_components_do_what_their_parts_do,
    what_a_type_exports_is_plugged_in,
};
