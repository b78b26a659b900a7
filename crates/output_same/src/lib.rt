//! An output is a valid component that is seen to do what the application does, over every host: definitions and laws. `specs/` hold the
//! definitions.
#![tactic(auto)]

mod laws;
mod untyped;
mod valid;

pub use laws::{
    hosts_are_seen_by_their_strategies, outputs_do_the_same, outputs_wrap_applications,
    places_make_no_difference_to_groups, strategies_are_all_hosts,
};
pub use untyped::{doing_the_same_needs_no_types, hosts_may_show_no_types};
pub use valid::{
    output_exports_the_same, output_imports_nothing, output_is_valid, places_make_no_difference,
};
