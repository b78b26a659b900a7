//! Where a value lies in memory, and the core types by which it is passed (Component Model, Canonical ABI).
#![tactic(auto)]

mod flat_types;
mod flattening;
mod laws;
mod limits;
mod memory;

pub use flat_types::Flat;
pub use flattening::{flatten, joined, place_and_length, single, variant};
pub use laws::{loaded_values_have_types, renumbered_values_keep};
pub use limits::is_small;
pub use memory::{
    Layout, align, align_to, discriminant_width, flags_width, layout_of, layout_of_cases,
    layout_of_payload, payload_offset, size,
};
