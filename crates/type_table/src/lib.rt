//! The value types of a component, each different one once, found by their keys.
#![tactic(auto)]

mod making;
mod matching;
mod places;
mod rebuilt;
mod same;
mod slots;
mod table;
mod trees;
mod walk;

pub use making::Making;
pub use matching::Matching;
pub use same::link_at;
pub use slots::{Slot, form_number, slot_at, slot_count};
pub use table::{Node, TypeTable, part_type};
