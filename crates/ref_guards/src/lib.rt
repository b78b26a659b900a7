//! What must hold of a call before the reference host answers it.
//!
//! Its arguments have the listed types, and its result type is the listed one but for the numbers of handles. What it gives is
//! noted once, as texts, lists and handles in the order of its arguments; of these are its weight, and whether each handle is
//! live and of its kind. Then there must be room for the handles of its result.
#![tactic(auto)]

mod alike;
mod arguments;
mod atoms;
mod entering;
mod entering_room;
mod handles;
mod numbers;
mod room;
mod standing;
mod values;
mod weight;

pub use alike::alike_results;
pub use arguments::are_arguments;
pub use atoms::{Atom, note_arguments, note_atoms, note_result};
pub use entering::enter_value;
pub use entering_room::results_have_room;
pub use handles::{are_host, are_live, is_host};
pub use numbers::numbers_agree;
pub use room::{has_places, owned_kinds};
pub use standing::Standing;
pub use weight::{left_behind, left_behind_elements};
