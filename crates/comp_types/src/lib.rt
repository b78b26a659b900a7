//! The types of what components import and export, and pairs of their resources. `specs/` hold the rules of components too, which are
//! over these types (Component Model, Binary.md and Explainer.md).
#![tactic(auto)]

mod func_matching;
mod known;
mod known_parts;
mod laws;
mod lengths;
mod places;
mod substitution;
mod types;
mod value_matching;

pub use func_matching::match_func;
pub use known::{KnownFunc, KnownValue};
pub use known_parts::KnownParts;
pub use laws::{fault_is_one, given_is_partner, valid_breaks_nothing};
pub use lengths::Lengths;
pub use substitution::{Substitution, are_same};
pub use types::{
    DeclaredInstance, InstanceEntries, InstanceEntry, InstanceType, ItemType, TypeItem,
};
pub use value_matching::match_value;
