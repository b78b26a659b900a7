//! Whether one component can be plugged into another: the imports of the second that the first exports as instances are met by it, all
//! others are asked of the host. Says what is at fault first, and where each import of the second comes from; it makes nothing.
#![tactic(auto)]

mod declared;
mod fault;
mod first;
mod hosted;
mod matching;
mod met;
mod numbers;
mod second;
mod source;
mod unpacking;

pub use fault::SecondFault;
pub use first::{First, match_first};
pub use numbers::FIRST_OWN;
pub use second::match_second;
pub use source::{Second, Source};
