//! The locals and operands of calls in progress, as words in one list, and the words of values.
#![tactic(auto)]

mod slots;
mod words;

pub use slots::Slots;
pub use words::{CoreValues, reference, value, value_like, values, word, word_of_ref};
