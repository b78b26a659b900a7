//! What the programs share around their one call: the words of the command line, and why a call ended so, said on standard error. No
//! contract speaks of it.
#![tactic(auto)]

mod reasons;
mod words;

pub use reasons::{bytes_of, say_fault, say_no_memory, say_policy};
pub use words::{WordsError, words_of};
