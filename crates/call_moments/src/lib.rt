//! What is left of a run of components at a moment, while calls between instances are in progress, and what the answer of each step of the
//! code says of it. `specs/` have the statements, one a function of `comp_calls`, and `proofs/` the lemmas by which these are met.
#![tactic(auto)]

mod asking;
mod code;
mod depth;
mod end;
mod frame;
mod frames;
mod group;
mod keeping;
mod laws;
mod loans;
mod memories;
mod passing;
mod reached;
mod tuples;
mod words;

pub use asking::host_call;
pub use code::code_runs_as_defined;
pub use depth::Depth;
pub use end::{RunEnd, Stop};
pub use frame::{
    Back, Call, Caller, Due, Flow, Frame, Purpose, Served, Service, Stored, Storing, Visit,
};
pub use frames::{code_begins_inside, results_come_back};
pub use group::Group;
pub use keeping::{handles_stay_while_lent, hosts_functions_are_asked, stores_are_kept};
pub use laws::{
    calls_begin_as_defined, hosts_answer_as_defined, instances_are_configurations,
    values_begin_to_be_stored,
};
pub use loans::loans_end_last_first;
pub use memories::memories_never_shrink;
pub use passing::{begin_params, begin_result, lift_in};
pub use reached::{has_memory_for, memory_for, memory_in};
pub use tuples::{in_tuple, out_of_tuple, values_in};
pub use words::{one_word, only_word, request, word_at};
