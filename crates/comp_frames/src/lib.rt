//! Core code of a group from where it stands, with no bound on how deep its questions are nested; what a plan of storing does meanwhile;
//! and what is left of the group where core code comes back, by why the code runs and by the core code outside it. `specs/` hold the
//! definitions.
#![tactic(auto)]

mod laws;
mod runs;
mod stores;

pub use laws::calls_go_step_by_step;
pub use runs::{
    core_code_goes_from_question_to_question, core_code_needs_no_fuel, pauses_lead_core_code,
};
pub use stores::{plans_go_on_as_stores, plans_keep_their_room};
