//! What canonical calls of an emitted adapter do, by the runs of its routines: laws alone. `specs/` hold the definitions.
#![tactic(auto)]

mod laws;

pub use laws::{
    answers_are_lifted_as_taken, answers_enter_as_added, arguments_are_lifted_as_lent,
    destructors_drop, handles_answer, hosts_answer, lent_handles_are_numbers,
    lowering_goes_by_the_area, lowering_in_a_call_goes_by_the_area, post_returns_empty_the_area,
    routines_ask_in_turn, routines_return, routines_trap, storing_goes_by_the_area,
    storing_in_a_call_goes_by_the_area, stubs_answer, stubs_ask_in_turn, stubs_return, stubs_stand,
    stubs_trap,
};
