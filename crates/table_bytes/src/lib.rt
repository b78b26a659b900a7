//! Slot tables in the bytes of a memory, and the routines that take and free their places; and ways to write routines, each with the law
//! that a routine's proof uses.
#![tactic(auto)]

mod entry;
mod forms;
mod forms_laws;
mod laws;
mod places;
mod routines;
mod words;

pub use entry::Entry;
pub use forms::{element, minus, plus, unless, when};
pub use forms_laws::{called_routines_run, well_formed_routines_pass};
pub use laws::{free_frees, take_takes, zeros_are_free};
pub use places::placed_at;
pub use routines::{HEAD, LONG, OWN, TAG, TableLocals, WORD, free, own_free, take, to_place};
pub use words::{
    answer, at_most, both_bits, copy, differ, drop_handle, either_bits, equal, leave, make_handle,
    other_bits, shift_left, shift_right, trap,
};
