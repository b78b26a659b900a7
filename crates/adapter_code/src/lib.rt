//! The table language, in which the adapter's functions are written, and its evaluator.
#![tactic(auto)]

mod evaluator;
mod flow;
mod laws;
mod layout;
mod memory;
mod number;
mod plain;
mod state;
mod statement;
mod well_formed;
mod write;

pub use evaluator::eval;
pub use laws::{placed_routines_run_alike, routines_run_in_order, writes_are_read};
pub use layout::Layout;
pub use state::{CodeEnd, Effect, Effects, Local, Locals, RowState};
pub use statement::{IntOp, Statement, Statements, Width};
pub use well_formed::is_well_formed;
pub use write::{
    Field, Walk, add, append, choose, constant, each, less, load, multiply, repeat, store,
    subtract, widths_of,
};
