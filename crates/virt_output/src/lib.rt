//! The sections of an output, and the output of an application that imports nothing, written section by section: what stands before
//! the application's bytes and what stands after them. What is written is a component at every moment.
#![tactic(auto)]

mod around;
mod back;
mod counts;
mod fault;
mod items;
mod piece;
mod pieces;
mod put;

pub use around::{Around, write_around};
pub use counts::{Counts, sort_of};
pub use fault::PieceFault;
pub use piece::Piece;
pub use pieces::what_is_written_is_read;
pub use put::{put_component_head, put_piece, start_component};
