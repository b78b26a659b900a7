//! Pieces of a component are written where they may be: a count or a length that 32 bits can't say is found before. What sections
//! are added is told with the bytes that spell them.
#![tactic(auto)]

mod fits;
mod items;
mod piece_fits;
mod type_items;
mod types;
mod written;

pub use written::{put, put_sections, write_pieces};
