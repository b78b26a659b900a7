//! A writable folder in memory: a flat map from numbers to files, with a quota in blocks of 4,096 bytes.
//!
//! The blocks stand in an order: first those of the file of number 0, then those of the next one and so on, and last those that no file
//! has. The order is a list of the blocks' numbers. A file that takes or gives up blocks moves numbers in this list, four bytes a block,
//! and never the bytes of another file. So what a call costs grows with the bytes that it reads, writes or sets to zero, and with the
//! number of blocks of the files after it; it never grows with how full the folder is.
#![tactic(auto)]

mod blocks;
mod bytes;
mod pieces;
mod scratch;
mod slot;
mod slots;
mod space;

pub use scratch::{InsufficientSpace, Scratch};
pub use slot::BLOCK;
