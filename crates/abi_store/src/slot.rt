//! Flat values while a value is lowered: those that are known, and those that are still to come.

use crate::content::Content;

/// A flat value: a number, or the place of what is stored.
#[derive(Drop)]
pub enum Slot {
    Number(u64),
    Place(Content),
}

/// The flat values that are known, and those that are still to come, the last one first.
#[derive(Drop)]
pub struct Flats {
    pub done: Vec<u64>,
    pub left: Vec<Slot>,
}
