//! What memory is asked for: the string, list or whole value that waits for the answer, and where the answer goes.

ghost use Rattle.std.specs.Prelude.{◌≤◌};
ghost use Rattle.wit_types.specs.Plain.{plain};
ghost use Rattle.wit_types.specs.Limits.{parts};

use std::rc::Rc;
use virt_base::Text;
use wit_types::{Value, Values, WitType};

/// The items of a list.
#[derive(Drop)]
pub struct ListContent {
    pub item: Rc<WitType>,
    pub values: Values,
    pub ghost small: { parts (plain item.value) ≤ 1000000 },
}

/// A whole value, for which room is asked at once.
#[derive(Drop)]
pub struct WholeContent {
    pub ty: Rc<WitType>,
    pub value: Value,
    pub ghost small: { parts (plain ty.value) ≤ 1000000 },
}

/// What is stored at the answer to a request.
#[derive(Drop)]
pub enum Content {
    Text(Text),
    List(ListContent),
    Whole(WholeContent),
}

/// Where the answer goes.
#[derive(Clone, Copy)]
pub enum Cell {
    /// To a place of the memory, and the length after it.
    Memory(u64),
    /// Among the flat values.
    Flat,
}

/// An alignment and a length.
#[derive(Clone, Copy)]
pub struct RoomSize {
    pub align: u32,
    pub len: u32,
    pub ghost least: { 1 ≤ align },
}
