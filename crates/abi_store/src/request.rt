//! Requests for memory, and how far storing came when it stops.

ghost use Rattle.std.specs.Prelude.{◌≡◌, ◌≤◌, ◌^◌, Some};
ghost use Rattle.abi_store.specs.Rooms.{room_of, cell_place};

use crate::content::{Cell, Content};

/// A request for room.
#[derive(Drop)]
pub struct Request {
    pub align: u32,
    pub len: u32,
    pub content: Content,
    pub cell: Cell,
    pub ghost room: { room_of content ≡ Some (record { align = align; len = len }) },
    pub ghost least: { 1 ≤ align },
    pub ghost low: { cell_place cell ≤ 2 ^ 50 },
}

/// How far storing came: all that was begun is stored, or it asks, or it traps.
#[derive(Drop)]
pub enum Flow {
    Goes,
    Asks(Request),
    Trapped,
}
