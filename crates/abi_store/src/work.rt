//! What is in progress in memory while a value is stored. It is kept as a list, so that a plan can stop at a request and go on later.

ghost use Rattle.std.specs.Prelude.{◌≡◌, ◌≤◌, ◌+◌, ◌*◌, ◌^◌, length};
ghost use Rattle.wit_types.specs.Plain.{plain};
ghost use Rattle.wit_types.specs.Layout.{size};
ghost use Rattle.wit_types.specs.Limits.{parts as parts_in, all_parts};
ghost use Rattle.abi_store.specs.Parts.{parts_from};

use crate::parts::Parts;
use crate::request::Request;
use std::rc::Rc;
use wit_types::{Value, WitType};

/// Items of one size, of which the first lies at a place. The last one stands first.
#[derive(Drop)]
pub struct ListWork {
    pub item: Rc<WitType>,
    pub width: u32,
    pub left: Vec<Value>,
    pub at: u64,
    pub ghost small: { parts_in (plain item.value) ≤ 1000000 },
    pub ghost wide: { width ≡ size (plain item.value) },
    pub ghost low: { at + width * length left.items ≤ 2 ^ 34 },
}

/// The fields of a record at a place, from one on, which lies at an offset or after it. The last value stands first.
#[derive(Drop)]
pub struct RecordWork {
    pub parts: Parts,
    pub next: usize,
    pub left: Vec<Value>,
    pub at: u64,
    pub offset: u32,
    pub ghost few: { all_parts (parts_from parts next) ≤ 1000000 },
    pub ghost small: { offset + 32 * all_parts (parts_from parts next) ≤ 32000000 },
    pub ghost low: { at + offset + 32 * all_parts (parts_from parts next) + 32 ≤ 2 ^ 50 },
}

/// A value at a place.
#[derive(Drop)]
pub struct ValueWork {
    pub ty: Rc<WitType>,
    pub value: Value,
    pub at: u64,
    pub ghost small: { parts_in (plain ty.value) ≤ 1000000 },
    pub ghost low: { at + 32 * parts_in (plain ty.value) ≤ 2 ^ 50 },
}

/// The place of what was stored, and its length after it.
#[derive(Clone, Copy)]
pub struct PlaceWork {
    pub at: u64,
    pub place: u32,
    pub len: u64,
    pub ghost low: { at ≤ 2 ^ 50 },
}

#[derive(Drop)]
pub enum Work {
    List(ListWork),
    Record(RecordWork),
    Value(ValueWork),
    Place(PlaceWork),
}

/// What storing a value came to: it is stored, or it is in progress, or it asks, or it traps.
#[derive(Drop)]
pub enum Begun {
    Stored,
    Opened(Work),
    Asks(Request),
    Trapped,
}

/// Whether bytes were written, or pass the end of the memory.
#[derive(Clone, Copy)]
pub enum Written {
    Done,
    Past,
}
