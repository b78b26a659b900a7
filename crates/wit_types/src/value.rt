//! The values of the interface language (WIT). A list of bytes may be kept as one run.

use virt_base::{Bytes, Text};

/// A value of a type. A tuple is a `Record`. An enum, an option and a result are a `Variant`, by the number of the case:
/// none is 0 and some is 1, ok is 0 and error is 1. The lowest bit of `Flags` is the first label's.
#[derive(Debug, Drop)]
#[cycle(values)]
pub enum Value {
    Bool(bool),
    Int(i128),
    Char(char),
    Str(Text),
    List(Values),
    Record(Values),
    Variant(u32, Option<Box<Value>>),
    Flags(u32),
    Handle(u32),
}

/// Values in order. Integers that are bytes may be kept as a run of bytes, as those of a `list<u8>` are once they are loaded.
#[derive(Debug, Drop)]
#[cycle(values)]
pub enum Values {
    Each(Vec<Value>),
    Bytes(Bytes),
}
