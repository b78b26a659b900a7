//! The types of the interface language (WIT). Parts of a type are shared, so that one that is small as a graph stays small.

use std::rc::Rc;
use virt_base::{Items, Text};

/// A value type of the Component Model (Binary.md, "Type Definitions"). The number of a handle type names a resource.
#[derive(Debug, Drop)]
#[cycle(types)]
pub enum WitType {
    Bool,
    S8,
    U8,
    S16,
    U16,
    S32,
    U32,
    S64,
    U64,
    Char,
    Str,
    Record(Rc<Fields>),
    Tuple(Rc<Types>),
    Variant(Rc<Cases>),
    List(Rc<WitType>),
    Flags(Rc<Labels>),
    Enum(Rc<Labels>),
    Option(Rc<WitType>),
    Result(Option<Rc<WitType>>, Option<Rc<WitType>>),
    Own(u32),
    Borrow(u32),
}

/// Names in order.
pub type Labels = Items<Text>;

/// Types in order.
#[derive(Debug, Drop)]
#[cycle(types)]
pub struct Types {
    pub items: Vec<WitType>,
}

/// A named type: a field of a record, or a parameter.
#[derive(Debug, Drop)]
#[cycle(types)]
pub struct Field {
    pub name: Text,
    pub ty: WitType,
}

/// Named types in order.
#[derive(Debug, Drop)]
#[cycle(types)]
pub struct Fields {
    pub items: Vec<Field>,
}

/// A case of a variant, and the type of its payload if it has one.
#[derive(Debug, Drop)]
#[cycle(types)]
pub struct Case {
    pub name: Text,
    pub ty: Option<Rc<WitType>>,
}

/// Cases in order.
#[derive(Debug, Drop)]
#[cycle(types)]
pub struct Cases {
    pub items: Vec<Case>,
}

/// The type of a function.
#[derive(Debug, Drop)]
pub struct FuncType {
    pub params: Fields,
    pub result: Option<WitType>,
}
