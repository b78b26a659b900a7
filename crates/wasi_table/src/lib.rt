//! The notation of the tables of listed interfaces, and what a table says.
//!
//! A table is a text. A point stands between its interfaces, a semicolon between the items of an interface, a comma between
//! the lines of an item, and a blank between the words of a line. The first item of an interface is its name alone; the others
//! begin with a keyword and a name, as `record datetime`, and the fields, cases or methods stand in lines of their own. A type
//! is written with its form in front: `list u8`, `result _ error-code`, `borrow descriptor`. A name stands for what was
//! defined by it before, in this or an earlier interface.
#![tactic(auto)]

mod cut;
mod forms;
mod functions;
mod interface;
mod items;
mod kinds;
mod tables;
mod types;
mod words;

pub use interface::{
    Interface, Known, Meaning, NamedFunc, NamedFuncs, NamedType, NamedTypes, Use, Uses,
};
pub use kinds::{KINDS, kind_of};
pub use tables::{declare_all, describe, number_named};
