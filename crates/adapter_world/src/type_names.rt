//! Names of types, each with the number of the listed interface in which it is known.

use virt_base::{Items, Text};

/// A name of a type in the interface with a number.
#[derive(Debug, Drop)]
pub struct TypeName {
    pub interface: u32,
    pub name: Text,
}

/// Names of types in order; one may come twice.
pub type TypeNames = Items<TypeName>;
