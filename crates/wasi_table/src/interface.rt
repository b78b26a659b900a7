//! A listed interface as a value: its name, what it uses of other interfaces, its types and its functions.

use virt_base::{Items, Text};
use wit_types::{FuncType, Labels, WitType};

/// What the name of a type stands for.
#[derive(Debug, Drop)]
pub enum Meaning {
    Value(WitType),
    /// The kind of resources with this number.
    Kind(u32),
}

/// A type that an interface defines.
#[derive(Debug, Drop)]
pub struct NamedType {
    pub name: Text,
    pub meaning: Meaning,
    /// The names of the types with which it is written, in order; a name may come twice.
    pub names: Labels,
}

/// Named types in order.
pub type NamedTypes = Items<NamedType>;

/// A type that an interface exports as equal to one of the same name in the interface with this number, which defines it.
#[derive(Debug, Drop)]
pub struct Use {
    pub interface: u32,
    pub name: Text,
}

/// Uses in order.
pub type Uses = Items<Use>;

/// A function of an interface. A method's name is `[method]`, its resource, a dot and its own name, and its first
/// parameter borrows the resource. Parameters have empty names.
#[derive(Debug, Drop)]
pub struct NamedFunc {
    pub name: Text,
    pub ty: FuncType,
    /// The names of the types with which its type is written, in order; a name may come twice.
    pub names: Labels,
}

/// Functions in order.
pub type NamedFuncs = Items<NamedFunc>;

/// A listed interface. The number of a handle type in it is that of a kind.
#[derive(Debug, Drop)]
pub struct Interface {
    /// The name without version.
    pub name: Text,
    pub uses: Uses,
    pub types: NamedTypes,
    pub functions: NamedFuncs,
}

/// A named type, and the number of the interface that defines it.
#[derive(Debug, Drop)]
pub struct Known {
    pub interface: u32,
    pub named: NamedType,
}
