//! What is kept of a listed component: each of its imports, with the interface, the version and the functions that it asks for.

use virt_base::{Items, Text};

/// An import of a listed interface.
#[derive(Debug, Drop)]
pub struct ListedUse {
    /// The number of the interface.
    pub interface: u32,
    /// The version by which the import names it.
    pub version: Text,
    /// The places in the interface of the functions that the import asks for, in its order.
    pub functions: Items<u32>,
}

/// Imports in written order.
pub type ListedUses = Items<ListedUse>;

/// What a listed component imports.
#[derive(Debug, Drop)]
pub struct Listed {
    pub uses: ListedUses,
}
