//! What index spaces keep of a type and of a component.

use comp_types::{InstanceEntries, TypeItem};
use virt_base::Items;

/// A type, and how deep its definition is; 101 stands for more than 100.
#[derive(Drop)]
pub struct KnownEntry {
    pub kind: TypeItem,
    pub depth: u32,
}

/// The type of a component, and the resources in its exports that no import gives.
#[derive(Drop)]
pub struct KnownComponent {
    pub imports: InstanceEntries,
    pub exports: InstanceEntries,
    pub own: Items<u32>,
}
