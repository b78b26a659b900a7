//! A section as it is given to be written: a list of items, or the bytes of what is nested.

use virt_base::Items;
use wasm_ast::{Alias, Canon, ComponentExport, ComponentImport, CoreInstance, Instance, TypeItem};

/// A section, as it is given to be written.
#[derive(Drop)]
pub enum Piece<'a> {
    /// The bytes of a component.
    Component(&'a [u8]),
    /// The bytes of a core module.
    CoreModule(&'a [u8]),
    CoreInstances(Items<CoreInstance>),
    Instances(Items<Instance>),
    Aliases(Items<Alias>),
    /// Definitions; what an instance type declares stands after it.
    Types(Items<TypeItem>),
    Canons(Items<Canon>),
    Imports(Items<ComponentImport>),
    Exports(Items<ComponentExport>),
}
