//! The value types of core modules. They stand here and not with the trees of modules, since flat types of values are made of them too.

use crate::items::Items;

/// A value type of core modules (WebAssembly Core 2.0, section 2.3).
#[derive(Debug, Clone, Copy, PartialEq, Eq)]
pub enum CoreType {
    I32,
    I64,
    Funcref,
    Externref,
}

/// Value types in order.
pub type CoreTypes = Items<CoreType>;
