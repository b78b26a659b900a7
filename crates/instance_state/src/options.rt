//! The options of a canonical function that lifting and lowering use, as places in the store of its instance.

/// The options of a canonical function: places of a memory and of a function in the store of its instance.
#[derive(Debug, Clone, Copy, PartialEq, Eq)]
pub struct CallOptions {
    pub memory: Option<u32>,
    pub realloc: Option<u32>,
}
