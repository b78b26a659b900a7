//! Values, references, functions and the index spaces of instances, as the store holds them (core WebAssembly, "Execution", "Runtime
//! Structure").

use crate::Code;
use crate::locals::Locals;
use virt_base::Items;
use wasm_ast::{CoreFunc, Indexes, Shared};

/// A reference: null, or a function by its place in the store.
#[derive(Debug, Clone, Copy, PartialEq, Eq)]
pub enum CoreRef {
    Null,
    Func(u32),
}

/// References in order.
pub type CoreRefs = Items<CoreRef>;

/// A value (WebAssembly Core 2.0, section 4.2.1). Integers are kept without a sign.
#[derive(Debug, Clone, Copy, PartialEq, Eq)]
pub enum CoreValue {
    I32(u32),
    I64(u64),
    Ref(CoreRef),
}

/// A function of the store. Its type is shared with its instance, and its code with a machine that runs it.
#[derive(Debug, Drop)]
pub enum StoreFunc {
    /// A function of a module, with the place of its instance, and its locals after the parameters.
    Inside {
        ty: Shared<CoreFunc>,
        instance: u32,
        locals: Locals,
        body: Shared<Code>,
    },
    /// A function of the embedder, by the embedder's number.
    Outside {
        ty: Shared<CoreFunc>,
        number: u32,
    },
}

/// The index spaces of an instance: its function types, and the places of its items in the store.
#[derive(Debug, Drop)]
pub struct CoreSpaces {
    pub types: Items<Shared<CoreFunc>>,
    pub functions: Indexes,
    pub tables: Indexes,
    pub memories: Indexes,
    pub globals: Indexes,
    pub segments: Indexes,
    pub elements: Indexes,
}

/// As many calls as may be are in progress.
#[derive(Debug, Clone, Copy, PartialEq, Eq)]
pub struct TooDeep;
