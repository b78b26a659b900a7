//! The sections of a core module one by one, as they are read (WebAssembly Core 2.0, section 5.5.2).

use crate::lean::Lean;
use crate::module::{Body, CoreFunc, Data, Elements, Export, Global, Import, Limits, TableType};

/// A section of a core module (WebAssembly Core 2.0, section 5.5.2). Of a custom one nothing is kept.
#[derive(Debug, Drop)]
pub enum CoreSection {
    Custom,
    Types(Lean<CoreFunc>),
    Imports(Lean<Import>),
    Functions(Lean<u32>),
    Tables(Lean<TableType>),
    Memories(Lean<Limits>),
    Globals(Lean<Global>),
    Exports(Lean<Export>),
    Start(u32),
    Elements(Lean<Elements>),
    DataCount(u32),
    Code(Lean<Body>),
    Segments(Lean<Data>),
}
