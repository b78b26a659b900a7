//! Items of the store as modules import and export them (core WebAssembly, "Execution", "External Values"), and what a new instance is to
//! its caller.

use virt_base::{Items, Text};

/// An item of the store, by its place.
#[derive(Debug, Clone, Copy, PartialEq, Eq)]
pub enum Extern {
    Func(u32),
    Table(u32),
    Memory(u32),
    Global(u32),
}

/// What a module's imports are, in order.
pub type Externs = Items<Extern>;

/// An export of an instance.
#[derive(Debug, Drop)]
pub struct NamedExtern {
    pub name: Text,
    pub item: Extern,
}

/// Exports in written order.
pub type NamedExterns = Items<NamedExtern>;

/// An instance of a module: its place among the store's instances, its exports, and its start function, which has not run.
#[derive(Debug, Drop)]
pub struct CoreInstance {
    pub number: u32,
    pub exports: NamedExterns,
    pub start: Option<u32>,
}
