//! The type of a module: what it imports and exports, and the types of these; and why a module is refused.

use virt_base::{CoreType, Items, NoMemory, Text};
use wasm_ast::{CoreFunc, Limits, Shared};

/// What a module takes or gives.
#[derive(Debug, Drop)]
pub enum CoreItem {
    /// Imports have one copy of each type together, and so have exports.
    Func(Shared<CoreFunc>),
    /// The type of its entries, and how many there are.
    Table(CoreType, Limits),
    Memory(Limits),
    /// The type of its value, and whether it is a variable.
    Global(CoreType, bool),
}

/// An import, by the two parts of its name.
#[derive(Debug, Drop)]
pub struct CoreImport {
    pub module: Text,
    pub name: Text,
    pub item: CoreItem,
}

/// An export.
#[derive(Debug, Drop)]
pub struct CoreExport {
    pub name: Text,
    pub item: CoreItem,
}

/// Imports in written order.
pub type CoreImports = Items<CoreImport>;

/// Exports in written order.
pub type CoreExports = Items<CoreExport>;

/// The type of a module (WebAssembly Core 2.0, section 3.4.10).
#[derive(Debug, Drop)]
pub struct ModuleType {
    pub imports: CoreImports,
    pub exports: CoreExports,
}

/// Why a module is refused.
#[derive(Debug, Clone, Copy, PartialEq, Eq)]
pub enum CoreFault {
    /// The least rule that the first faulty item breaks.
    Invalid(u32),
    /// Memory ran out.
    NoMemory,
}

impl From<NoMemory> for CoreFault {
    ghost use Rattle.std.specs.Prelude.{◌≡◌};
    ghost use Rattle.core_validate.specs.declared.item.CoreFault.TheVariants.{NoMemory};

    ghost from_gives = { λ _ e. e ≡ NoMemory };

    fn from(_: NoMemory) -> CoreFault {
        CoreFault::NoMemory
    }
}
