//! Validation of core modules: sixteen numbered rules, asked of each item in order.
#![tactic(auto)]

mod collect;
mod contents;
mod item;
mod items;
mod marks;
mod names;
mod segments;
mod shared_types;
mod spaces;
mod types;
mod whole;

pub use item::{CoreExport, CoreExports, CoreFault, CoreImport, CoreImports, CoreItem, ModuleType};
pub use wasm_ast::Shared;
pub use whole::validate;
