//! A stub: what a function of the adapter does, by two routines and the host's function that may be asked between them.

use adapter_code::Statements;
use wasm_ast::CoreFunc;

/// A function of the host: its number, and its lowered type.
#[derive(Drop)]
pub struct HostFunc {
    pub function: u32,
    pub flat: CoreFunc,
}

/// What a function of the adapter does, and its lifted type.
///
/// Its locals are first the parameters; then the flag, of 32 bits; then what goes to the host's function; then the flat
/// result, of 32 bits where there is none; and then further ones, of 32 and of 64 bits in turn, up to the greatest that the
/// routines name. `before` runs first. Where it leaves a flag that is not 0 and there is a function of the host, that is
/// asked, and `after` runs.
#[derive(Drop)]
pub struct Stub {
    pub flat: CoreFunc,
    pub before: Statements,
    pub host: Option<HostFunc>,
    pub after: Statements,
}
