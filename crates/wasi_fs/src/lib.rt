//! The listed interfaces of `wasi:filesystem`, by the name that callers know: what `wasi_listed` holds of them.
#![tactic(auto)]

pub use wasi_listed::fs::{COUNT, FIRST, WIT, describe, interface_of, table_is_wit};
