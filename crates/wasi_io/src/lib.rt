//! The listed interfaces of `wasi:io`, `wasi:cli`, `wasi:clocks` and `wasi:random`, by the name that callers know: what
//! `wasi_listed` holds of them.
#![tactic(auto)]

pub use wasi_listed::io::{COUNT, WIT, describe, interface_of, known_types, table_is_wit};
