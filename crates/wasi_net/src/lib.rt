//! The listed interfaces of `wasi:sockets`, by the name that callers know: what `wasi_listed` holds of them.
#![tactic(auto)]

pub use wasi_listed::net::{COUNT, FIRST, WIT, describe, interface_of, table_is_wit};
