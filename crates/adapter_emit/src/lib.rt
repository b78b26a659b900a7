//! The core modules of the adapter, from routines, by the name that callers know: what `adapter_bytes` holds of them.
#![tactic(auto)]

pub use adapter_bytes::{Emitted, Routines, emit, state_does, stubs_do};
