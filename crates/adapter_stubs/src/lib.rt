//! The core module of the functions that the adapter exports.
#![tactic(auto)]

mod bodies;
mod functions;
mod host_call;
mod imports;
mod laws;
mod named;
mod stub;
mod stubs;
mod types;
mod widths;

pub use host_call::HostCall;
pub use laws::{stubs_ask, stubs_run};
pub use named::locals_named;
pub use stub::{HostFunc, Stub};
pub use stubs::stubs_module;
pub use widths::stub_widths;
