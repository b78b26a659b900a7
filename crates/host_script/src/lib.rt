//! Scripts: how the calls of a component's imports are answered and which of its exports are called, as JSON; and a host that
//! answers by a script.
#![tactic(auto)]

mod answers;
mod calls;
mod exports;
mod fault;
mod host;
mod json_value;
mod kept;
mod labels;
mod members;
mod places;
mod reading;
mod regular;
mod scalars;
mod script;
mod top;
mod unread;
mod values_fault;

pub use exports::ExportTypes;
pub use fault::ScriptFault;
pub use host::ScriptHost;
pub use kept::Answers;
pub use reading::{read_args, read_value};
pub use script::{Call, Calls, ExportType, Script};
pub use top::read_script;
pub use values_fault::ReadValueFault;
