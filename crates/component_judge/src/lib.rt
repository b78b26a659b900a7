//! What a component is read for: its file is fetched, and its bytes are read, validated and matched, before anything is made of it or
//! runs. So is the script that a component is run over. Here stand the limits and the refusals, the functions that can be called, and
//! the bytes of a component's code.
#![tactic(auto)]

mod application;
mod component;
mod fetching;
mod functions;
mod inputs;
mod laws;
mod limits;
mod modules;
mod refusal;
mod script;
mod types;
mod unready;
mod whole;

pub use application::{Application, judge_application};
pub use component::{Judged, judge_component, sound_component};
pub use fetching::fetch;
pub use functions::callable;
pub use inputs::{Fetched, Inputs, ListedInputs, fetch_inputs, fetch_listed, fetch_wrapped};
pub use laws::{has_one_verdict, one_refusal_of_bytes};
pub use limits::{APPLICATION_BYTES, Purpose};
pub use refusal::Refusal;
pub use script::{Scripted, judge_script};
pub use unready::Unready;
pub use whole::code_bytes;
