//! A component instance that runs: its core code with the calls in progress, its handles, the exchange of a value's handles with its
//! table, its two flags, and what is done to it by itself; values lifted out of it and stored into it; and where calls lead (Component
//! Model, CanonicalABI.md, `ComponentInstance`, `lift_own`, `lift_borrow`, `lower_own`, `lower_borrow`; the order of the tests and the two
//! flags are this project's own).
#![tactic(auto)]

mod call_type;
mod calls;
mod canon;
mod exchange;
mod fault;
mod handles;
mod import;
mod instance;
mod lifting;
mod loan;
mod lowering;
mod options;
mod owners;
mod passed_func;
mod passed_type;
mod ranges;
mod runs;
mod target;

pub use call_type::CallType;
pub use canon::Canon;
pub use exchange::{Room, exchange_in, exchange_out};
pub use fault::HandleFault;
pub use handles::Handles;
pub use import::Import;
pub use instance::Instance;
pub use lifting::lift;
pub use loan::Loan;
pub use lowering::{lower_params, lower_result};
pub use options::CallOptions;
pub use owners::{Owner, Owners};
pub use passed_func::PassedFunc;
pub use passed_type::PassedType;
pub use runs::CoreRuns;
pub use target::{Lifting, Target};
