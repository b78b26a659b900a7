//! What the reference host decides of a call before it is answered: whether the function asks the host, is denied or is answered
//! without the host; whether the rules on addresses refuse it; and whose error codes its result has. And its live handles: which number
//! a new one gets, its kind, and what it stands for.
#![tactic(auto)]

mod access;
mod addresses;
mod content;
mod denial;
mod held;
mod kinds;
mod live;
mod numbered;
mod part;

pub use access::{Access, function_access};
pub use addresses::refused;
pub use content::{Content, Handle};
pub use denial::{Denial, Errors, call_denial, errors_of, is_answered};
pub use live::LiveHandles;
pub use part::{Part, bits_of, id_of, number_of, part_at, text_of};
