//! The reference host: a host that answers under a policy, over a host that is asked; what it keeps, and what it does at each call and
//! each drop; and the laws that what it knows of its state is kept.
#![tactic(auto)]

mod answering;
mod bytes;
mod calling;
mod dropping;
mod host;
mod kept;
mod performing;
mod sound;
mod state;
mod state_kept;
mod state_sound;
mod testing;
mod typed;
mod versions;
mod words;

pub use bytes::arguments_are_bytes;
pub use calling::answer_call;
pub use dropping::drop_handle;
pub use host::Referenced;
pub use kept::{rows_keep_files, told_rows_keep_files};
pub use sound::views_are_sound;
pub use state::State;
pub use state_kept::{Holding, Setting};
pub use typed::answers_are_typed;
pub use words::policy_has_words;
