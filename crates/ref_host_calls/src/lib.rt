//! Calls of the reference host that it hands on to the host which is asked: with the host's numbers in place of the application's,
//! and what is made of the answer. Own handles of an answer enter as live handles that stand for the host's; a drop of such a handle
//! drops the host's, and `get-directories` gives the host's folders on before its own.
#![tactic(auto)]

mod arguments;
mod asking;
mod dropping;
mod giving;
mod numbers;
mod offering;
mod offers;
mod own;
mod request;
mod theirs;
mod top;

pub use asking::{ask, ask_host, ask_variables};
pub use dropping::drop_live;
pub use giving::{is_light_list, value_of};
pub use offers::{Folder, Folders};
pub use request::Request;
pub use top::{ask_folders, own_folders};
