//! Texts inside a policy: which of its paths clash, networks, and bytes in hexadecimal.
#![tactic(auto)]

mod hex;
mod networks;
mod paths;

pub use hex::hex_bytes;
pub use networks::network_of;
pub use paths::Paths;
