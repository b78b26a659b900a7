//! The rows of the adapter but those of files: the environment, the standard streams, clocks, streams and pollables that stand for
//! nothing of the host, the folders that are given at the start, and the gate of the rules on addresses; and the static data that they
//! read.
#![tactic(auto)]

mod address_rules;
mod addresses;
mod clock_rows;
mod copying;
mod folders;
mod gates;
mod halves;
mod passed_names;
mod polling;
mod rule_bytes;
mod static_lists;
mod stream_rows;
mod variables;

pub use clock_rows::{monotonic_clock, wall_clock};
pub use folders::{filtered_directories, virtual_directories};
pub use gates::gate;
pub use polling::poll;
pub use static_lists::{IoData, NamedRoot, put_static};
pub use stream_rows::{always, closed, discard, empty_in, pollable_always, stdio, terminal};
pub use variables::{environment, filtered_environment};
