//! What the reference host answers without the host, where neither a tree nor the scratch folder is read: clocks, the environment,
//! standard streams, pollables; and the rows and values that such answers are made of.
#![tactic(auto)]

mod clocks;
mod described;
mod environment;
mod names;
mod nodes;
mod passing;
mod pollables;
mod resources;
mod row;
mod stdio;
mod table;
mod values;

pub use clocks::{monotonic_row, wall_row};
pub use environment::environment_row;
pub use nodes::{bytes_from, entry_value, has_flag, hash_value, stat_value};
pub use passing::passed_variables;
pub use pollables::{block, poll, ready};
pub use row::{Effect, Row, fails, gives, gives_ok, moves, returns};
pub use stdio::{stderr_row, stdin_row, stdout_row, terminal_row};
pub use table::{Found, ListedTable};
pub use values::{
    bytes, closed, done, error, error_code, label, list, none, number, ok, pair, record, some, text,
};
