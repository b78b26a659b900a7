//! Rows of the adapter that equal the reference host's.
#![tactic(auto)]

mod clock_rows;
mod environment_rows;
mod socket_rows;
mod stream_rows;

pub use clock_rows::{fixed_now_equals, fixed_wall_now_equals, fixed_wall_resolution_equals};
pub use environment_rows::given_arguments_equal;
pub use socket_rows::{
    finish_listen_equals, hop_limit_equals, keep_alive_enabled_equals, receive_buffer_size_equals,
};
pub use stream_rows::{check_write_equals, ignored_stdout_equals};
