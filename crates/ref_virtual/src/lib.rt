//! What a function answers that is answered without the host: the row of its WIT name.
//!
//! `row_of` finds the interface and the method; what a method answers goes by what its first handle stands for: a node of a tree, a
//! listing of its folder, a stream from its file, a stream of nothing, or what is none of these. A name becomes a method once
//! (`method_named`, `stream_method_named`). Nothing of a tree can be changed; the scratch folder is changed in place.
#![tactic(auto)]

mod args;
mod beside;
mod bytes;
mod entries;
mod facts;
mod files;
mod files_rows;
mod filesystem;
mod interfaces;
mod leading;
mod methods;
mod named;
mod nodes;
mod opening;
mod others;
mod polling;
mod reading;
mod roots;
mod rows;
mod stream_methods;
mod streaming;
mod streams;
mod texts;
mod trees;

pub use args::{bytes_at, content_at, flags_at, number_at, text_at};
pub use entries::read_entry_row;
pub use facts::node_bytes;
pub use files_rows::{
    are_same_nodes, hash_at_row, hash_row, read_directory_row, read_row, readlink_row, stat_at_row,
    stat_row, stream_row, type_row,
};
pub use interfaces::{Handleless, Interface, handleless_row, interface_at};
pub use methods::{Change, Look, Method, Pair, method_named};
pub use nodes::node_row;
pub use opening::open_row;
pub use others::{is_next, listing_row, other_row};
pub use polling::poll_row;
pub use reading::{read_stream_row, skip_stream_row};
pub use rows::row_of;
pub use stream_methods::{InputMethod, OutputMethod, StreamMethod, stream_method_named};
pub use streaming::{discard_row, empty_input_row, file_input_row};
pub use trees::tables_agree;
