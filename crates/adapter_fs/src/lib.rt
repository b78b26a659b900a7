//! The rows of the adapter that read trees: the nodes of trees in the static data, the walk along a path, and the answers of
//! functions on a node, on a stream over a file and on the entries of a folder. What rows over other files share is in `shared`.
#![tactic(auto)]

mod finding;
mod names;
mod node_rows;
mod nodes;
mod path_rows;
mod put;
pub mod shared;
mod stream_rows;
mod walking;

pub use node_rows::{is_same_object, node_body};
pub use nodes::NodesAt;
pub use put::put_nodes;
pub use stream_rows::{entries_body, file_at_body};
pub use walking::{Found, Path, walk};
