//! Trees of folders, files and symbolic links; their table of nodes; and what a path leads to.
#![tactic(auto)]

mod entries;
mod links;
mod names;
mod nodes;
mod order;
mod ordered;
mod parts;
mod slot;
mod table;
mod walking;

pub use entries::{Entry, NamedTree, Names, Node, Trees};
pub use names::NameRead;
pub use nodes::Nodes;
pub use ordered::Entries;
pub use slot::NodeKind;
pub use table::{Table, child, content, contents_are_bytes, kind, name, place, root, target};
pub use walking::{WalkFault, walk, walk_by};
