//! Which functions, types and names an application's output imports under a policy, and what the world of its adapter is made of.
#![tactic(auto)]

mod borrows;
mod check;
mod functions;
mod kinds;
mod needs;
mod reach;
mod shown;
mod type_names;
mod world;

pub use check::are_needed;
pub use functions::{is_asked, is_needed_at, is_shut};
pub use kinds::can_be_host;
pub use needs::{NeededInterface, Needs, import_name, needs_of};
pub use reach::{describe_all, is_among, reach_function, reach_name};
pub use type_names::{TypeName, TypeNames};
pub use world::{World, WorldFunction, WorldImport, WorldType, world_of};
