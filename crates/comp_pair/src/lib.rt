//! Two components in one: the first one's instance is given imports, the second one's what the first exports. The whole is put together
//! of the trees and the bytes of both, and its exports are compared with those of the second.
#![tactic(auto)]

mod assembled;
mod fault;
mod same;

pub use assembled::{Assembled, Front, assemble, front_of};
pub use fault::PairFault;
pub use same::same_exports;
