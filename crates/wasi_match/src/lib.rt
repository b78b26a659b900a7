//! Imports against the listed interfaces: their names with versions, which component is listed, and of one that is not, what is at
//! fault first.
#![tactic(auto)]

mod entries;
mod exports;
mod fault;
mod imports;
mod kinds;
mod listed;
mod offered;
mod versions;

pub use entries::{match_entries, places};
pub use exports::first_with_handle;
pub use fault::{Cause, MatchFault};
pub use imports::{has_one_verdict, match_imports};
pub use kinds::are_apart;
pub use listed::{Listed, ListedUse, ListedUses};
pub use offered::{Offered, offer_of};
pub use versions::{ListedName, interface_named, is_version, listed_name};
