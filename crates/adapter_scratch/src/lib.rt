//! The rows of the scratch folder: routines that answer for it over the adapter's spare bytes, in which its files stand.
//!
//! The spare bytes begin with an entry of 272 bytes for each number that a file may have; after the entries stand the blocks. A file
//! that is not empty has a piece of whole blocks. Pieces stand in the order of the files' numbers and do not overlap; between them may
//! stand gaps, so that a piece grows in place while its gap lasts. Where it lasts no longer, all pieces are moved, each with an equal
//! gap after it. After the blocks stand three marks, by which handles of a file are sought. Bytes of zeros are the empty folder.
#![tactic(auto)]

mod body;
mod bytes;
mod descriptions;
mod entries;
mod file;
mod files;
mod full;
mod handles;
mod leading;
mod locals;
mod names;
mod naming;
mod numbers;
mod opening;
mod places;
mod renaming;
mod room;
mod root;
mod sharing;
mod sizes;
mod streams;
mod writing;

pub use body::scratch_body;
pub use entries::scratch_entries_body;
pub use places::{ScratchAt, spare_bytes};
pub use renaming::scratch_rename;
pub use streams::{scratch_in_body, scratch_out_body};
