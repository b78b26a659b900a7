//! The row of each listed function: what the adapter does at its call under a policy, before the host is asked and after it. And the
//! static data that rows read, and how the adapter's memory is cut.
#![tactic(auto)]

mod contents;
mod descriptors;
mod dispatch;
mod function_row;
mod image;
mod limits;
mod making;
mod names;
mod sound;
mod streams;

pub use contents::{Contents, Family};
pub use function_row::{Source, row};
pub use image::{Image, RowsFault, cut, make_image};
pub use making::rows_for;
pub use sound::is_sound;
