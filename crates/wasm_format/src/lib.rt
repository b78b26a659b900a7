//! Formats: how values are spelled in bytes, and readers and writers of them.
#![tactic(auto)]

mod literal;
mod names;
mod numbers;
mod put;
mod reader;
mod sections;
mod stop;
mod trim;
mod until;
mod writer;

pub use literal::{expect_bytes, expect_tag, next_is_tag};
pub use names::{ByteLists, Names, take_name, take_sized};
pub use numbers::{S32, S33Index, S64, U32};
pub use put::{put_byte, put_bytes};
pub use reader::{CountedVecs, Reader, Sized, Spanned, Spanning, Vecs};
pub use sections::{Building, read_sections, read_to_the_end};
pub use stop::Stop;
pub use trim::trimmed;
pub use until::{Walk, read_until};
pub use writer::Writer;
