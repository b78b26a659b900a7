//! What every crate stands on: text, lists, faults, numbers in LEB128, and counted steps.
#![tactic(auto)]

mod byte;
mod core_type;
mod cursor;
mod fault;
mod items;
mod leb;
mod leb_write;
mod steps;
mod text;

pub use byte::next_byte;
pub use core_type::{CoreType, CoreTypes};
pub use cursor::Cursor;
pub use fault::{AppFault, NoMemory, Trap};
pub use items::{Bytes, Items, copy_bytes};
pub use leb::{LebFault, read_s32, read_s33, read_s64, read_u32};
pub use leb_write::{write_s64, write_u32};
pub use steps::Steps;
pub use text::{Text, TextFault};
