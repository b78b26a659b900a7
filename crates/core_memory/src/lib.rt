//! Linear memories, as pages that are made at the first write.
#![tactic(auto)]

mod bulk;
mod fault;
mod memory;
mod number;
mod page;
mod pages;
mod reading;

pub use fault::StoreFault;
pub use memory::Memory;
