//! An instance that an instantiation made, before it is added.

use comp_types::InstanceType;
use std::rc::Rc;

/// An instance that was made, and the next number after its resources.
#[derive(Drop)]
pub struct Made {
    pub instance: Rc<InstanceType>,
    pub next: u32,
}
