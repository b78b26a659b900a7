//! What is found of a description before it is added: the rules are asked in between.

use comp_types::ItemType;
use virt_base::Items;

/// What a description describes, the numbers of its new resources, and the next number after them.
#[derive(Drop)]
pub struct Described {
    pub item: ItemType,
    pub numbers: Items<u32>,
    pub next: u32,
}
