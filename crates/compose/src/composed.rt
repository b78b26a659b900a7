//! What is composed: the bytes that stand before and after those of the application.

/// What an output has before and after the application's bytes, and how many functions of the host it imports.
#[derive(Drop)]
pub struct Composed {
    pub front: Vec<u8>,
    pub back: Vec<u8>,
    pub needed: u32,
}
