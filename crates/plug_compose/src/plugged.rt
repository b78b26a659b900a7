//! What plugging takes and makes: two components with their types and bytes, and the one that holds both.

use comp_signature::ComponentType;
use wasi_match::Listed;
use wasm_ast::Component;

/// One of two components: what its bytes spell, and its type.
#[derive(Drop)]
pub struct Half {
    pub component: Component,
    pub ty: ComponentType,
    pub bytes: Vec<u8>,
}

/// A component that holds two: its bytes, what they spell, its type, and what it asks of the host.
#[derive(Drop)]
pub struct Plugged {
    pub bytes: Vec<u8>,
    pub component: Component,
    pub ty: ComponentType,
    pub listed: Listed,
}
