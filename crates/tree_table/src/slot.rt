//! What the table has for one node: numbers, and ranges of the table's bytes.

ghost use Rattle.std.specs.Prelude.{◌≡◌, ◌≤◌, ◌++◌, length, OnOk, IfOk, slice_range};

use virt_base::NoMemory;

/// What a node is.
#[derive(Debug, Clone, Copy, PartialEq, Eq)]
pub enum NodeKind {
    Folder,
    File,
    Link,
}

/// A range of the table's bytes.
#[derive(Debug, Clone, Copy)]
pub struct Span {
    pub from: usize,
    pub to: usize,
}

/// What the table keeps of a node: the place of its tree, its path's place in the tree's order, the number of its
/// folder, the range of its children, its name and its content.
#[derive(Debug, Clone, Copy)]
pub struct Slot {
    pub tree: u32,
    pub place: u32,
    pub parent: u32,
    pub from: u32,
    pub to: u32,
    pub name: Span,
    pub kind: NodeKind,
    pub content: Span,
}

/// The bytes of a span.
pub fn within(bytes: &[u8], span: Span) -> &[u8]
    requires ordered { span.from ≤ span.to }
    requires inside { span.to ≤ length bytes.now }
    ensures { result.now ≡ slice_range bytes.now span.from span.to }
{
    &bytes[span.from..span.to]
}

/// Puts more bytes at the end, and says where they are.
pub fn append(bytes: &mut Vec<u8>, more: &[u8]) -> Result<Span, NoMemory>
    ensures bytes { OnOk result (bytes.new.items ≡ bytes.old.items ++ more.now) }
    ensures from { IfOk result (λ span. span.from ≡ length bytes.old.items) }
    ensures to { IfOk result (λ span. span.to ≡ length bytes.new.items) }
{
    let from = bytes.len();
    bytes.extend_from_slice(more)?;
    Ok(Span {
        from,
        to: bytes.len(),
    })
}
