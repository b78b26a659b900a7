//! Lists that were read, in no more memory than their items take.

ghost use Rattle.std.specs.Prelude.{◌≡◌, IfOk};

use std::alloc::Global;
use virt_base::NoMemory;

/// Lists of fewer items are copied: what a block loses as it shrinks in place is too small to serve again.
const LONG: usize = 1024;

/// The same items, in no more memory than they take.
pub fn trimmed<T: Drop>(alloc: Global, mut items: Vec<T>) -> Result<Vec<T>, NoMemory>
    ensures { IfOk result (λ list. list.items ≡ items.items) }
{
    if items.len() < LONG && items.len() < items.capacity() {
        let mut whole = Vec::with_capacity(alloc, items.len())?;
        whole.append(&mut items)?;
        return Ok(whole);
    }
    items.shrink_to_fit();
    Ok(items)
}
