//! Copies of labels, since the types of flags and enumerations own theirs.

ghost use Rattle.std.specs.Prelude.{◌≡◌, IfOk};

use std::alloc::Global;
use virt_base::{Items, NoMemory, Text};
use wit_types::Labels;

/// Equal labels.
pub fn copy_labels(alloc: Global, labels: &[Text]) -> Result<Labels, NoMemory>
    ensures { IfOk result (λ copy. copy ≡ labels.now) }
{
    let mut copy = Items::empty(alloc);
    let mut rest = labels;
    while let Some((label, more)) = rest.split_first() {
        copy.push(label.copy(alloc)?)?;
        rest = more;
    }
    Ok(copy)
}
