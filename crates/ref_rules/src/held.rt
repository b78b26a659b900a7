//! How many live handles hold each scratch file open.

ghost use Rattle.std.specs.Prelude.{◌≡◌, ◌+◌, ◌-◌, ◌<◌, ◌≤◌, ◌^◌, ℕ, Some, true, IfOk, length, replicate, get_or, slice_set};
ghost use Rattle.ref_rules.specs.Contents.{open_file};
ghost use Rattle.ref_rules.specs.Lives.{is_inside};
ghost use Rattle.ref_rules.specs.Holding.{more_open, less_open};

use crate::content::Content;
use std::alloc::Global;
use virt_base::NoMemory;

/// That many zeros.
pub fn zeros(alloc: Global, count: usize) -> Result<Vec<u32>, NoMemory>
    ensures { IfOk result (λ v. v.items ≡ replicate count 0) }
{
    Ok(vec![in alloc; 0; count]?)
}

/// One handle more holds the file of this content, if it holds one.
pub fn note_opened(held: &mut Vec<u32>, content: Content)
    requires inside { is_inside (length held.old.items) content ≡ true }
    requires few { (file : ℕ) → open_file content ≡ Some file → get_or held.old.items file 0 + 1 < 2 ^ 32 }
    ensures { held.new.items ≡ more_open held.old.items (open_file content) }
{
    if let Some(file) = content.open_file() {
        held[file as usize] += 1;
    }
}

/// One handle less holds it.
pub fn note_closed(held: &mut Vec<u32>, content: Content)
    requires inside { is_inside (length held.old.items) content ≡ true }
    requires some { (file : ℕ) → open_file content ≡ Some file → 0 < get_or held.old.items file 0 }
    ensures { held.new.items ≡ less_open held.old.items (open_file content) }
{
    if let Some(file) = content.open_file() {
        held[file as usize] -= 1;
    }
}
