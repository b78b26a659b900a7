//! Bytes of which parts are replaced in place.

ghost use Rattle.std.specs.Prelude.{◌≡◌, ◌+◌, ◌≤◌, length, replicate, IfOk};
ghost use Rattle.std.specs.List.{splice};

use std::alloc::Global;
use virt_base::NoMemory;

/// That many zeros.
pub fn zero_bytes(alloc: Global, len: usize) -> Result<Vec<u8>, NoMemory>
    ensures { IfOk result (λ v. v.items ≡ replicate len 0) }
{
    let bytes: Vec<u8> = vec![in alloc; 0; len]?;
    Ok(bytes)
}

/// Replaces the bytes from a place on.
pub fn write(bytes: &mut Vec<u8>, at: usize, new: &[u8])
    requires { at + length new.now ≤ length bytes.old.items }
    ensures { bytes.new.items ≡ splice bytes.old.items at (at + length new.now) new.now }
{
    bytes[at..at + new.len()].copy_from_slice(new);
}

/// Sets that many bytes from a place on to zero.
pub fn clear(bytes: &mut Vec<u8>, at: usize, len: usize)
    requires { at + len ≤ length bytes.old.items }
    ensures { bytes.new.items ≡ splice bytes.old.items at (at + len) (replicate len 0) }
{
    bytes[at..at + len].fill(0);
}
