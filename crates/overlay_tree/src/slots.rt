//! The numbers of files: which is free, which has a name, and how many blocks the files take together.

ghost use Rattle.std.specs.Prelude.{◌≡◌, ◌<◌, ◌^◌, None, IfOk, IfSome, length, position, is_none, replicate};
ghost use Rattle.overlay_tree.specs.Pieces.{blocks_in, is_named};

use crate::slot::Slot;
use std::alloc::Global;
use virt_base::NoMemory;

/// That many numbers without files.
pub fn free_slots(alloc: Global, count: u32) -> Result<Vec<Slot>, NoMemory>
    ensures { IfOk result (λ slots. slots.items ≡ replicate count None) }
{
    let mut slots = Vec::with_capacity(alloc, count as usize)?;
    for _ in 0..count {
        slots.push_reserved(Slot::new(alloc)?);
    }
    Ok(slots)
}

/// How many blocks files take.
pub fn blocks_in(slots: &[Slot]) -> usize
    requires { blocks_in slots.now < 2 ^ 48 }
    ensures { result ≡ blocks_in slots.now }
{
    let mut sum = 0;
    for slot in slots {
        sum += slot.blocks();
    }
    sum
}

/// The number of the file of a name.
pub fn place_named(slots: &[Slot], name: &[u8]) -> Option<usize>
    ensures place { result ≡ position (is_named name.now) slots.now }
    ensures bound { IfSome result (λ place. place < length slots.now) }
{
    slots.iter().position(|slot| slot.is_named(name))
}

/// The least number without a file.
pub fn place_free(slots: &[Slot]) -> Option<usize>
    ensures place { result ≡ position is_none slots.now }
    ensures bound { IfSome result (λ place. place < length slots.now) }
{
    slots.iter().position(|slot| slot.is_free())
}
