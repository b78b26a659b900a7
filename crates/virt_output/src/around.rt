//! The output of an application that imports nothing, as what stands before its bytes and what stands after them.

ghost use Rattle.std.specs.Prelude.{◌≡◌, ◌≤◌, ◌++◌, ℕ, List, length, IfOk};
ghost use Rattle.comp_grammar.specs.Trees.{Tree};
ghost use Rattle.comp_write.specs.Copying.{SpellsBare};
ghost use Rattle.virt_output.specs.Output.{output_tree};
ghost use Rattle.virt_output.specs.Bytes.{front_bytes, Surrounds};

use crate::back::back;
use crate::items::{MOST, can_be_named};
use crate::{PieceFault, put_component_head, start_component};
use comp_types::InstanceEntries;
use std::alloc::Global;
use virt_base::NoMemory;

/// What an output has before and after the application's bytes.
#[derive(Drop)]
pub struct Around {
    pub front: Vec<u8>,
    pub back: Vec<u8>,
}

fn front(alloc: Global, size: u32) -> Result<Vec<u8>, NoMemory>
    ensures { IfOk result (λ out. out.items ≡ front_bytes size) }
{
    let mut out = start_component(alloc)?;
    put_component_head(alloc, &mut out, size)?;
    Ok(out)
}

/// What stands around an application of that many bytes that imports nothing and exports these: it stands as it is in a section of its
/// own, after it its instance, and where it exports something an alias and an export of each of its exports. The application's bytes
/// need not be in memory.
///
/// `TooLong` exactly where a size of 32 bits cannot say how long the application, a section of items or a name is, or how many
/// exports there are.
pub fn write_around(
    alloc: Global,
    size: usize,
    exports: &InstanceEntries,
) -> Result<Around, PieceFault>
    ensures written { Surrounds size exports.now result }
    ensures few { IfOk result (λ around. length around.front.items ≤ 14) }
    ensures spelled { IfOk result (λ around. (t : Tree) → (app : List ℕ) → length app ≡ size → SpellsBare 0 t app → SpellsBare 0 (output_tree t exports.now) (around.front.items ++ (app ++ around.back.items))) }
{
    let entries = exports.as_slice();
    if size > MOST {
        return Err(PieceFault::TooLong);
    }
    if !can_be_named(entries) {
        return Err(PieceFault::TooLong);
    }
    let front = front(alloc, size as u32)?;
    let back = back(alloc, entries)?;
    Ok(Around { front, back })
}
