//! Whether the resources of the imports stand apart: each is taken for a kind, and no two for the same one.

ghost use Rattle.std.specs.Prelude.{◌≡◌, [], is_some, IfOk};
ghost use Rattle.wasi_match.specs.Kinds.{turned};

use comp_types::Substitution;
use std::alloc::Global;
use virt_base::NoMemory;

/// Whether no two resources have one kind.
pub fn are_apart(alloc: Global, by: &Substitution) -> Result<bool, NoMemory>
    ensures { IfOk result (λ apart. apart ≡ is_some (turned [] by.now)) }
{
    let mut back = Substitution::empty(alloc);
    for i in 0..by.len() {
        let (resource, kind) = by.pair(i);
        if !back.meet(kind, resource)? {
            return Ok(false);
        }
    }
    Ok(true)
}
