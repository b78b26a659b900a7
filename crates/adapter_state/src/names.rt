//! The names of imports and exports that have the number of a kind in them.

ghost use Rattle.std.specs.Prelude.{◌≡◌, ◌++◌, IfOk, codes};
ghost use Rattle.std.specs.Fmt.{decimal};

use std::alloc::Global;
use virt_base::{NoMemory, Text};

pub fn drop_name(alloc: Global, kind: u8) -> Result<Text, NoMemory>
    ensures { IfOk result (λ name. name ≡ codes "drop-" ++ decimal kind) }
{
    Ok(Text::from_string(format!(in alloc; "drop-{kind}")?))
}

pub fn free_name(alloc: Global, kind: u8) -> Result<Text, NoMemory>
    ensures { IfOk result (λ name. name ≡ codes "free-" ++ decimal kind) }
{
    Ok(Text::from_string(format!(in alloc; "free-{kind}")?))
}
