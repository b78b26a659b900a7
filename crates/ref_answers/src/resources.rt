//! The kinds of resources by their names, and the interfaces that define them.

ghost use Rattle.std.specs.Prelude.{◌≡◌, ◌<◌, ◌++◌, ◌∷◌, IfOk, IfSome, slice_index_or};
ghost use Rattle.std.specs.List.{list_any};
ghost use Rattle.std.specs.Str.{bytes_eq};
ghost use Rattle.wasi_table.specs.Plain.{plain_interface};
ghost use Rattle.wasi_table.specs.Types.{kind_of};
ghost use Rattle.reference_step.specs.Listed.{homes, stands_in};
ghost use Rattle.ref_answers.specs.Versions.{kind_name};

use std::alloc::Global;
use virt_base::{NoMemory, Text};
use wasi_table::{Interface, KINDS, NamedType, Use};

/// The number of the interface that defines each kind.
const HOMES: [u32; 14] = [0, 1, 2, 2, 8, 9, 18, 18, 20, 22, 23, 25, 25, 25];

fn is_defined(types: &[NamedType], name: &str) -> bool
    ensures { result ≡ list_any (λ t. bytes_eq t.name name.now) types.now }
{
    types.iter().any(|t| t.name.as_str() == name)
}

fn is_used(uses: &[Use], name: &str) -> bool
    ensures { result ≡ list_any (λ u. bytes_eq u.name name.now) uses.now }
{
    uses.iter().any(|u| u.name.as_str() == name)
}

/// Whether a name stands in an interface, as its own or as one that it uses.
pub fn stands_in(name: &str, interface: &Interface) -> bool
    ensures { result ≡ stands_in name.now (plain_interface interface.now) }
{
    is_defined(interface.types.as_slice(), name) || is_used(interface.uses.as_slice(), name)
}

/// The number of a kind.
#[tactic(auto, using(crate::proofs::KindLaws::kind_below))]
pub fn kind_named(name: &str) -> Option<u32>
    ensures value { result ≡ kind_of name.now }
    ensures bound { IfSome result (λ kind. kind < 14) }
{
    wasi_table::kind_of(name)
}

/// The number of the interface that defines a kind.
pub fn home_of(kind: u32) -> u32
    requires { kind < 14 }
    ensures value { result ≡ slice_index_or homes kind 0 }
    ensures bound { result < 27 }
{
    HOMES[kind as usize]
}

/// The name of a kind.
pub fn name_of(kind: u32) -> &'static str
    requires { kind < 14 }
    ensures { result.now ≡ kind_name kind }
{
    KINDS[kind as usize]
}

/// The name of an interface with a version.
pub fn versioned(alloc: Global, name: &Text, version: &Text) -> Result<Text, NoMemory>
    ensures { IfOk result (λ text. text ≡ name.now ++ 64 ∷ version.now) }
{
    let mut chars = String::from_str(alloc, name.as_str())?;
    chars.push_str("@")?;
    chars.push_str(version.as_str())?;
    Ok(Text::from_string(chars))
}
