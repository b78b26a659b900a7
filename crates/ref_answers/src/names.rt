//! The names of interfaces: before `@` the interface's, and after it the version.

#![tactic(auto)]

ghost use Rattle.std.specs.Prelude.{◌≡◌, ◌<◌, IfSome, length, position};
ghost use Rattle.std.specs.Str.{bytes_eq};
ghost use Rattle.reference_step.specs.Listed.{cut};

use wasi_table::Interface;

/// What stands before the first `@` of a name, and after it.
pub fn cut(name: &str) -> (&str, &str)
    ensures { (result.0.now, result.1.now) ≡ cut name.now }
{
    match name.split_once('@') {
        Some(parts) => parts,
        None => (name, ""),
    }
}

/// The place of the first interface with a name without version.
pub fn place_named(interfaces: &[Interface], name: &str) -> Option<usize>
    ensures value { result ≡ position (λ i. bytes_eq i.name name.now) interfaces.now }
    ensures bound { IfSome result (λ place. place < length interfaces.now) }
{
    interfaces.iter().position(|i| i.name.as_str() == name)
}
