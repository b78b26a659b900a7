//! Weight: the bytes of texts and lists in memory, each rounded up to 8, and what they leave of a limit.

ghost use Rattle.std.specs.Prelude.{◌≡◌, ◌≤◌, ◌<◌, ◌^◌, ◌-◌, ◌*◌, SomeIff};
ghost use Rattle.wit_types.specs.Layout.{align_to};
ghost use Rattle.reference_step.specs.Atoms.{atom_weight, weight};
ghost use Rattle.ref_guards.specs.Noted.{shown, shown_all};

use crate::atoms::Atom;

fn round_up(bytes: u128) -> u128
    requires { bytes < 2 ^ 97 }
    ensures value { result ≡ align_to bytes 8 }
{
    (bytes + 7) / 8 * 8
}

fn atom_weight(atom: Atom) -> u128
    ensures { result ≡ atom_weight (shown atom) }
{
    match atom {
        Atom::Text(bytes) => round_up(bytes as u128),
        Atom::Elements(count, size) => round_up(count as u128 * u128::from(size)),
        Atom::Handle(_, _) => 0,
    }
}

/// What is left of that many bytes when some are taken; none exactly where there are fewer.
fn left_without(left: u64, taken: u128) -> Option<u64>
    ensures { SomeIff result (taken ≤ left) (left - taken) }
{
    if taken <= u128::from(left) {
        Some(left - taken as u64)
    } else {
        None
    }
}

/// What is left of that many bytes after the weight of atoms; none exactly where they weigh more.
pub fn left_behind(noted: &[Atom], limit: u64) -> Option<u64>
    ensures { SomeIff result (weight (shown_all noted.now) ≤ limit) (limit - weight (shown_all noted.now)) }
{
    let mut left = limit;
    for atom in noted {
        left = left_without(left, atom_weight(*atom))?;
    }
    Some(left)
}

/// The same after that many elements of a size in a list.
pub fn left_behind_elements(count: usize, size: u32, limit: u64) -> Option<u64>
    ensures { SomeIff result (align_to (count * size) 8 ≤ limit) (limit - align_to (count * size) 8) }
{
    left_without(limit, round_up(count as u128 * u128::from(size)))
}
