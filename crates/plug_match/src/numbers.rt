//! The numbers of resources in the whole: those that come from the host have the numbers of their kinds, and the first component's own
//! follow.

ghost use Rattle.std.specs.Prelude.{◌≡◌, IfOk, OnOk, drop};
ghost use Rattle.comp_types.specs.Matching.{GoesOn};
ghost use Rattle.plug_match.specs.Numbers.{number_of, handed_on, with_pairs};

use comp_types::Substitution;
use virt_base::NoMemory;

/// The number in the whole of the first component's resource 0, if that is its own: it stands after the kinds.
pub const FIRST_OWN: u32 = 14;

/// The number in the whole of a resource of the first. No component has that many that the numbers end.
fn number_of(kinds: &Substitution, resource: u32) -> Result<u32, NoMemory>
    ensures { IfOk result (λ number. number ≡ number_of kinds.now resource) }
{
    match kinds.partner_of(resource) {
        Some(kind) => Ok(kind),
        None => match FIRST_OWN.checked_add(resource) {
            Some(number) => Ok(number),
            None => Err(NoMemory),
        },
    }
}

/// Gives each resource of the second the number of its partner in the first.
pub fn hand_on(
    kinds: &Substitution,
    by: &mut Substitution,
    pairs: &Substitution,
) -> Result<bool, NoMemory>
    ensures { IfOk result (λ same. GoesOn same by.new (handed_on kinds.now by.old pairs.now)) }
{
    for i in 0..pairs.len() {
        let (resource, partner) = pairs.pair(i);
        let number = number_of(kinds, partner)?;
        if !by.meet(resource, number)? {
            return Ok(false);
        }
    }
    Ok(true)
}

/// Adds those of the pairs that stand after the first ones.
pub fn add_behind(own: &mut Substitution, by: &Substitution, first: usize) -> Result<(), NoMemory>
    ensures { OnOk result (own.new ≡ with_pairs own.old (drop first by.now)) }
{
    for i in first..by.len() {
        let (resource, kind) = by.pair(i);
        own.push(resource, kind)?;
    }
    Ok(())
}
