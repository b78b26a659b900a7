//! New numbers for resources, given in order, and the substitution that puts them in place of the old ones.

ghost use Rattle.std.specs.Prelude.{◌≡◌, ◌+◌, ◌++◌, ◌∷◌, [], List, ℕ, IfOk, OnOk, length};
ghost use Rattle.comp_types.specs.Added.{new_numbers};
ghost use Rattle.comp_types.specs.GivenResources.{numbered};
ghost use Rattle.comp_instances.specs.Pairs.{FindAlike};

use comp_types::Substitution;
use std::alloc::Global;
use virt_base::{Items, NoMemory};

/// Pairs of resources with their partners, the new numbers among these, and the next number after them.
#[derive(Drop)]
pub struct Fresh {
    pub by: Substitution,
    pub numbers: Items<u32>,
    pub next: u32,
}

/// Gives a resource the next number: `NoMemory` also where there is none after it.
fn give_number(fresh: &mut Fresh, resource: u32) -> Result<(), NoMemory>
    ensures by { OnOk result (FindAlike fresh.new.by (fresh.old.by ++ (resource, fresh.old.next) ∷ [])) }
    ensures numbers { OnOk result (fresh.new.numbers ≡ fresh.old.numbers ++ fresh.old.next ∷ []) }
    ensures next { OnOk result (fresh.new.next ≡ fresh.old.next + 1) }
{
    let Some(next) = fresh.next.checked_add(1) else {
        return Err(NoMemory);
    };
    fresh.by.push(resource, fresh.next)?;
    fresh.numbers.push(fresh.next)?;
    fresh.next = next;
    Ok(())
}

/// Gives each of these resources a new number, from the next one on; `by` has the pairs of others.
pub fn give_numbers(
    alloc: Global,
    by: Substitution,
    own: &[u32],
    next: u32,
) -> Result<Fresh, NoMemory>
    ensures by { IfOk result (λ fresh. FindAlike fresh.by (by ++ numbered own.now next)) }
    ensures numbers { IfOk result (λ fresh. fresh.numbers ≡ new_numbers (numbered own.now next)) }
    ensures next { IfOk result (λ fresh. fresh.next ≡ next + length (numbered own.now next)) }
{
    let mut fresh = Fresh {
        by,
        numbers: Items::empty(alloc),
        next,
    };
    for resource in own {
        give_number(&mut fresh, *resource)?;
    }
    Ok(fresh)
}
