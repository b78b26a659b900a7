//! An import that the first component meets.

ghost use Rattle.std.specs.Prelude.{◌≡◌, IfOk};
ghost use Rattle.comp_types.specs.Views.{item_of};
ghost use Rattle.comp_types.specs.Matching.{GoesOn};
ghost use Rattle.wasi_match.specs.Walk.{instance_in};
ghost use Rattle.plug_match.specs.Steps.{Came};
ghost use Rattle.plug_match.specs.Numbers.{met_by};
ghost use Rattle.plug_match.specs.Walk.{met_step};

use crate::matching::match_entries;
use crate::numbers::hand_on;
use crate::source::{Plugging, Source};
use comp_types::{InstanceEntries, InstanceType, ItemType, Substitution};
use std::alloc::Global;
use virt_base::NoMemory;
use wasi_match::Cause;

/// Whether an instance of the first has all that is asked for, with a number of the whole for each resource of the second.
fn meet_entries(
    alloc: Global,
    kinds: &Substitution,
    by: &mut Substitution,
    given: &InstanceEntries,
    asked: &InstanceEntries,
) -> Result<bool, NoMemory>
    ensures { IfOk result (λ same. GoesOn same by.new (met_by kinds.now by.old given.now asked.now)) }
{
    let mut pairs = Substitution::empty(alloc);
    if !match_entries(alloc, &mut pairs, given, asked.as_slice())? {
        return Ok(false);
    }
    let same = hand_on(kinds, by, &pairs)?;
    Ok(same)
}

/// One import more of the name of an instance of the first; what is at fault with it, if something is.
pub fn met_step(
    alloc: Global,
    kinds: &Substitution,
    plugging: &mut Plugging,
    given: &InstanceType,
    import: &ItemType,
) -> Result<Option<Cause>, NoMemory>
    ensures { IfOk result (λ cause. Came cause plugging.new (met_step kinds.now plugging.old given.now.entries (instance_in (item_of import.now)))) }
{
    match import {
        ItemType::Func(_) => Ok(Some(Cause::WrongType)),
        ItemType::Kind(_) => Ok(Some(Cause::WrongType)),
        ItemType::Instance(asked) => {
            if !meet_entries(
                alloc,
                kinds,
                &mut plugging.by,
                &given.entries,
                &asked.entries,
            )? {
                return Ok(Some(Cause::WrongType));
            }
            plugging.sources.push(Source::Met)?;
            Ok(None)
        }
    }
}
