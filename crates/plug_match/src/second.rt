//! The imports of the second component, matched one after another: each is met by the first or asked of the host, and its exports are asked
//! last.

ghost use Rattle.std.specs.Prelude.{◌≡◌, IfOk};
ghost use Rattle.std.specs.List.{list_any};
ghost use Rattle.comp_types.specs.Views.{item_of, entries_of};
ghost use Rattle.plug_match.specs.Steps.{Came};
ghost use Rattle.plug_match.specs.Walk.{is_met, second_step};
ghost use Rattle.plug_match.specs.Answers.{AnswersSecond};

use crate::fault::SecondFault;
use crate::first::First;
use crate::hosted::host_step;
use crate::met::met_step;
use crate::source::{Plugging, Second, Source};
use comp_signature::ComponentType;
use comp_types::{InstanceEntries, InstanceEntry, ItemType, Substitution};
use std::alloc::Global;
use virt_base::{Items, NoMemory};
use wasi_match::{Cause, first_with_handle};

/// One import more: the first meets it where it exports an instance of that name, else the host.
fn second_step(
    alloc: Global,
    first: &First,
    given: &InstanceEntries,
    plugging: &mut Plugging,
    import: &InstanceEntry,
) -> Result<Option<Cause>, NoMemory>
    ensures { IfOk result (λ cause. Came cause plugging.new (second_step first.now given.now plugging.old import.now.name (item_of import.now.ty))) }
{
    match given.look_up(&import.name) {
        Some(ItemType::Instance(instance)) => {
            let cause = met_step(alloc, &first.kinds, plugging, instance, &import.ty)?;
            Ok(cause)
        }
        _ => {
            let cause = host_step(alloc, first.uses.as_slice(), plugging, import)?;
            Ok(cause)
        }
    }
}

fn is_met(source: &Source) -> bool
    ensures { result ≡ is_met source.now }
{
    match source {
        Source::Met => true,
        Source::Host(_) => false,
    }
}

fn has_met(sources: &[Source]) -> bool
    ensures { result ≡ list_any is_met sources.now }
{
    sources.iter().any(|s| is_met(s))
}

/// Where imports come from, and whether the first meets one of them; the exports are asked last.
fn match_sources(
    alloc: Global,
    first: &First,
    given: &InstanceEntries,
    imports: &[InstanceEntry],
    exports: &InstanceEntries,
) -> Result<Second, SecondFault>
    ensures { AnswersSecond first.now given.now (entries_of imports.now) exports.now result }
{
    let mut plugging = Plugging {
        sources: Items::empty(alloc),
        by: Substitution::empty(alloc),
        own: Substitution::empty(alloc),
    };
    for i in 0..imports.len() {
        if let Some(cause) = second_step(alloc, first, given, &mut plugging, &imports[i])? {
            return Err(SecondFault::Refused(cause, imports[i].name.copy(alloc)?));
        }
    }
    if !has_met(plugging.sources.as_slice()) {
        return Err(SecondFault::NothingMet);
    }
    match first_with_handle(exports) {
        None => Ok(Second {
            sources: plugging.sources,
        }),
        Some(name) => Err(SecondFault::Refused(Cause::HandleExport, name.copy(alloc)?)),
    }
}

/// Where each import of the second component comes from: met by an instance that the first exports, or by the host. What is at fault
/// first, where the components can't be plugged.
pub fn match_second(
    alloc: Global,
    first: &First,
    given: &InstanceEntries,
    ty: &ComponentType,
) -> Result<Second, SecondFault>
    ensures { AnswersSecond first.now given.now ty.now.imports ty.now.exports result }
{
    match_sources(alloc, first, given, ty.imports.as_slice(), &ty.exports)
}
