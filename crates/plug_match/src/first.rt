//! What the first component asks of the host: its imports, matched with the listed interfaces one after another. Its exports may hold
//! handles.

ghost use Rattle.std.specs.Prelude.{◌≡◌, ◌<◌, IfOk, nat_eq, Some};
ghost use Rattle.std.specs.List.{list_any};
ghost use Rattle.comp_types.specs.Views.{item_of, entries_of};
ghost use Rattle.wasi_match.specs.VersionsViews.{plain_name};
ghost use Rattle.wasi_match.specs.Listed.{interfaces};
ghost use Rattle.plug_match.specs.Steps.{Came};
ghost use Rattle.plug_match.specs.FirstWalk.{FirstAtFault, first_use, first_step};
ghost use Rattle.plug_match.specs.Answers.{AnswersFirst, AnswersAlone, first_fault};

use crate::hosted::fit;
use comp_signature::ComponentType;
use comp_types::{InstanceEntry, InstanceType, ItemType, Substitution};
use std::alloc::Global;
use virt_base::{Items, NoMemory, Text};
use wasi_listed::INTERFACES;
use wasi_match::{Cause, ListedName, ListedUse, ListedUses, MatchFault, are_apart, listed_name};

/// What the first component asks of the host.
#[derive(Debug, Drop)]
pub struct First {
    /// Its imports in written order.
    pub uses: ListedUses,
    /// Those of its resources that come from the host, each with its kind.
    pub kinds: Substitution,
}

fn has_use(uses: &[ListedUse], interface: u32) -> bool
    ensures { result ≡ list_any (λ u. nat_eq interface u.interface) uses.now }
{
    uses.iter().any(|u| interface == u.interface)
}

/// Whether one of these is an import of the interface.
fn is_used(uses: &[ListedUse], interface: u32) -> bool
    ensures { result ≡ list_any (nat_eq interface) (interfaces uses.now) }
{
    has_use(uses, interface)
}

/// One import more of an interface; what is at fault with it, if something is.
fn add_use(
    alloc: Global,
    first: &mut First,
    name: ListedName<'_>,
    instance: &InstanceType,
) -> Result<Option<Cause>, NoMemory>
    requires { name.interface < INTERFACES }
    ensures { IfOk result (λ cause. Came cause first.new (first_use first.old (plain_name name.entry) instance.now.entries)) }
{
    if is_used(first.uses.as_slice(), name.interface) {
        return Ok(Some(Cause::TwoVersions));
    }
    let Some(functions) = fit(alloc, &mut first.kinds, name.interface, &instance.entries)? else {
        return Ok(Some(Cause::WrongType));
    };
    if !are_apart(alloc, &first.kinds)? {
        return Ok(Some(Cause::WrongType));
    }
    let version = Text::from_str(alloc, name.version)?;
    first.uses.push(ListedUse {
        interface: name.interface,
        version,
        functions,
    })?;
    Ok(None)
}

/// One import more; what is at fault with it, if something is.
fn add_import(
    alloc: Global,
    first: &mut First,
    import: &InstanceEntry,
) -> Result<Option<Cause>, NoMemory>
    ensures { IfOk result (λ cause. Came cause first.new (first_step first.old import.now.name (item_of import.now.ty))) }
{
    let Some(name) = listed_name(import.name.as_str()) else {
        return Ok(Some(Cause::Unlisted));
    };
    match &import.ty {
        ItemType::Func(_) => Ok(Some(Cause::Unlisted)),
        ItemType::Kind(_) => Ok(Some(Cause::Unlisted)),
        ItemType::Instance(instance) => {
            let cause = add_use(alloc, first, name, instance)?;
            Ok(cause)
        }
    }
}

fn fault_at(cause: Cause, name: Text) -> MatchFault
    ensures { first_fault result ≡ Some (FirstAtFault cause name) }
{
    match cause {
        Cause::Unlisted => MatchFault::Unlisted(name),
        Cause::TwoVersions => MatchFault::TwoVersions(name),
        Cause::WrongType => MatchFault::WrongType(name),
        Cause::HandleExport => MatchFault::HandleExport(name),
    }
}

/// Matches imports with the listed interfaces, in order.
fn match_uses(alloc: Global, imports: &[InstanceEntry]) -> Result<First, MatchFault>
    ensures { AnswersFirst (entries_of imports.now) result }
{
    let mut first = First {
        uses: Items::empty(alloc),
        kinds: Substitution::empty(alloc),
    };
    for i in 0..imports.len() {
        if let Some(cause) = add_import(alloc, &mut first, &imports[i])? {
            return Err(fault_at(cause, imports[i].name.copy(alloc)?));
        }
    }
    Ok(first)
}

/// Matches the imports of the first component with the listed interfaces, in order; its exports are not asked.
pub fn match_first(alloc: Global, ty: &ComponentType) -> Result<First, MatchFault>
    ensures walked { AnswersFirst ty.now.imports result }
    ensures listed { AnswersAlone ty.now.imports result }
{
    match_uses(alloc, ty.imports.as_slice())
}
