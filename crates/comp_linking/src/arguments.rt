//! Copies of what core instances and instances are made of.

ghost use Rattle.std.specs.Prelude.{◌≡◌, IfOk};
ghost use Rattle.comp_link.specs.Plans.{named_args, named_by};
ghost use Rattle.comp_link.specs.Planned.{args_named, item_named};
ghost use Rattle.comp_types.specs.Spaces.{Space};
ghost use Rattle.comp_scopes.specs.Stands.{Stands};

use crate::resources::resource_at;
use comp_link::{ItemAt, PlanArg};
use comp_scopes::Scope;
use std::alloc::Global;
use virt_base::{Items, NoMemory};
use wasm_ast::{CoreArg, CoreExport, NamedItem, Sort};

fn copy_core_arg(alloc: Global, arg: &CoreArg) -> Result<CoreArg, NoMemory>
    ensures { IfOk result (λ copy. copy ≡ arg.now) }
{
    let name = arg.name.copy(alloc)?;
    Ok(CoreArg {
        name,
        instance: arg.instance,
    })
}

/// A copy of a module's arguments.
pub fn copy_core_args(alloc: Global, args: &[CoreArg]) -> Result<Items<CoreArg>, NoMemory>
    ensures { IfOk result (λ copy. copy ≡ args.now) }
{
    let mut list = Vec::new(alloc);
    for arg in args {
        let copy = copy_core_arg(alloc, arg)?;
        list.push(copy)?;
    }
    Ok(Items::new(list))
}

fn copy_core_export(alloc: Global, export: &CoreExport) -> Result<CoreExport, NoMemory>
    ensures { IfOk result (λ copy. copy ≡ export.now) }
{
    let name = export.name.copy(alloc)?;
    Ok(CoreExport {
        name,
        sort: export.sort,
        index: export.index,
    })
}

/// A copy of the items of a core instance.
pub fn copy_core_exports(
    alloc: Global,
    exports: &[CoreExport],
) -> Result<Items<CoreExport>, NoMemory>
    ensures { IfOk result (λ copy. copy ≡ exports.now) }
{
    let mut list = Vec::new(alloc);
    for export in exports {
        let copy = copy_core_export(alloc, export)?;
        list.push(copy)?;
    }
    Ok(Items::new(list))
}

/// What is named by an index.
pub fn item_at(scope: &Scope, sort: Sort, index: u32) -> ItemAt
    ensures { (s : Space) → Stands s scope.now → item_named result ≡ named_by s sort index }
{
    match sort {
        Sort::Func => ItemAt::Func(index),
        Sort::Instance => ItemAt::Instance(index),
        Sort::Type => match resource_at(scope, index) {
            None => ItemAt::Type,
            Some(resource) => ItemAt::Resource(resource),
        },
    }
}

/// An argument.
fn named_arg(alloc: Global, scope: &Scope, named: &NamedItem) -> Result<PlanArg, NoMemory>
    ensures name { IfOk result (λ arg. arg.name ≡ named.now.name) }
    ensures item { IfOk result (λ arg. (s : Space) → Stands s scope.now → item_named arg.item ≡ named_by s named.now.sort named.now.index) }
{
    let name = named.name.copy(alloc)?;
    let item = item_at(scope, named.sort, named.index);
    Ok(PlanArg { name, item })
}

/// Arguments in order.
pub fn named_args(
    alloc: Global,
    scope: &Scope,
    items: &[NamedItem],
) -> Result<Items<PlanArg>, NoMemory>
    ensures { IfOk result (λ args. (s : Space) → Stands s scope.now → args_named args ≡ named_args s items.now) }
{
    let mut args = Vec::new(alloc);
    for item in items {
        let arg = named_arg(alloc, scope, item)?;
        args.push(arg)?;
    }
    Ok(Items::new(args))
}
