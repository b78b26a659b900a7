//! Plans in words.

use crate::words::put;
use comp_link::{ItemAt, Linked, PlanArg, PlanItem};
use std::alloc::Global;
use std::test::Fail;
use virt_base::Text;
use wasm_ast::{CoreArg, CoreExport, CoreFunc, CoreSort, Sort};

fn core_sort(sort: CoreSort) -> &'static str {
    match sort {
        CoreSort::Func => "func",
        CoreSort::Table => "table",
        CoreSort::Memory => "memory",
        CoreSort::Global => "global",
    }
}

fn sort(sort: Sort) -> &'static str {
    match sort {
        Sort::Func => "func",
        Sort::Type => "type",
        Sort::Instance => "instance",
    }
}

fn core_args(alloc: Global, text: &mut String, args: &[CoreArg]) -> Result<(), Fail> {
    for arg in args {
        text.push(' ')?;
        text.push_str(arg.name.as_str())?;
        put(alloc, text, "=", &arg.instance)?;
    }
    Ok(())
}

fn core_exports(alloc: Global, text: &mut String, exports: &[CoreExport]) -> Result<(), Fail> {
    for export in exports {
        text.push(' ')?;
        text.push_str(export.name.as_str())?;
        text.push('=')?;
        text.push_str(core_sort(export.sort))?;
        put(alloc, text, " ", &export.index)?;
    }
    Ok(())
}

fn item_at(alloc: Global, text: &mut String, item: ItemAt) -> Result<(), Fail> {
    match item {
        ItemAt::Func(index) => put(alloc, text, "func ", &index),
        ItemAt::Instance(index) => put(alloc, text, "instance ", &index),
        ItemAt::Resource(number) => put(alloc, text, "resource ", &number),
        ItemAt::Type => Ok(text.push_str("type")?),
    }
}

fn args(alloc: Global, text: &mut String, args: &[PlanArg]) -> Result<(), Fail> {
    for arg in args {
        text.push(' ')?;
        text.push_str(arg.name.as_str())?;
        text.push('=')?;
        item_at(alloc, text, arg.item)?;
    }
    Ok(())
}

/// An item of an instance.
fn item_of(
    alloc: Global,
    text: &mut String,
    sort: &str,
    name: &Text,
    instance: u32,
) -> Result<(), Fail> {
    text.push_str(sort)?;
    text.push(' ')?;
    text.push_str(name.as_str())?;
    put(alloc, text, " of ", &instance)
}

/// A function that is lifted or lowered, and how many options it has.
fn canon(
    alloc: Global,
    text: &mut String,
    what: &str,
    func: u32,
    options: usize,
) -> Result<(), Fail> {
    put(alloc, text, what, &func)?;
    put(alloc, text, " with ", &options)?;
    text.push_str(" options")?;
    Ok(())
}

fn component(
    alloc: Global,
    text: &mut String,
    number: u32,
    first: u32,
    given: &[PlanArg],
) -> Result<(), Fail> {
    put(alloc, text, "component ", &number)?;
    put(alloc, text, " from ", &first)?;
    args(alloc, text, given)
}

/// A resource, with the function that destroys it.
fn new_resource(
    alloc: Global,
    text: &mut String,
    resource: u32,
    destructor: Option<u32>,
) -> Result<(), Fail> {
    put(alloc, text, "resource ", &resource)?;
    match destructor {
        Some(func) => put(alloc, text, " with ", &func),
        None => Ok(()),
    }
}

fn lowered(
    alloc: Global,
    text: &mut String,
    func: u32,
    options: usize,
    ty: &CoreFunc,
) -> Result<(), Fail> {
    canon(alloc, text, "lower ", func, options)?;
    put(alloc, text, " to ", &ty.params.len())?;
    put(alloc, text, " and ", &ty.results.len())
}

fn import(text: &mut String, name: &Text) -> Result<(), Fail> {
    text.push_str("import ")?;
    text.push_str(name.as_str())?;
    Ok(())
}

fn export(
    alloc: Global,
    text: &mut String,
    name: &Text,
    at: ItemAt,
    is_stated: bool,
) -> Result<(), Fail> {
    text.push_str("export ")?;
    text.push_str(name.as_str())?;
    text.push('=')?;
    item_at(alloc, text, at)?;
    text.push_str(if is_stated { " as stated" } else { "" })?;
    Ok(())
}

fn item(alloc: Global, text: &mut String, item: &PlanItem) -> Result<(), Fail> {
    match item {
        PlanItem::OfModule { number, args } => {
            put(alloc, text, "module ", number)?;
            core_args(alloc, text, args.as_slice())
        }
        PlanItem::OfCoreItems { exports } => {
            text.push_str("core items")?;
            core_exports(alloc, text, exports.as_slice())
        }
        PlanItem::CoreItemOf {
            sort,
            instance,
            name,
        } => {
            text.push_str("core ")?;
            item_of(alloc, text, core_sort(*sort), name, *instance)
        }
        PlanItem::OfComponent {
            number,
            first,
            args,
        } => component(alloc, text, *number, *first, args.as_slice()),
        PlanItem::OfItems { exports } => {
            text.push_str("items")?;
            args(alloc, text, exports.as_slice())
        }
        PlanItem::ItemOf {
            sort: kind,
            instance,
            name,
        } => item_of(alloc, text, sort(*kind), name, *instance),
        PlanItem::NewResource {
            resource,
            destructor,
        } => new_resource(alloc, text, *resource, *destructor),
        PlanItem::Lifts { func, options, .. } => canon(alloc, text, "lift ", *func, options.len()),
        PlanItem::Lowers { func, options, ty } => lowered(alloc, text, *func, options.len(), ty),
        PlanItem::MakesResource(resource) => put(alloc, text, "new ", resource),
        PlanItem::DropsResource(resource) => put(alloc, text, "drop ", resource),
        PlanItem::ReadsResource(resource) => put(alloc, text, "rep ", resource),
        PlanItem::Imports { name, .. } => import(text, name),
        PlanItem::Exports { name, item, stated } => {
            export(alloc, text, name, *item, stated.is_some())
        }
    }
}

fn plan(alloc: Global, text: &mut String, items: &[PlanItem]) -> Result<(), Fail> {
    for one in items {
        text.push_str("; ")?;
        item(alloc, text, one)?;
    }
    Ok(())
}

/// How many modules there are, then each plan, the component's own last.
pub fn linked(alloc: Global, linked: &Linked) -> Result<String, Fail> {
    let mut text = String::new(alloc);
    put(alloc, &mut text, "modules ", &linked.modules.len())?;
    for component in linked.components.as_slice() {
        put(alloc, &mut text, " | own ", &component.own.as_slice())?;
        plan(alloc, &mut text, component.items.as_slice())?;
    }
    text.push_str(" | root")?;
    plan(alloc, &mut text, linked.items.as_slice())?;
    Ok(text)
}
