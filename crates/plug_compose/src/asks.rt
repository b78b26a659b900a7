//! What the whole imports of the host: of each interface the types that either component lists and the functions that either asks for.

use crate::marks::Marks;
use comp_types::{InstanceEntries, InstanceEntry, ItemType};
use compose_trees::{Catalogue, Declared, Imported};
use plug_match::Source;
use std::alloc::Global;
use virt_base::{Items, NoMemory, Text};
use wasi_match::ListedUse;
use wasi_table::{Interface, KINDS, NamedFunc};
use wit_types::{FuncType, Labels};

/// What a component imports of an interface of the host.
#[derive(Clone, Copy)]
pub struct Ask<'a> {
    interface: u32,
    /// The name of the import, with its version.
    name: &'a Text,
    entries: &'a InstanceEntries,
}

/// A function that the whole imports.
#[derive(Drop)]
pub struct HostFunction {
    interface: u32,
    /// Its place in the interface.
    place: usize,
    /// Its number among the listed functions.
    number: u32,
    params: Labels,
}

/// What the imports of the whole are found with.
#[derive(Clone, Copy)]
pub struct Scene<'a> {
    pub catalogue: &'a Catalogue,
    /// The listed interfaces in order.
    pub all: &'a [Interface],
    /// What both components ask for, the first before the second.
    pub asks: &'a [Ask<'a>],
    /// What the whole imports, in the order of the numbers of functions.
    pub functions: &'a [HostFunction],
}

fn ask_of(import: &InstanceEntry, interface: u32) -> Option<Ask<'_>> {
    match &import.ty {
        ItemType::Instance(instance) => Some(Ask {
            interface,
            name: &import.name,
            entries: &instance.entries,
        }),
        ItemType::Func(_) => None,
        ItemType::Kind(_) => None,
    }
}

fn push_ask<'a>(
    import: &'a InstanceEntry,
    interface: u32,
    asks: &mut Vec<Ask<'a>>,
) -> Result<(), NoMemory> {
    if let Some(ask) = ask_of(import, interface) {
        asks.push(ask)?;
    }
    Ok(())
}

/// Adds what a component asks for whose imports are all of the host.
pub fn push_first<'a>(
    imports: &'a [InstanceEntry],
    uses: &[ListedUse],
    asks: &mut Vec<Ask<'a>>,
) -> Result<(), NoMemory> {
    for (import, one) in imports.iter().zip(uses.iter()) {
        push_ask(import, one.interface, asks)?;
    }
    Ok(())
}

/// Adds what a component asks of the host.
pub fn push_second<'a>(
    imports: &'a [InstanceEntry],
    sources: &[Source],
    asks: &mut Vec<Ask<'a>>,
) -> Result<(), NoMemory> {
    for (import, source) in imports.iter().zip(sources.iter()) {
        if let Source::Host(one) = source {
            push_ask(import, one.interface, asks)?;
        }
    }
    Ok(())
}

fn param_names(alloc: Global, ty: &FuncType) -> Result<Labels, NoMemory> {
    let mut names = Items::empty(alloc);
    for field in &ty.params.items {
        names.push(field.name.copy(alloc)?)?;
    }
    Ok(names)
}

fn function_in<'a>(ask: &Ask<'a>, name: &Text) -> Option<&'a FuncType> {
    match ask.entries.look_up(name) {
        Some(ItemType::Func(known)) => Some(known.ty()),
        _ => None,
    }
}

/// The names of a function's parameters: those of the first that asks for it.
fn params_of(
    alloc: Global,
    asks: &[Ask<'_>],
    interface: u32,
    name: &Text,
) -> Result<Labels, NoMemory> {
    for ask in asks {
        if ask.interface == interface {
            if let Some(ty) = function_in(ask, name) {
                return param_names(alloc, ty);
            }
        }
    }
    Ok(Items::empty(alloc))
}

/// The number of an interface's first function.
fn first_number(all: &[Interface], interface: u32) -> u32 {
    let mut first: u32 = 0;
    let mut number: u32 = 0;
    for one in all {
        if number < interface {
            let count = u32::try_from(one.functions.len()).unwrap_or(u32::MAX);
            first = first.saturating_add(count);
        }
        number = number.saturating_add(1);
    }
    first
}

fn push_functions(
    alloc: Global,
    all: &[Interface],
    asks: &[Ask<'_>],
    one: &ListedUse,
    functions: &mut Vec<HostFunction>,
) -> Result<(), NoMemory> {
    let Some(described) = all.get(one.interface as usize) else {
        return Ok(());
    };
    let first = first_number(all, one.interface);
    for place in one.functions.as_slice() {
        if let Some(function) = described.functions.as_slice().get(*place as usize) {
            functions.push(HostFunction {
                interface: one.interface,
                place: *place as usize,
                number: first.saturating_add(*place),
                params: params_of(alloc, asks, one.interface, &function.name)?,
            })?;
        }
    }
    Ok(())
}

/// The functions that the whole imports.
pub fn host_functions(
    alloc: Global,
    all: &[Interface],
    asks: &[Ask<'_>],
    uses: &[ListedUse],
) -> Result<Vec<HostFunction>, NoMemory> {
    let mut functions = Vec::new(alloc);
    for one in uses {
        push_functions(alloc, all, asks, one, &mut functions)?;
    }
    Ok(functions)
}

fn declared_of<'a>(described: &'a Interface, function: &'a HostFunction) -> Option<Declared<'a>> {
    let named: &NamedFunc = described.functions.as_slice().get(function.place)?;
    Some(Declared {
        number: function.number,
        interface: function.interface,
        function: named,
        params: function.params.as_slice(),
    })
}

fn declared_in<'a>(
    alloc: Global,
    scene: &Scene<'a>,
    described: &'a Interface,
    interface: u32,
) -> Result<Vec<Declared<'a>>, NoMemory> {
    let mut list = Vec::new(alloc);
    for function in scene.functions {
        if function.interface == interface {
            if let Some(declared) = declared_of(described, function) {
                list.push(declared)?;
            }
        }
    }
    Ok(list)
}

/// Whether one of the components lists a type of an interface.
fn is_listed(asks: &[Ask<'_>], interface: u32, name: &Text) -> bool {
    asks.iter().any(|ask| ask.interface == interface && has_type(ask.entries, name))
}

fn has_type(entries: &InstanceEntries, name: &Text) -> bool {
    match entries.look_up(name) {
        Some(ItemType::Kind(_)) => true,
        _ => false,
    }
}

/// The numbers of the types that an interface knows: uses, then its own.
fn types_known(
    alloc: Global,
    catalogue: &Catalogue,
    described: &Interface,
    interface: u32,
) -> Result<Vec<usize>, NoMemory> {
    let mut numbers = Vec::new(alloc);
    for one in described.uses.as_slice() {
        push_number(catalogue, interface, &one.name, &mut numbers)?;
    }
    for one in described.types.as_slice() {
        push_number(catalogue, interface, &one.name, &mut numbers)?;
    }
    Ok(numbers)
}

fn push_number(
    catalogue: &Catalogue,
    interface: u32,
    name: &Text,
    numbers: &mut Vec<usize>,
) -> Result<(), NoMemory> {
    if let Some(number) = catalogue.named(interface, name) {
        numbers.push(number)?;
    }
    Ok(())
}

/// The types of an interface that one of the components lists.
fn listed_types(
    alloc: Global,
    scene: &Scene<'_>,
    interface: u32,
    known: &[usize],
) -> Result<Marks, NoMemory> {
    let mut listed = Marks::none(alloc, scene.catalogue.len())?;
    for number in known {
        if let Some(ty) = scene.catalogue.get(*number) {
            if is_listed(scene.asks, interface, &ty.named.name) {
                listed.set(*number);
            }
        }
    }
    Ok(listed)
}

/// The types that stand in the listed ones or in the functions, through others too. A type is written with types of lower numbers.
fn held_types(
    alloc: Global,
    catalogue: &Catalogue,
    functions: &[Declared<'_>],
    listed: &Marks,
) -> Result<Marks, NoMemory> {
    let count = catalogue.len();
    let mut held = Marks::none(alloc, count)?;
    for declared in functions {
        let names = declared.function.names.as_slice();
        let numbers = catalogue.numbers(alloc, declared.interface, names)?;
        held.set_all(numbers.as_slice());
    }
    for behind in 0..count {
        let number = count - 1 - behind;
        if held.has(number) || listed.has(number) {
            if let Some(ty) = catalogue.get(number) {
                held.set_all(ty.parts.as_slice());
            }
        }
    }
    Ok(held)
}

/// The kinds that are held and not listed: those that stand in an import before, and the others, which are listed from now on.
fn split_kinds(
    alloc: Global,
    catalogue: &Catalogue,
    held: &Marks,
    standing: &Marks,
    listed: &mut Marks,
) -> Result<Vec<usize>, NoMemory> {
    let mut named = Vec::new(alloc);
    for kind in 0..KINDS.len() {
        if let Some(number) = catalogue.kind(kind as u32) {
            if held.has(number) && !listed.has(number) {
                if standing.has(number) {
                    named.push(number)?;
                } else {
                    listed.set(number);
                }
            }
        }
    }
    Ok(named)
}

fn marked(alloc: Global, known: &[usize], marks: &Marks) -> Result<Vec<usize>, NoMemory> {
    let mut numbers = Vec::new(alloc);
    for number in known {
        if marks.has(*number) {
            numbers.push(*number)?;
        }
    }
    Ok(numbers)
}

fn name_of<'a>(asks: &[Ask<'a>], interface: u32) -> Option<&'a Text> {
    for ask in asks {
        if ask.interface == interface {
            return Some(ask.name);
        }
    }
    None
}

/// What the whole imports of an interface, where the types in imports before it are these.
fn host_import<'a>(
    alloc: Global,
    scene: &Scene<'a>,
    name: &'a Text,
    described: &'a Interface,
    interface: u32,
    standing: &Marks,
) -> Result<Imported<'a>, NoMemory> {
    let functions = declared_in(alloc, scene, described, interface)?;
    let known = types_known(alloc, scene.catalogue, described, interface)?;
    let mut listed = listed_types(alloc, scene, interface, known.as_slice())?;
    let held = held_types(alloc, scene.catalogue, functions.as_slice(), &listed)?;
    let named = split_kinds(alloc, scene.catalogue, &held, standing, &mut listed)?;
    let types = marked(alloc, known.as_slice(), &listed)?;
    Ok(Imported {
        name,
        named,
        types,
        functions,
    })
}

/// What the whole imports, in the order of the interfaces' numbers.
pub fn host_imports<'a>(
    alloc: Global,
    scene: &Scene<'a>,
    uses: &[ListedUse],
) -> Result<Vec<Imported<'a>>, NoMemory> {
    let mut imports = Vec::new(alloc);
    let mut standing = Marks::none(alloc, scene.catalogue.len())?;
    for one in uses {
        let interface = one.interface;
        if let Some(name) = name_of(scene.asks, interface) {
            if let Some(described) = scene.all.get(interface as usize) {
                let import = host_import(alloc, scene, name, described, interface, &standing)?;
                standing.set_all(import.types.as_slice());
                imports.push(import)?;
            }
        }
    }
    Ok(imports)
}
