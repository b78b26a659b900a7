//! The sections that join two components: the instance of each, what the second takes of the first, and exports of all that the second
//! exports.

use crate::sections::Sections;
use comp_types::{InstanceEntries, InstanceEntry};
use std::alloc::Global;
use virt_base::{Items, NoMemory, Text};
use virt_output::{Counts, Piece, sort_of};
use wasm_ast::{Alias, ComponentExport, Instance, NamedItem, Sort};

/// An instance that is given to a component under a name.
#[derive(Clone, Copy)]
pub struct Given<'a> {
    pub name: &'a Text,
    pub instance: u32,
}

/// Instances from this one on, in order, given under these names.
pub fn given_in_order<'a>(
    alloc: Global,
    names: &[&'a Text],
    first: u32,
) -> Result<Vec<Given<'a>>, NoMemory> {
    let mut given = Vec::new(alloc);
    let mut instance = first;
    for name in names {
        given.push(Given {
            name: *name,
            instance,
        })?;
        instance = instance.saturating_add(1);
    }
    Ok(given)
}

/// Instances as arguments.
fn arguments(alloc: Global, given: &[Given<'_>]) -> Result<Items<NamedItem>, NoMemory> {
    let mut args = Items::empty(alloc);
    for one in given {
        args.push(NamedItem {
            name: one.name.copy(alloc)?,
            sort: Sort::Instance,
            index: one.instance,
        })?;
    }
    Ok(args)
}

/// The first component's instance, which is given these instances, and an alias of each instance that the second component takes of
/// it. That many instances stand before.
pub fn between(
    alloc: Global,
    given: &[Given<'_>],
    instances: u32,
    taken: &[&Text],
) -> Result<Vec<Piece<'static>>, NoMemory> {
    let mut out = Sections::new(alloc);
    let args = arguments(alloc, given)?;
    out.instance(Instance::Instantiate { component: 0, args })?;
    for name in taken {
        out.alias(Alias::Export {
            sort: Sort::Instance,
            instance: instances,
            name: name.copy(alloc)?,
        })?;
    }
    Ok(out.into_pieces())
}

/// The second component's instance, which is given these instances, and aliases and exports of all that it exports; that many
/// instances and types stand before.
pub fn behind(
    alloc: Global,
    given: &[Given<'_>],
    instances: u32,
    types: u32,
    exports: &InstanceEntries,
) -> Result<Vec<Piece<'static>>, NoMemory> {
    let mut out = Sections::new(alloc);
    let args = arguments(alloc, given)?;
    out.instance(Instance::Instantiate { component: 1, args })?;
    let counts = Counts {
        functions: 0,
        types: types as usize,
        instances: instances as usize + 1,
    };
    let entries = exports.as_slice();
    if !entries.is_empty() {
        out.put(Piece::Aliases(aliases_of(alloc, entries, instances)?))?;
        out.put(Piece::Exports(exports_of(alloc, entries, counts)?))?;
    }
    Ok(out.into_pieces())
}

/// An alias of each export of an instance.
fn aliases_of(
    alloc: Global,
    entries: &[InstanceEntry],
    instance: u32,
) -> Result<Items<Alias>, NoMemory> {
    let mut list = Items::empty(alloc);
    for entry in entries {
        list.push(Alias::Export {
            sort: sort_of(&entry.ty),
            instance,
            name: entry.name.copy(alloc)?,
        })?;
    }
    Ok(list)
}

/// An export of each alias, where that many of each sort stand before them.
fn exports_of(
    alloc: Global,
    entries: &[InstanceEntry],
    counts: Counts,
) -> Result<Items<ComponentExport>, NoMemory> {
    let mut list = Items::empty(alloc);
    let mut counts = counts;
    for entry in entries {
        let sort = sort_of(&entry.ty);
        let Ok(index) = u32::try_from(counts.of(sort)) else {
            return Err(NoMemory);
        };
        list.push(ComponentExport {
            name: entry.name.copy(alloc)?,
            sort,
            index,
            desc: None,
        })?;
        counts = counts.and(sort);
    }
    Ok(list)
}
