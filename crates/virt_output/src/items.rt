//! The items of an output's sections: one instance, and an alias and an export of each export of the application.

ghost use Rattle.std.specs.Prelude.{◌≡◌, ◌↔◌, IfOk, IsTrue};
ghost use Rattle.wasm_format.specs.Format.{vec};
ghost use Rattle.wasm_ast.specs.ComponentItems.{alias, component_export, instance};
ghost use Rattle.comp_types.specs.Views.{entries_of};
ghost use Rattle.virt_output.specs.Output.{one_instance as the_instance, aliases_of as all_aliases, exports_of as all_exports};
ghost use Rattle.virt_output.specs.Bytes.{AreShort, CanBeNamed};

use crate::{Counts, sort_of};
use comp_types::InstanceEntry;
use std::alloc::Global;
use virt_base::{Items, NoMemory, Text};
use wasm_ast::{Alias, ComponentExport, Instance};

/// The most bytes that a size can say, and the most items that a count can.
pub const MOST: usize = 0xFFFF_FFFF;

/// Whether a size can say how long each name is.
fn names_are_short(entries: &[InstanceEntry]) -> bool
    ensures { IsTrue result ↔ AreShort (entries_of entries.now) }
{
    let mut rest = entries;
    while let Some((entry, more)) = rest.split_first() {
        if entry.name.bytes().len() > MOST {
            return false;
        }
        rest = more;
    }
    true
}

/// Whether a count can say how many exports there are, and sizes how long their names are.
pub fn can_be_named(entries: &[InstanceEntry]) -> bool
    ensures { IsTrue result ↔ CanBeNamed (entries_of entries.now) }
{
    if entries.len() > MOST {
        return false;
    }
    names_are_short(entries)
}

/// The instance of the application.
pub fn one_instance(alloc: Global) -> Result<Items<Instance>, NoMemory>
    ensures { IfOk result (λ list. list ≡ the_instance) }
{
    let mut list = Items::empty(alloc);
    list.push(Instance::Instantiate {
        component: 0,
        args: Items::empty(alloc),
    })?;
    Ok(list)
}

/// An alias of each export.
pub fn aliases_of(alloc: Global, entries: &[InstanceEntry]) -> Result<Items<Alias>, NoMemory>
    requires { CanBeNamed (entries_of entries.now) }
    ensures value { IfOk result (λ list. list ≡ all_aliases (entries_of entries.now)) }
    ensures fits { IfOk result (λ list. (vec alias).Fits list) }
{
    let mut list = Items::empty(alloc);
    let mut rest = entries;
    while let Some((entry, more)) = rest.split_first() {
        let name = Text::from_str(alloc, entry.name.as_str())?;
        list.push(Alias::Export {
            sort: sort_of(&entry.ty),
            instance: 0,
            name,
        })?;
        rest = more;
    }
    Ok(list)
}

/// An export of each alias.
pub fn exports_of(
    alloc: Global,
    entries: &[InstanceEntry],
) -> Result<Items<ComponentExport>, NoMemory>
    requires { CanBeNamed (entries_of entries.now) }
    ensures value { IfOk result (λ list. list ≡ all_exports (entries_of entries.now)) }
    ensures fits { IfOk result (λ list. (vec component_export).Fits list) }
{
    let mut list = Items::empty(alloc);
    let mut counts = Counts {
        functions: 0,
        types: 0,
        instances: 1,
    };
    let mut rest = entries;
    while let Some((entry, more)) = rest.split_first() {
        let name = Text::from_str(alloc, entry.name.as_str())?;
        let sort = sort_of(&entry.ty);
        list.push(ComponentExport {
            name,
            sort,
            index: counts.of(sort) as u32,
            desc: None,
        })?;
        counts = counts.and(sort);
        rest = more;
    }
    Ok(list)
}
