//! Items of sections as definitions. Each kind of item has the call that judges and adds it, and a count of the entries that this walks
//! over.

ghost use Rattle.std.specs.Prelude.{List, IfOk, map};
ghost use Rattle.comp_types.specs.Definitions.{ACanon, ACoreInstance, AnAlias, AnExport, AnImport, AnInstance};
ghost use Rattle.comp_types.specs.Spaces.{Space};
ghost use Rattle.comp_defining.specs.Around.{StandAll};
ghost use Rattle.comp_defining.specs.Judged.{JudgedEach, JudgedIn};

use crate::walks::{walked_by_alias, walked_by_export, walked_by_import, walked_by_instance};
use comp_defining::{Scopes, define_outer_alias};
use comp_instances::{define_export, define_export_alias, define_import, define_instance};
use comp_lifting::define_canon;
use comp_scopes::{define_core_alias, define_core_instance};
use std::alloc::Global;
use virt_base::NoMemory;
use wasm_ast::{Alias, Canon, ComponentExport, ComponentImport, CoreInstance, Instance};

/// An item of a section that is a definition.
pub trait Defines {
    ghost use Rattle.comp_types.specs.Definitions.{Definition};

    ghost definition: { Self → Definition };

    /// How many entries of types it is judged by walking over.
    fn walked(&self, scopes: &Scopes) -> u64;

    /// The least rule that it breaks, or else it is added.
    fn define(&self, alloc: Global, scopes: &mut Scopes) -> Result<Option<u32>, NoMemory>
        ensures { IfOk result (λ rule. (around : List Space) → (s : Space) → StandAll around s scopes.old → JudgedIn around s (definition self.now) scopes.new rule) };
}

impl Defines for CoreInstance {
    ghost definition = { λ i. ACoreInstance i };

    fn walked(&self, _scopes: &Scopes) -> u64 {
        0
    }

    fn define(&self, alloc: Global, scopes: &mut Scopes) -> Result<Option<u32>, NoMemory> {
        define_core_instance(alloc, &mut scopes.inner, self)
    }
}

impl Defines for Instance {
    ghost definition = { λ i. AnInstance i };

    fn walked(&self, scopes: &Scopes) -> u64 {
        walked_by_instance(&scopes.inner, self)
    }

    fn define(&self, alloc: Global, scopes: &mut Scopes) -> Result<Option<u32>, NoMemory> {
        define_instance(alloc, &mut scopes.inner, &mut scopes.types, self)
    }
}

impl Defines for Alias {
    ghost definition = { λ a. AnAlias a };

    fn walked(&self, scopes: &Scopes) -> u64 {
        walked_by_alias(scopes, self)
    }

    fn define(&self, alloc: Global, scopes: &mut Scopes) -> Result<Option<u32>, NoMemory> {
        match self {
            Alias::Export {
                sort,
                instance,
                name,
            } => define_export_alias(&mut scopes.inner, *sort, *instance, name),
            Alias::CoreExport {
                sort,
                instance,
                name,
            } => define_core_alias(&mut scopes.inner, *sort, *instance, name),
            Alias::Outer { sort, count, index } => {
                define_outer_alias(alloc, scopes, *sort, *count, *index)
            }
        }
    }
}

impl Defines for Canon {
    ghost definition = { λ c. ACanon c };

    fn walked(&self, _scopes: &Scopes) -> u64 {
        0
    }

    fn define(&self, alloc: Global, scopes: &mut Scopes) -> Result<Option<u32>, NoMemory> {
        define_canon(alloc, &mut scopes.inner, self)
    }
}

impl Defines for ComponentImport {
    ghost definition = { λ i. AnImport i };

    fn walked(&self, scopes: &Scopes) -> u64 {
        walked_by_import(&scopes.inner, self)
    }

    fn define(&self, alloc: Global, scopes: &mut Scopes) -> Result<Option<u32>, NoMemory> {
        define_import(alloc, &mut scopes.inner, &mut scopes.types, self)
    }
}

impl Defines for ComponentExport {
    ghost definition = { λ e. AnExport e };

    fn walked(&self, scopes: &Scopes) -> u64 {
        walked_by_export(&scopes.inner, self)
    }

    fn define(&self, alloc: Global, scopes: &mut Scopes) -> Result<Option<u32>, NoMemory> {
        define_export(alloc, &mut scopes.inner, &mut scopes.types, self)
    }
}

/// A definition whose walks are counted.
fn define_counted<T: Defines>(
    alloc: Global,
    scopes: &mut Scopes,
    item: &T,
) -> Result<Option<u32>, NoMemory>
    ensures { IfOk result (λ rule. (around : List Space) → (s : Space) → StandAll around s scopes.old → JudgedIn around s (T.definition item.now) scopes.new rule) }
{
    let entries = item.walked(scopes);
    scopes.walk(entries)?;
    item.define(alloc, scopes)
}

/// The definitions of a section in order: the least rule that the first at fault breaks, or else all of them are added.
pub fn define_all<T: Defines>(
    alloc: Global,
    scopes: &mut Scopes,
    items: &[T],
) -> Result<Option<u32>, NoMemory>
    ensures { IfOk result (λ rule. (around : List Space) → (s : Space) → StandAll around s scopes.old → JudgedEach around s (map T.definition items.now) scopes.new rule) }
{
    let mut rest = items;
    while let Some((item, more)) = rest.split_first() {
        if let Some(rule) = define_counted(alloc, scopes, item)? {
            return Ok(Some(rule));
        }
        rest = more;
    }
    Ok(None)
}
