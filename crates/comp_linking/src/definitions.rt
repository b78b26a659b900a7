//! The definitions of a section, planned one after another. A trait says of each sort what it plans and adds to the index spaces; types
//! have a module of their own.

ghost use Rattle.std.specs.Prelude.{OnOk, map};
ghost use Rattle.wasm_ast.specs.declared.component.Alias.TheVariants.{CoreExport, Export};
ghost use Rattle.comp_types.specs.Definitions.{ACanon, ACoreInstance, AnAlias, AnExport, AnImport, AnInstance};
ghost use Rattle.comp_linking.specs.Goes.{Plans, PlansAll};

use crate::aliases::plan_outer_alias;
use crate::canons::canon_item;
use crate::planner::Planner;
use crate::{core_instance_item, export_item, import_item, instance_item};
use comp_instances::{define_export, define_export_alias, define_import, define_instance};
use comp_lifting::define_canon;
use comp_link::PlanItem;
use comp_scopes::{define_core_alias, define_core_instance};
use std::alloc::Global;
use virt_base::{NoMemory, Text};
use wasm_ast::{
    Alias, Canon, ComponentExport, ComponentImport, CoreInstance, CoreSort, Instance, Sort,
};

/// An item of a section that is a definition. One that is valid is planned; what it adds to the index spaces is found as validation
/// finds it, which has no fault to answer.
pub trait Planned {
    ghost use Rattle.comp_types.specs.Definitions.{Definition};

    ghost definition: { Self → Definition };

    fn plan(&self, alloc: Global, planner: &mut Planner) -> Result<(), NoMemory>
        ensures { OnOk result (Plans (definition self.now) planner.old planner.new) };
}

impl Planned for CoreInstance {
    ghost definition = { λ i. ACoreInstance i };

    fn plan(&self, alloc: Global, planner: &mut Planner) -> Result<(), NoMemory> {
        let item = core_instance_item(alloc, &planner.inner, self)?;
        define_core_instance(alloc, &mut planner.scopes.inner, self)?;
        planner.inner.add(item)?;
        Ok(())
    }
}

impl Planned for Instance {
    ghost definition = { λ i. AnInstance i };

    fn plan(&self, alloc: Global, planner: &mut Planner) -> Result<(), NoMemory> {
        let item = instance_item(alloc, &planner.inner, &planner.scopes.inner, self)?;
        define_instance(
            alloc,
            &mut planner.scopes.inner,
            &mut planner.scopes.types,
            self,
        )?;
        planner.inner.add(item)?;
        Ok(())
    }
}

fn plan_export_alias(
    alloc: Global,
    planner: &mut Planner,
    sort: Sort,
    instance: u32,
    name: &Text,
) -> Result<(), NoMemory>
    ensures { OnOk result (Plans (AnAlias (Export sort instance name.now)) planner.old planner.new) }
{
    let copy = name.copy(alloc)?;
    let item = PlanItem::ItemOf {
        sort,
        instance,
        name: copy,
    };
    define_export_alias(&mut planner.scopes.inner, sort, instance, name)?;
    planner.inner.add(Some(item))?;
    Ok(())
}

fn plan_core_alias(
    alloc: Global,
    planner: &mut Planner,
    sort: CoreSort,
    instance: u32,
    name: &Text,
) -> Result<(), NoMemory>
    ensures { OnOk result (Plans (AnAlias (CoreExport sort instance name.now)) planner.old planner.new) }
{
    let copy = name.copy(alloc)?;
    let item = PlanItem::CoreItemOf {
        sort,
        instance,
        name: copy,
    };
    define_core_alias(&mut planner.scopes.inner, sort, instance, name)?;
    planner.inner.add(Some(item))?;
    Ok(())
}

impl Planned for Alias {
    ghost definition = { λ a. AnAlias a };

    fn plan(&self, alloc: Global, planner: &mut Planner) -> Result<(), NoMemory> {
        match self {
            Alias::Export {
                sort,
                instance,
                name,
            } => plan_export_alias(alloc, planner, *sort, *instance, name),
            Alias::CoreExport {
                sort,
                instance,
                name,
            } => plan_core_alias(alloc, planner, *sort, *instance, name),
            Alias::Outer { sort, count, index } => {
                plan_outer_alias(alloc, planner, *sort, *count, *index)
            }
        }
    }
}

impl Planned for Canon {
    ghost definition = { λ c. ACanon c };

    fn plan(&self, alloc: Global, planner: &mut Planner) -> Result<(), NoMemory> {
        let item = canon_item(alloc, &planner.scopes.inner, self)?;
        define_canon(alloc, &mut planner.scopes.inner, self)?;
        planner.inner.add(item)?;
        Ok(())
    }
}

impl Planned for ComponentImport {
    ghost definition = { λ i. AnImport i };

    fn plan(&self, alloc: Global, planner: &mut Planner) -> Result<(), NoMemory> {
        let item = import_item(
            alloc,
            &planner.scopes.inner,
            &mut planner.scopes.types,
            self,
        )?;
        define_import(
            alloc,
            &mut planner.scopes.inner,
            &mut planner.scopes.types,
            self,
        )?;
        planner.inner.add(Some(item))?;
        Ok(())
    }
}

impl Planned for ComponentExport {
    ghost definition = { λ e. AnExport e };

    fn plan(&self, alloc: Global, planner: &mut Planner) -> Result<(), NoMemory> {
        let item = export_item(
            alloc,
            &planner.scopes.inner,
            &mut planner.scopes.types,
            self,
        )?;
        define_export(
            alloc,
            &mut planner.scopes.inner,
            &mut planner.scopes.types,
            self,
        )?;
        planner.inner.add(Some(item))?;
        Ok(())
    }
}

/// The definitions of a section in order.
pub fn plan_all<T: Planned>(
    alloc: Global,
    planner: &mut Planner,
    items: &[T],
) -> Result<(), NoMemory>
    ensures { OnOk result (PlansAll (map T.definition items.now) planner.old planner.new) }
{
    let mut rest = items;
    while let Some((item, more)) = rest.split_first() {
        item.plan(alloc, planner)?;
        rest = more;
    }
    Ok(())
}
