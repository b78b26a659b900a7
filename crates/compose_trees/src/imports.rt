//! The imports of an output: interfaces, each with its instance type before it and aliases of its types after it.

use crate::catalogue::Catalogue;
use crate::declare::{Declared, declare_functions, declare_types};
use crate::scope::{Form, Scope};
use crate::sections::Sections;
use crate::standing::Standing;
use std::alloc::Global;
use virt_base::{Items, NoMemory, Text};
use virt_output::Piece;
use wasm_ast::{Alias, ComponentImport, ExternDesc, KeptType, Sort, TypeDef, TypeItem};

/// An interface that is imported: its name with the version, the numbers of its types, and its functions.
#[derive(Drop)]
pub struct Imported<'a> {
    pub name: &'a Text,
    /// Types of imports before that it names and doesn't list.
    pub named: Vec<usize>,
    pub types: Vec<usize>,
    pub functions: Vec<Declared<'a>>,
}

/// What imports made: where the types of the imported instances stand, and how many types and instances there are.
#[derive(Drop)]
pub struct Imports {
    pub standing: Standing,
    pub types: u32,
    pub instances: u32,
}

/// Imports interfaces in order, each with its instance type before it and aliases after it: of the types that it is the first to
/// have.
pub fn import_world(
    alloc: Global,
    catalogue: &Catalogue,
    interfaces: &[Imported<'_>],
    out: &mut Sections<'_>,
) -> Result<Imports, NoMemory> {
    let mut imports = Imports {
        standing: Standing::none(alloc, catalogue)?,
        types: 0,
        instances: 0,
    };
    for interface in interfaces {
        import_interface(alloc, catalogue, interface, out, &mut imports)?;
    }
    Ok(imports)
}

fn import_interface(
    alloc: Global,
    catalogue: &Catalogue,
    interface: &Imported<'_>,
    out: &mut Sections<'_>,
    imports: &mut Imports,
) -> Result<(), NoMemory> {
    let items = instance_type(alloc, catalogue, interface, &imports.standing)?;
    out.put(Piece::Types(items))?;
    out.import(ComponentImport {
        name: interface.name.copy(alloc)?,
        desc: ExternDesc::Instance(imports.types),
    })?;
    imports.types = imports.types.saturating_add(1);
    let instance = imports.instances;
    imports.instances = instance.saturating_add(1);
    for number in interface.types.as_slice() {
        alias_type(alloc, catalogue, *number, instance, out, imports)?;
    }
    Ok(())
}

/// A section with the type of an interface's instance.
fn instance_type(
    alloc: Global,
    catalogue: &Catalogue,
    interface: &Imported<'_>,
    around: &Standing,
) -> Result<Items<TypeItem>, NoMemory> {
    let mut scope = Scope::new(alloc, catalogue, Form::Instance)?;
    name_types(&mut scope, around, interface.named.as_slice())?;
    declare_types(&mut scope, catalogue, around, interface.types.as_slice())?;
    declare_functions(&mut scope, catalogue, interface.functions.as_slice())?;
    whole_type(alloc, scope.declared)
}

/// Types of the scope around an instance type, which stand in it from now on under no name.
fn name_types(scope: &mut Scope<'_>, around: &Standing, numbers: &[usize]) -> Result<(), NoMemory> {
    for number in numbers {
        if let Some(index) = around.get(*number) {
            let inside = scope.alias_outer(index)?;
            scope.standing.set(*number, inside);
        }
    }
    Ok(())
}

fn whole_type(alloc: Global, declared: Items<TypeItem>) -> Result<Items<TypeItem>, NoMemory> {
    let Ok(declarations) = u32::try_from(declared.len()) else {
        return Err(NoMemory);
    };
    let mut items = Items::empty(alloc);
    let def = KeptType::new(alloc, TypeDef::Instance { declarations })?;
    items.push(TypeItem::Define(def))?;
    for item in declared.into_vec() {
        items.push(item)?;
    }
    Ok(items)
}

/// An alias of a type that an instance is the first to have.
fn alias_type(
    alloc: Global,
    catalogue: &Catalogue,
    number: usize,
    instance: u32,
    out: &mut Sections<'_>,
    imports: &mut Imports,
) -> Result<(), NoMemory> {
    if imports.standing.get(number).is_some() {
        return Ok(());
    }
    let Some(listed) = catalogue.get(number) else {
        return Ok(());
    };
    out.alias(Alias::Export {
        sort: Sort::Type,
        instance,
        name: listed.named.name.copy(alloc)?,
    })?;
    imports.standing.set(number, imports.types);
    imports.types = imports.types.saturating_add(1);
    Ok(())
}
