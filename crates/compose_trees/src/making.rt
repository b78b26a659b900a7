//! The adapter, made as a component: its imports and core part, and the instance of a shim for each interface that the application imports.

use crate::catalogue::Catalogue;
use crate::core_part::{CorePart, alias_needed};
use crate::declare::{declare_functions, declare_types};
use crate::imports::{Imports, import_world};
use crate::scope::{Form, Scope, function_name, type_name};
use crate::shims::{Shown, shim};
use crate::standing::Standing;
use crate::world::{declared, needed, numbers_of};
use adapter_stubs::Stub;
use adapter_world::{World, WorldImport};
use comp_pieces::write_pieces;
use std::alloc::Global;
use virt_base::{Items, NoMemory, Text};
use virt_output::{Piece, PieceFault};
use wasm_ast::{Alias, ComponentExport, Instance, NamedItem, Sort};

/// The bytes of the adapter: a component that imports what is needed, and exports what the application imports. The two modules
/// are given as their bytes.
pub fn adapter(
    alloc: Global,
    catalogue: &Catalogue,
    world: &World,
    stubs: &[Stub],
    state: &[u8],
    code: &[u8],
) -> Result<Vec<u8>, PieceFault> {
    let given = given(alloc, catalogue, world)?;
    let shims = shims(alloc, catalogue, given.as_slice())?;
    let mut scope = Scope::new(alloc, catalogue, Form::Adapter)?;
    let instances = inside(alloc, catalogue, world, stubs, state, code, &mut scope)?;
    for shim in shims.as_slice() {
        scope.sections.put(Piece::Component(shim.as_slice()))?;
    }
    give(
        alloc,
        catalogue,
        world,
        given.as_slice(),
        instances,
        &mut scope,
    )?;
    let pieces = scope.sections.into_pieces();
    write_pieces(alloc, pieces.as_slice())
}

/// What the application's imports show.
fn given<'a>(
    alloc: Global,
    catalogue: &Catalogue,
    world: &'a World,
) -> Result<Vec<Shown<'a>>, NoMemory> {
    let mut given = Vec::new(alloc);
    for import in world.imports.as_slice() {
        given.push(Shown::new(alloc, catalogue, world, import)?)?;
    }
    Ok(given)
}

fn shims(
    alloc: Global,
    catalogue: &Catalogue,
    given: &[Shown<'_>],
) -> Result<Vec<Vec<u8>>, PieceFault> {
    let mut shims = Vec::new(alloc);
    for shown in given {
        put_shim(&mut shims, shim(alloc, catalogue, shown)?)?;
    }
    Ok(shims)
}

fn put_shim(shims: &mut Vec<Vec<u8>>, shim: Vec<u8>) -> Result<(), NoMemory> {
    shims.push(shim)?;
    Ok(())
}

/// All of the adapter up to the functions that it lifts: how many instances it imports.
fn inside<'a>(
    alloc: Global,
    catalogue: &Catalogue,
    world: &World,
    stubs: &[Stub],
    state: &'a [u8],
    code: &'a [u8],
    scope: &mut Scope<'a>,
) -> Result<u32, NoMemory> {
    let interfaces = needed(alloc, catalogue, world)?;
    let imports = import_world(alloc, catalogue, interfaces.as_slice(), &mut scope.sections)?;
    scope.types = imports.types;
    scope.sections.put(Piece::CoreModule(state))?;
    scope.sections.put(Piece::CoreModule(code))?;
    let mut core = CorePart::new(alloc);
    put_state(alloc, catalogue, world, stubs, &imports, &mut core, scope)?;
    put_stubs(world, stubs, &mut core, scope)?;
    declare_world(alloc, catalogue, world, scope)?;
    core.lift(scope.lifted.as_slice(), stubs, &mut scope.sections)?;
    Ok(imports.instances)
}

/// The state's instance, and the adapter's resources.
fn put_state(
    alloc: Global,
    catalogue: &Catalogue,
    world: &World,
    stubs: &[Stub],
    imports: &Imports,
    core: &mut CorePart,
    scope: &mut Scope<'_>,
) -> Result<(), NoMemory> {
    let kinds = world.kinds.as_slice();
    core.drop_kinds(catalogue, kinds, imports, &mut scope.sections)?;
    core.state_instance(&mut scope.sections)?;
    core.alias_state(kinds, stubs, &mut scope.sections)?;
    alias_needed(alloc, world, &mut scope.sections)?;
    let resources = core.define_kinds(scope.types, &mut scope.sections)?;
    take_resources(catalogue, scope, resources.as_slice());
    core.make_kinds(resources.as_slice(), &mut scope.sections)
}

/// The stubs' instance, and the stubs.
fn put_stubs(
    world: &World,
    stubs: &[Stub],
    core: &mut CorePart,
    scope: &mut Scope<'_>,
) -> Result<(), NoMemory> {
    core.lower(world.functions.as_slice(), &mut scope.sections)?;
    core.stubs_instance(&mut scope.sections)?;
    core.alias_stubs(stubs.len(), &mut scope.sections)
}

/// The types of kinds are the adapter's resources.
fn take_resources(catalogue: &Catalogue, scope: &mut Scope<'_>, resources: &[(u32, u32)]) {
    for (kind, ty) in resources {
        if let Some(number) = catalogue.kind(*kind) {
            scope.standing.set(number, *ty);
        }
        scope.next_type();
    }
}

/// The types of the world, and those of its functions.
fn declare_world(
    alloc: Global,
    catalogue: &Catalogue,
    world: &World,
    scope: &mut Scope<'_>,
) -> Result<(), NoMemory> {
    let numbers = numbers_of(alloc, catalogue, world.types.as_slice())?;
    let around = Standing::none(alloc, catalogue)?;
    declare_types(scope, catalogue, &around, numbers.as_slice())?;
    let mut functions = Vec::new(alloc);
    for function in world.functions.as_slice() {
        functions.push(declared(function))?;
    }
    declare_functions(scope, catalogue, functions.as_slice())
}

/// The interfaces that the application imports, in its order: the instance of a shim, that under the interface's name, and the
/// types that it defines or is the first to show. A later interface names them from there: validators ask that what an instance's
/// functions name was exported before.
fn give(
    alloc: Global,
    catalogue: &Catalogue,
    world: &World,
    given: &[Shown<'_>],
    instances: u32,
    scope: &mut Scope<'_>,
) -> Result<(), NoMemory> {
    let first = needed_functions(world);
    let mut exported = Standing::none(alloc, catalogue)?;
    let mut component: u32 = 0;
    let mut instance = instances;
    for (import, shown) in world.imports.as_slice().iter().zip(given.iter()) {
        let args = arguments(alloc, import, shown, first, &scope.standing)?;
        scope
            .sections
            .instance(Instance::Instantiate { component, args })?;
        export_instance(
            alloc,
            catalogue,
            import,
            shown,
            instance,
            &mut exported,
            scope,
        )?;
        component = component.saturating_add(1);
        instance = instance.saturating_add(2);
    }
    Ok(())
}

/// How many functions of the host there are.
fn needed_functions(world: &World) -> u32 {
    let mut count: u32 = 0;
    for function in world.functions.as_slice() {
        if function.needed {
            count = count.saturating_add(1);
        }
    }
    count
}

/// What a shim is given: the types, as they stand now, and the lifted functions.
fn arguments(
    alloc: Global,
    import: &WorldImport,
    shown: &Shown<'_>,
    first: u32,
    standing: &Standing,
) -> Result<Items<NamedItem>, NoMemory> {
    let mut args = Items::empty(alloc);
    let mut place: u32 = 0;
    for number in shown.held.as_slice() {
        args.push(NamedItem {
            name: type_name(alloc, place)?,
            sort: Sort::Type,
            index: standing.index(*number),
        })?;
        place = place.saturating_add(1);
    }
    for (function, place) in shown
        .functions
        .as_slice()
        .iter()
        .zip(import.functions.as_slice().iter())
    {
        args.push(NamedItem {
            name: function_name(alloc, function.number)?,
            sort: Sort::Func,
            index: first.saturating_add(*place),
        })?;
    }
    Ok(args)
}

/// The export of a shim's instance, and aliases of the types that the interface defines, or that no export before it shows.
fn export_instance(
    alloc: Global,
    catalogue: &Catalogue,
    import: &WorldImport,
    shown: &Shown<'_>,
    instance: u32,
    exported: &mut Standing,
    scope: &mut Scope<'_>,
) -> Result<(), NoMemory> {
    scope.sections.export(ComponentExport {
        name: import.name.copy(alloc)?,
        sort: Sort::Instance,
        index: instance,
        desc: None,
    })?;
    for number in shown.shown.as_slice() {
        if is_own(catalogue, import.interface, *number) || exported.get(*number).is_none() {
            alias_shown(catalogue, *number, instance.saturating_add(1), scope)?;
            exported.set(*number, instance);
        }
    }
    Ok(())
}

/// Whether an interface defines a type.
fn is_own(catalogue: &Catalogue, interface: u32, number: usize) -> bool {
    match catalogue.get(number) {
        Some(listed) => listed.interface == interface,
        None => false,
    }
}

fn alias_shown(
    catalogue: &Catalogue,
    number: usize,
    instance: u32,
    scope: &mut Scope<'_>,
) -> Result<(), NoMemory> {
    let Some(listed) = catalogue.get(number) else {
        return Ok(());
    };
    let name: Text = listed.named.name.copy(scope.alloc)?;
    scope.sections.alias(Alias::Export {
        sort: Sort::Type,
        instance,
        name,
    })?;
    let index = scope.next_type();
    scope.standing.set(number, index);
    Ok(())
}
