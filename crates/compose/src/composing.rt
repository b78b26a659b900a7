//! An output is put together of a policy and an application: the adapter and the sections around both are made, and what was made is
//! checked.

ghost use Rattle.std.specs.Prelude.{◌≡◌, IfOk, map};
ghost use Rattle.tree_table.specs.Trees.{AreTrees};
ghost use Rattle.comp_grammar.specs.Trees.{plain};
ghost use Rattle.adapter_world.specs.Names.{named, needed_count, needed_names};
ghost use Rattle.compose.specs.Composed.{IsComposed};
ghost use Rattle.compose.specs.Assembled.{HasAdapter, IsMade};

use crate::checked::{adapter_in, check};
use crate::composed::Composed;
use crate::fault::{ComposeFault, of_emit, of_piece};
use adapter_bytes::{EmittedBytes, Routines, emit_bytes};
use adapter_rows::{RowsFault, is_sound, rows_for};
use adapter_world::{Needs, World, world_of};
use comp_pair::{Assembled, Front, assemble, front_of};
use comp_signature::ComponentType;
use comp_types::InstanceEntries;
use compose_trees::{
    Catalogue, Sections, adapter, behind, between, given_in_order, import_world, needed,
};
use policy_data::Policy;
use std::alloc::Global;
use tree_table::Trees;
use virt_base::{NoMemory, Text};
use virt_output::Piece;
use wasi_match::Listed;
use wasm_ast::Component;

/// The most bytes that a size can say.
const MOST: usize = 0xFFFF_FFFF;

/// What the adapter is made of.
fn routines_of(
    alloc: Global,
    policy: &Policy,
    trees: &Trees,
    world: &World,
) -> Result<Routines, ComposeFault>
    requires { AreTrees trees.now }
{
    match rows_for(alloc, policy, trees, world) {
        Ok(routines) => Ok(routines),
        Err(RowsFault::NoMemory) => Err(ComposeFault::NoMemory),
        Err(RowsFault::TooLarge) => Err(ComposeFault::TooLong),
    }
}

/// The adapter's core modules.
fn modules_of(alloc: Global, routines: &Routines) -> Result<EmittedBytes, ComposeFault> {
    if !is_sound(alloc, routines)? {
        return Err(ComposeFault::Unsound);
    }
    match emit_bytes(alloc, routines) {
        Ok(bytes) => Ok(bytes),
        Err(fault) => Err(of_emit(fault)),
    }
}

/// The bytes of the adapter.
fn adapter_bytes(
    alloc: Global,
    catalogue: &Catalogue,
    world: &World,
    routines: &Routines,
) -> Result<Vec<u8>, ComposeFault> {
    let modules = modules_of(alloc, routines)?;
    match adapter(
        alloc,
        catalogue,
        world,
        &routines.stubs,
        modules.state.as_slice(),
        modules.stubs.as_slice(),
    ) {
        Ok(bytes) => Ok(bytes),
        Err(fault) => Err(of_piece(fault)),
    }
}

/// The sections around the adapter and the application.
#[derive(Drop)]
struct Around {
    imports: Vec<Piece<'static>>,
    between: Vec<Piece<'static>>,
    behind: Vec<Piece<'static>>,
}

/// The names under which the host's instances are imported.
fn imported<'a>(alloc: Global, world: &'a World) -> Result<Vec<&'a Text>, NoMemory> {
    let mut names = Vec::new(alloc);
    for interface in world.needs.interfaces.as_slice() {
        names.push(&interface.name)?;
    }
    Ok(names)
}

/// The names under which the application imports instances.
fn taken<'a>(alloc: Global, world: &'a World) -> Result<Vec<&'a Text>, NoMemory> {
    let mut names = Vec::new(alloc);
    for import in world.imports.as_slice() {
        names.push(&import.name)?;
    }
    Ok(names)
}

fn sections_around(
    alloc: Global,
    catalogue: &Catalogue,
    world: &World,
    exports: &InstanceEntries,
) -> Result<Around, NoMemory> {
    let mut out = Sections::new(alloc);
    let interfaces = needed(alloc, catalogue, world)?;
    let imports = import_world(alloc, catalogue, interfaces.as_slice(), &mut out)?;
    let names = imported(alloc, world)?;
    let taken = taken(alloc, world)?;
    let given = given_in_order(alloc, names.as_slice(), 0)?;
    let aliased = imports.instances.saturating_add(1);
    let handed = given_in_order(alloc, taken.as_slice(), aliased)?;
    let Ok(count) = u32::try_from(taken.len()) else {
        return Err(NoMemory);
    };
    Ok(Around {
        imports: out.into_pieces(),
        between: between(alloc, given.as_slice(), imports.instances, taken.as_slice())?,
        behind: behind(
            alloc,
            handed.as_slice(),
            aliased.saturating_add(count),
            imports.types,
            exports,
        )?,
    })
}

/// What stands before the application, and the sections after it.
fn parts(
    alloc: Global,
    policy: &Policy,
    trees: &Trees,
    world: &World,
    exports: &InstanceEntries,
) -> Result<(Front, Vec<Piece<'static>>), ComposeFault>
    requires { AreTrees trees.now }
    ensures { IfOk result (λ p. HasAdapter (map named world.now.needs.interfaces) p.0) }
{
    let catalogue = Catalogue::new(alloc)?;
    let routines = routines_of(alloc, policy, trees, world)?;
    let bytes = adapter_bytes(alloc, &catalogue, world, &routines)?;
    let needed = world.needs.interfaces.as_slice();
    let component = adapter_in(alloc, needed, bytes.as_slice())?;
    let Around {
        imports,
        between,
        behind,
    } = sections_around(alloc, &catalogue, world, exports)?;
    let front = front_of(alloc, imports, component, bytes.as_slice(), between)?;
    Ok((front, behind))
}

/// The output and its parts, and what it is to import.
#[tactic(auto, using(crate::proofs::AssembleLaws::is_made))]
fn made(
    alloc: Global,
    policy: &Policy,
    trees: &Trees,
    component: Component,
    ty: &ComponentType,
    listed: &Listed,
    size: u32,
) -> Result<(Assembled, Needs), ComposeFault>
    requires { AreTrees trees.now }
    ensures made { IfOk result (λ p. IsMade (map named p.1.interfaces) (plain component) size p.0) }
    ensures names { IfOk result (λ p. map named p.1.interfaces ≡ needed_names policy.now listed.now.uses) }
    ensures count { IfOk result (λ p. p.1.functions ≡ needed_count policy.now listed.now.uses) }
{
    let world = world_of(alloc, policy, listed, ty)?;
    let (front, behind) = parts(alloc, policy, trees, &world, &ty.exports)?;
    let assembled = assemble(alloc, front, component, size, behind)?;
    let World { needs, .. } = world;
    Ok((assembled, needs))
}

/// What stands around a listed application of that many bytes: the adapter that gives it what it imports under the policy, joined with
/// it. The application's bytes need not be in memory.
///
/// What was made is checked: it is a valid component, which imports exactly what is needed, exports what the application exports, and
/// joins the adapter and the application.
pub fn compose(
    alloc: Global,
    policy: &Policy,
    trees: &Trees,
    component: Component,
    ty: &ComponentType,
    listed: &Listed,
    size: usize,
) -> Result<Composed, ComposeFault>
    requires { AreTrees trees.now }
    ensures { IfOk result (IsComposed policy.now (plain component) listed.now.uses ty.now.exports size) }
{
    if size > MOST {
        return Err(ComposeFault::TooLong);
    }
    let (assembled, needs) = made(alloc, policy, trees, component, ty, listed, size as u32)?;
    let needed = needs.interfaces.as_slice();
    check(alloc, needed, &ty.exports, &assembled.whole)?;
    let Assembled { front, back, .. } = assembled;
    Ok(Composed {
        front,
        back,
        needed: needs.functions,
    })
}
