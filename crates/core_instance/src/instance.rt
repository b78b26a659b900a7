//! Instantiation of a module, without its start function (WebAssembly Core 2.0, section 4.5.4).

ghost use Rattle.std.specs.Prelude.{◌≡◌, OnOk, IfOk};
ghost use Rattle.std.specs.List.{All};
ghost use Rattle.core_validate.specs.Validity.{IsValidModule};
ghost use Rattle.core_instance.specs.Spaces.{IsThere, places_of};
ghost use Rattle.core_instance.specs.Instantiation.{Answers, IsClosed, allocated, names_of};
ghost use Rattle.core_instance.specs.Matching.{StaysFine};
ghost use Rattle.core_instance.specs.Exported.{GivesExports, OnlyGrew};

use crate::allocate::{
    add_functions, add_globals, add_memories, add_references, add_segments, add_tables,
    imported_values,
};
use crate::constants::Names;
use crate::copies::share_funcs;
use crate::external::{CoreInstance, Externs};
use crate::places::{copy_places, exports_of, imported_places, spaces_with, start_of};
use crate::segments::{apply_elements, apply_segments};
use core_store::{CoreSpaces, Store, StoreFault, add_instance, instances};
use std::alloc::Global;
use virt_base::NoMemory;
use wasm_ast::Module;

/// The places of an instance's items, and what its constant expressions may name.
#[derive(Drop)]
struct Allocated {
    places: CoreSpaces,
    names: Names,
}

/// Adds a module's items to the store, and the instance itself.
fn allocate(
    alloc: Global,
    store: &mut Store,
    core: &Module,
    imports: &Externs,
) -> Result<Allocated, NoMemory>
    requires closed { All IsClosed core.now.code }
    requires imports { All (IsThere store.old) imports.now }
    ensures store { OnOk result (store.new ≡ allocated store.old core.now imports.now) }
    ensures places { IfOk result (λ made. made.places ≡ places_of store.old core.now imports.now) }
    ensures names { IfOk result (λ made. made.names ≡ names_of store.old core.now imports.now) }
{
    let types = share_funcs(alloc, &core.types)?;
    let mut places = imported_places(alloc, imports.as_slice())?;
    let globals = imported_values(alloc, store, places.globals.as_slice())?;
    add_functions(
        alloc,
        store,
        &mut places.functions,
        instances(store),
        core,
        &types,
    )?;
    let functions = copy_places(alloc, &places.functions)?;
    let names = Names { globals, functions };
    add_tables(alloc, store, &mut places.tables, core.tables.as_slice())?;
    add_memories(alloc, store, &mut places.memories, core.memories.as_slice())?;
    add_globals(
        alloc,
        store,
        &mut places.globals,
        &names,
        core.globals.as_slice(),
    )?;
    add_segments(alloc, store, &mut places.segments, core.segments.as_slice())?;
    add_references(
        alloc,
        store,
        &mut places.elements,
        &names,
        core.elements.as_slice(),
    )?;
    let spaces = spaces_with(alloc, types, &places)?;
    add_instance(alloc, store, spaces)?;
    Ok(Allocated { places, names })
}

/// Makes an instance of a valid module over imports that match it (WebAssembly Core 2.0, section 4.5.4): its items are
/// added to the store, then the active element segments are written, then the active data segments, each in order.
///
/// `Trap` comes exactly where a segment passes the end of its table or memory; what was written before it stays, and the
/// instance's place is taken. The caller runs the start function. After `NoMemory` nothing is said of the store.
/// The exports are those of the module's type: each is there, and a function has the type that it has there.
pub fn instantiate(
    alloc: Global,
    store: &mut Store,
    core: &Module,
    imports: &Externs,
) -> Result<CoreInstance, StoreFault>
    requires valid { IsValidModule core.now }
    requires imports { All (IsThere store.old) imports.now }
    ensures answers { Answers store.old core.now imports.now store.new result }
    ensures fine { StaysFine store.old core.now imports.now store.new result }
    ensures grew { OnlyGrew store.old store.new result }
    ensures exports { IfOk result (GivesExports store.old core.now imports.now store.new) }
{
    let number = instances(store);
    let Allocated { places, names } = allocate(alloc, store, core, imports)?;
    let exports = exports_of(alloc, &places, core.exports.as_slice())?;
    let start = start_of(&places, core.start);
    apply_elements(store, &places, &names, core.elements.as_slice())?;
    apply_segments(store, &places, &names, core.segments.as_slice())?;
    Ok(CoreInstance {
        number,
        exports,
        start,
    })
}
