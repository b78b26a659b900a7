//! What the world of an adapter is made of.

ghost use Rattle.std.specs.Prelude.{◌≡◌, ◌<◌, IfOk, map};
ghost use Rattle.adapter_world.specs.Names.{named, needed_count, needed_names};

use crate::functions::{is_asked, is_needed_at};
use crate::needs::{NeededInterface, Needs, needs_of};
use crate::reach::{describe_all, is_among, reach_function, reach_name};
use crate::type_names::TypeNames;
use adapter_state::Presence;
use comp_signature::ComponentType;
use comp_types::{InstanceEntry, ItemType};
use policy_data::Policy;
use std::alloc::Global;
use virt_base::{Items, NoMemory, Text};
use wasi_listed::{INTERFACES, describe};
use wasi_match::{Listed, ListedUse};
use wasi_table::{Interface, KINDS, Meaning, NamedFunc, NamedType, NamedTypes, Use};
use wit_types::{FuncType, Labels};

/// What the application imports and what an output needs, with all types that stand there or that their functions name, through
/// other types too.
#[derive(Debug, Drop)]
pub struct World {
    /// Of each kind, whether it is there, and whether the output imports it.
    pub kinds: Vec<Presence>,
    /// The types, by the interfaces that define them, and in the order of their definitions there.
    pub types: Items<WorldType>,
    /// What the application imports, in its order.
    pub imports: Items<WorldImport>,
    /// The functions that the application imports, in the order of their numbers.
    pub functions: Items<WorldFunction>,
    /// What the output imports.
    pub needs: Needs,
}

/// A type, and the number of the interface that defines it.
#[derive(Debug, Drop)]
pub struct WorldType {
    pub interface: u32,
    pub ty: NamedType,
}

/// What the application imports of an interface.
#[derive(Debug, Drop)]
pub struct WorldImport {
    pub interface: u32,
    /// The name of the import, with its version.
    pub name: Text,
    /// The types in the import that the interface uses, in the interface's order.
    pub uses: Labels,
    /// The types in the import that the interface defines, in the interface's order.
    pub types: Labels,
    /// The places among the world's types of these and of all that they and the import's functions name, through other types too.
    pub held: Items<u32>,
    /// The places among the world's functions of those in the import, in the order of their numbers.
    pub functions: Items<u32>,
}

/// A function that the application imports.
#[derive(Debug, Drop)]
pub struct WorldFunction {
    /// Its number among the listed functions.
    pub number: u32,
    pub interface: u32,
    pub function: NamedFunc,
    /// The names of its parameters in the application's import.
    pub params: Labels,
    /// Whether the output imports it too.
    pub needed: bool,
}

/// What the functions of a world are found with.
#[derive(Clone, Copy)]
struct Scene<'a> {
    policy: &'a Policy,
    uses: &'a [ListedUse],
    imports: &'a [InstanceEntry],
}

fn entry_named<'a>(entries: &'a [InstanceEntry], name: &Text) -> Option<&'a InstanceEntry> {
    entries.iter().find(|e| e.name.bytes() == name.bytes())
}

/// The entries of the import at a place.
fn entries_at(imports: &[InstanceEntry], place: usize) -> &[InstanceEntry] {
    match imports.get(place) {
        None => &[],
        Some(import) => match &import.ty {
            ItemType::Instance(instance) => instance.entries.as_slice(),
            ItemType::Func(_) => &[],
            ItemType::Kind(_) => &[],
        },
    }
}

fn use_place(uses: &[ListedUse], interface: u32) -> Option<usize> {
    uses.iter().position(|u| interface == u.interface)
}

/// The entries that the application imports of an interface.
fn entries_of<'a>(scene: &Scene<'a>, interface: u32) -> &'a [InstanceEntry] {
    match use_place(scene.uses, interface) {
        None => &[],
        Some(place) => entries_at(scene.imports, place),
    }
}

fn param_names(alloc: Global, ty: &FuncType) -> Result<Labels, NoMemory> {
    let mut names = Items::empty(alloc);
    for field in &ty.params.items {
        names.push(field.name.copy(alloc)?)?;
    }
    Ok(names)
}

/// The names of the parameters of the function among entries that has a name.
fn params_of(alloc: Global, entries: &[InstanceEntry], name: &Text) -> Result<Labels, NoMemory> {
    match entry_named(entries, name) {
        None => Ok(Items::empty(alloc)),
        Some(entry) => match &entry.ty {
            ItemType::Func(known) => param_names(alloc, known.ty()),
            ItemType::Instance(_) => Ok(Items::empty(alloc)),
            ItemType::Kind(_) => Ok(Items::empty(alloc)),
        },
    }
}

/// The functions of a world in the making, and the number of the next listed function.
#[derive(Drop)]
struct Numbered {
    number: u32,
    functions: Items<WorldFunction>,
}

fn push_function(
    alloc: Global,
    scene: &Scene<'_>,
    interface: u32,
    place: usize,
    function: NamedFunc,
    numbered: &mut Numbered,
) -> Result<(), NoMemory> {
    let number = numbered.number;
    numbered.number = number.saturating_add(1);
    if !is_asked(scene.uses, interface, place) {
        return Ok(());
    }
    let needed = is_needed_at(scene.policy, scene.uses, interface, place, &function);
    let params = params_of(alloc, entries_of(scene, interface), &function.name)?;
    numbered.functions.push(WorldFunction {
        number,
        interface,
        function,
        params,
        needed,
    })
}

fn push_functions(
    alloc: Global,
    scene: &Scene<'_>,
    number: u32,
    numbered: &mut Numbered,
) -> Result<(), NoMemory>
    requires { number < INTERFACES }
{
    let interface = describe(alloc, number)?;
    let mut place: usize = 0;
    for function in interface.functions.into_vec() {
        push_function(alloc, scene, number, place, function, numbered)?;
        place = place.saturating_add(1);
    }
    Ok(())
}

fn functions_of(alloc: Global, scene: &Scene<'_>) -> Result<Items<WorldFunction>, NoMemory> {
    let mut numbered = Numbered {
        number: 0,
        functions: Items::empty(alloc),
    };
    for number in 0..INTERFACES {
        push_functions(alloc, scene, number, &mut numbered)?;
    }
    let Numbered {
        number: _,
        functions,
    } = numbered;
    Ok(functions)
}

fn push_entry(
    alloc: Global,
    all: &[Interface],
    interface: u32,
    entry: &InstanceEntry,
    names: &mut TypeNames,
) -> Result<(), NoMemory> {
    match &entry.ty {
        ItemType::Kind(_) => reach_name(alloc, all, interface, &entry.name, names),
        ItemType::Func(_) => Ok(()),
        ItemType::Instance(_) => Ok(()),
    }
}

fn push_entries(
    alloc: Global,
    all: &[Interface],
    interface: u32,
    entries: &[InstanceEntry],
    names: &mut TypeNames,
) -> Result<(), NoMemory> {
    for entry in entries {
        push_entry(alloc, all, interface, entry, names)?;
    }
    Ok(())
}

fn push_named(
    alloc: Global,
    all: &[Interface],
    interface: u32,
    functions: &[WorldFunction],
    names: &mut TypeNames,
) -> Result<(), NoMemory> {
    for one in functions {
        if one.interface == interface {
            reach_function(alloc, all, interface, &one.function, names)?;
        }
    }
    Ok(())
}

/// The names of types that stand in an import or that its functions name, and all with which they are written.
fn names_in(
    alloc: Global,
    all: &[Interface],
    interface: u32,
    entries: &[InstanceEntry],
    functions: &[WorldFunction],
) -> Result<TypeNames, NoMemory> {
    let mut names = Items::empty(alloc);
    push_entries(alloc, all, interface, entries, &mut names)?;
    push_named(alloc, all, interface, functions, &mut names)?;
    Ok(names)
}

/// The names in each import.
fn names_of(
    alloc: Global,
    all: &[Interface],
    scene: &Scene<'_>,
    functions: &[WorldFunction],
) -> Result<Vec<TypeNames>, NoMemory> {
    let mut each = Vec::new(alloc);
    for place in 0..scene.uses.len() {
        let interface = scene.uses[place].interface;
        let entries = entries_at(scene.imports, place);
        each.push(names_in(alloc, all, interface, entries, functions)?)?;
    }
    Ok(each)
}

/// Whether a name in an interface is in some import.
fn is_in_world(each: &[TypeNames], interface: u32, name: &Text) -> bool {
    each.iter()
        .any(|names| is_among(names.as_slice(), interface, name))
}

fn push_types(
    each: &[TypeNames],
    interface: u32,
    own: NamedTypes,
    types: &mut Items<WorldType>,
) -> Result<(), NoMemory> {
    for ty in own.into_vec() {
        if is_in_world(each, interface, &ty.name) {
            types.push(WorldType { interface, ty })?;
        }
    }
    Ok(())
}

fn types_of(alloc: Global, each: &[TypeNames]) -> Result<Items<WorldType>, NoMemory> {
    let mut types = Items::empty(alloc);
    for number in 0..INTERFACES {
        let interface = describe(alloc, number)?;
        push_types(each, number, interface.types, &mut types)?;
    }
    Ok(types)
}

/// The places of the types that are among these names.
fn held_in(alloc: Global, names: &TypeNames, types: &[WorldType]) -> Result<Items<u32>, NoMemory> {
    let mut held = Items::empty(alloc);
    let mut place: u32 = 0;
    for one in types {
        if is_among(names.as_slice(), one.interface, &one.ty.name) {
            held.push(place)?;
        }
        place = place.saturating_add(1);
    }
    Ok(held)
}

fn places_of(
    alloc: Global,
    interface: u32,
    functions: &[WorldFunction],
) -> Result<Items<u32>, NoMemory> {
    let mut places = Items::empty(alloc);
    let mut place: u32 = 0;
    for one in functions {
        if one.interface == interface {
            places.push(place)?;
        }
        place = place.saturating_add(1);
    }
    Ok(places)
}

/// Those of the types that an interface uses that have an entry.
fn listed_uses(alloc: Global, entries: &[InstanceEntry], uses: &[Use]) -> Result<Labels, NoMemory> {
    let mut names = Items::empty(alloc);
    for one in uses {
        if entry_named(entries, &one.name).is_some() {
            names.push(one.name.copy(alloc)?)?;
        }
    }
    Ok(names)
}

/// Those of an interface's own types that have an entry.
fn listed_types(
    alloc: Global,
    entries: &[InstanceEntry],
    types: &[NamedType],
) -> Result<Labels, NoMemory> {
    let mut names = Items::empty(alloc);
    for one in types {
        if entry_named(entries, &one.name).is_some() {
            names.push(one.name.copy(alloc)?)?;
        }
    }
    Ok(names)
}

fn import_name(alloc: Global, imports: &[InstanceEntry], place: usize) -> Result<Text, NoMemory> {
    match imports.get(place) {
        None => Text::from_str(alloc, ""),
        Some(import) => import.name.copy(alloc),
    }
}

/// The import at a place, where it is one of this interface.
fn import_at(
    alloc: Global,
    scene: &Scene<'_>,
    interface: &Interface,
    place: usize,
    number: u32,
) -> Result<WorldImport, NoMemory> {
    let entries = entries_at(scene.imports, place);
    let name = import_name(alloc, scene.imports, place)?;
    let uses = listed_uses(alloc, entries, interface.uses.as_slice())?;
    let types = listed_types(alloc, entries, interface.types.as_slice())?;
    Ok(WorldImport {
        interface: number,
        name,
        uses,
        types,
        held: Items::empty(alloc),
        functions: Items::empty(alloc),
    })
}

fn push_import(
    alloc: Global,
    all: &[Interface],
    scene: &Scene<'_>,
    place: usize,
    interface: u32,
    imports: &mut Items<WorldImport>,
    parts: (Items<u32>, Items<u32>),
) -> Result<(), NoMemory> {
    match all.get(interface as usize) {
        None => Ok(()),
        Some(described) => {
            let mut import = import_at(alloc, scene, described, place, interface)?;
            import.held = parts.0;
            import.functions = parts.1;
            imports.push(import)
        }
    }
}

fn imports_of(
    alloc: Global,
    all: &[Interface],
    scene: &Scene<'_>,
    each: &[TypeNames],
    types: &[WorldType],
    functions: &[WorldFunction],
) -> Result<Items<WorldImport>, NoMemory> {
    let mut imports = Items::empty(alloc);
    for place in 0..scene.uses.len() {
        let interface = scene.uses[place].interface;
        let held = match each.get(place) {
            None => Items::empty(alloc),
            Some(names) => held_in(alloc, names, types)?,
        };
        let places = places_of(alloc, interface, functions)?;
        push_import(
            alloc,
            all,
            scene,
            place,
            interface,
            &mut imports,
            (held, places),
        )?;
    }
    Ok(imports)
}

fn has_type(one: &NeededInterface, interface: u32, name: &Text) -> bool {
    interface == one.interface
        && one
            .types
            .as_slice()
            .iter()
            .any(|t| t.bytes() == name.bytes())
}

/// Whether the output imports a type of an interface.
fn is_imported(needs: &[NeededInterface], interface: u32, name: &Text) -> bool {
    needs.iter().any(|one| has_type(one, interface, name))
}

fn presence_of(needs: &[NeededInterface], one: &WorldType) -> Presence {
    if is_imported(needs, one.interface, &one.ty.name) {
        Presence::Host
    } else {
        Presence::Own
    }
}

fn is_kind(one: &WorldType, kind: u32) -> bool {
    match one.ty.meaning {
        Meaning::Kind(number) => number == kind,
        Meaning::Value(_) => false,
    }
}

fn presence(needs: &[NeededInterface], types: &[WorldType], kind: u32) -> Presence {
    match types.iter().find(|one| is_kind(one, kind)) {
        None => Presence::Absent,
        Some(one) => presence_of(needs, one),
    }
}

fn kinds_of(
    alloc: Global,
    needs: &[NeededInterface],
    types: &[WorldType],
) -> Result<Vec<Presence>, NoMemory> {
    let mut kinds = Vec::new(alloc);
    for kind in 0..KINDS.len() {
        kinds.push(presence(needs, types, kind as u32))?;
    }
    Ok(kinds)
}

/// The world of the adapter for an application with these imports.
pub fn world_of(
    alloc: Global,
    policy: &Policy,
    listed: &Listed,
    ty: &ComponentType,
) -> Result<World, NoMemory>
    ensures names { IfOk result (λ world. map named world.needs.interfaces ≡ needed_names policy.now listed.now.uses) }
    ensures count { IfOk result (λ world. world.needs.functions ≡ needed_count policy.now listed.now.uses) }
{
    let needs = needs_of(alloc, policy, listed.uses.as_slice())?;
    let scene = Scene {
        policy,
        uses: listed.uses.as_slice(),
        imports: ty.imports.as_slice(),
    };
    let all = describe_all(alloc)?;
    let functions = functions_of(alloc, &scene)?;
    let each = names_of(alloc, &all, &scene, functions.as_slice())?;
    let types = types_of(alloc, &each)?;
    let imports = imports_of(
        alloc,
        &all,
        &scene,
        &each,
        types.as_slice(),
        functions.as_slice(),
    )?;
    let kinds = kinds_of(alloc, needs.interfaces.as_slice(), types.as_slice())?;
    Ok(World {
        kinds,
        types,
        imports,
        functions,
        needs,
    })
}
