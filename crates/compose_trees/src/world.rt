//! The world of the adapter in the words of the catalogue: its functions as they are declared, the interfaces that are imported, and types
//! by their numbers.

use crate::catalogue::Catalogue;
use crate::declare::Declared;
use crate::imports::Imported;
use adapter_world::{NeededInterface, World, WorldFunction, WorldImport, WorldType};
use std::alloc::Global;
use virt_base::NoMemory;

/// A function of the world, as it is declared.
pub fn declared(function: &WorldFunction) -> Declared<'_> {
    Declared {
        number: function.number,
        interface: function.interface,
        function: &function.function,
        params: function.params.as_slice(),
    }
}

/// The functions at places, as they are declared.
pub fn declared_at<'a>(
    alloc: Global,
    world: &'a World,
    places: &[u32],
) -> Result<Vec<Declared<'a>>, NoMemory> {
    let mut list = Vec::new(alloc);
    for place in places {
        if let Some(function) = world.functions.as_slice().get(*place as usize) {
            list.push(declared(function))?;
        }
    }
    Ok(list)
}

/// The interfaces that are imported from the host.
pub fn needed<'a>(
    alloc: Global,
    catalogue: &Catalogue,
    world: &'a World,
) -> Result<Vec<Imported<'a>>, NoMemory> {
    let mut list = Vec::new(alloc);
    for interface in world.needs.interfaces.as_slice() {
        list.push(needed_interface(alloc, catalogue, world, interface)?)?;
    }
    Ok(list)
}

fn needed_interface<'a>(
    alloc: Global,
    catalogue: &Catalogue,
    world: &'a World,
    needed: &'a NeededInterface,
) -> Result<Imported<'a>, NoMemory> {
    let mut types = catalogue.numbers(alloc, needed.interface, needed.uses.as_slice())?;
    let own = catalogue.numbers(alloc, needed.interface, needed.types.as_slice())?;
    for number in own {
        types.push(number)?;
    }
    let functions = declared_at(alloc, world, needed.functions.as_slice())?;
    Ok(Imported {
        name: &needed.name,
        named: Vec::new(alloc),
        types,
        functions,
    })
}

/// The numbers of the types that an import shows: those that it lists, uses before its own.
pub fn shown_in(
    alloc: Global,
    catalogue: &Catalogue,
    import: &WorldImport,
) -> Result<Vec<usize>, NoMemory> {
    let mut types = catalogue.numbers(alloc, import.interface, import.uses.as_slice())?;
    let own = catalogue.numbers(alloc, import.interface, import.types.as_slice())?;
    for number in own {
        types.push(number)?;
    }
    Ok(types)
}

/// The numbers of types of the world.
pub fn numbers_of(
    alloc: Global,
    catalogue: &Catalogue,
    types: &[WorldType],
) -> Result<Vec<usize>, NoMemory> {
    let mut numbers = Vec::new(alloc);
    for ty in types {
        push_number(catalogue, ty, &mut numbers)?;
    }
    Ok(numbers)
}

/// The numbers of the types of the world at places.
pub fn numbers_at(
    alloc: Global,
    catalogue: &Catalogue,
    types: &[WorldType],
    places: &[u32],
) -> Result<Vec<usize>, NoMemory> {
    let mut numbers = Vec::new(alloc);
    for place in places {
        if let Some(ty) = types.get(*place as usize) {
            push_number(catalogue, ty, &mut numbers)?;
        }
    }
    Ok(numbers)
}

fn push_number(
    catalogue: &Catalogue,
    ty: &WorldType,
    numbers: &mut Vec<usize>,
) -> Result<(), NoMemory> {
    if let Some(number) = catalogue.named(ty.interface, &ty.ty.name) {
        numbers.push(number)?;
    }
    Ok(())
}
