//! The types with which a type is written, through others too.

ghost use Rattle.std.specs.Prelude.{◌≡◌, ◌∷◌, [], ◌++◌, IfOk, OnOk, map, option_map, slice_get};
ghost use Rattle.std.specs.List.{list_any, flat_map};
ghost use Rattle.wasi_table.specs.Plain.{plain_interface, plain_named, plain_named_func};
ghost use Rattle.adapter_world.specs.Behind.{behind, defined_by, function_types, in_interface, interfaces, named_by, named_through, reached, written_with};
ghost use Rattle.adapter_world.specs.Names.{is_named};

use crate::type_names::{TypeName, TypeNames};
use std::alloc::Global;
use virt_base::{Items, NoMemory, Text};
use wasi_listed::{INTERFACES, describe};
use wasi_table::{Interface, NamedFunc, NamedType, Use};

/// No type is written through more others than these.
const MOST_THROUGH: u32 = 8;

/// The listed interfaces in order.
#[tactic(auto, using(crate::proofs::Below::counting), unfolding(crate::specs::Behind::interfaces))]
pub fn describe_all(alloc: Global) -> Result<Vec<Interface>, NoMemory>
    ensures { IfOk result (λ all. map plain_interface all.items ≡ interfaces) }
{
    let mut all = Vec::new(alloc);
    for number in 0..INTERFACES {
        let interface = describe(alloc, number)?;
        all.push(interface)?;
    }
    Ok(all)
}

fn push_name(
    alloc: Global,
    interface: u32,
    name: &Text,
    names: &mut TypeNames,
) -> Result<(), NoMemory>
    ensures { OnOk result (names.new ≡ names.old ++ named_by interface name.now) }
{
    let name = name.copy(alloc)?;
    names.push(TypeName { interface, name })
}

fn push_use(alloc: Global, one: &Use, name: &Text, names: &mut TypeNames) -> Result<(), NoMemory>
    ensures { OnOk result (names.new ≡ names.old ++ defined_by name.now one.now) }
{
    if one.name.bytes() == name.bytes() {
        push_name(alloc, one.interface, name, names)
    } else {
        Ok(())
    }
}

fn push_uses(
    alloc: Global,
    uses: &[Use],
    name: &Text,
    names: &mut TypeNames,
) -> Result<(), NoMemory>
    ensures { OnOk result (names.new ≡ names.old ++ flat_map (defined_by name.now) uses.now) }
{
    for i in 0..uses.len() {
        push_use(alloc, &uses[i], name, names)?;
    }
    Ok(())
}

/// Adds these names in an interface.
fn push_labels(
    alloc: Global,
    interface: u32,
    labels: &[Text],
    names: &mut TypeNames,
) -> Result<(), NoMemory>
    ensures { OnOk result (names.new ≡ names.old ++ flat_map (named_by interface) labels.now) }
{
    for i in 0..labels.len() {
        push_name(alloc, interface, &labels[i], names)?;
    }
    Ok(())
}

fn push_type(
    alloc: Global,
    interface: u32,
    ty: &NamedType,
    name: &Text,
    names: &mut TypeNames,
) -> Result<(), NoMemory>
    ensures { OnOk result (names.new ≡ names.old ++ written_with interface name.now (plain_named ty.now)) }
{
    if ty.name.bytes() == name.bytes() {
        push_labels(alloc, interface, ty.names.as_slice(), names)
    } else {
        Ok(())
    }
}

fn push_types(
    alloc: Global,
    interface: u32,
    types: &[NamedType],
    name: &Text,
    names: &mut TypeNames,
) -> Result<(), NoMemory>
    ensures { OnOk result (names.new ≡ names.old ++ flat_map (written_with interface name.now) (map plain_named types.now)) }
{
    for i in 0..types.len() {
        push_type(alloc, interface, &types[i], name, names)?;
    }
    Ok(())
}

fn interface_at(all: &[Interface], number: u32) -> Option<&Interface>
    ensures { option_map (λ i. plain_interface i.now) result ≡ slice_get (map plain_interface all.now) number }
{
    all.get(number as usize)
}

/// The names with which a name is written. One that an interface uses stands for that of the interface that defines it.
fn behind(alloc: Global, all: &[Interface], name: &TypeName) -> Result<TypeNames, NoMemory>
    ensures { IfOk result (λ names. names ≡ behind (map plain_interface all.now) name.now) }
{
    let mut names = Items::empty(alloc);
    match interface_at(all, name.interface) {
        None => Ok(names),
        Some(interface) => {
            let uses = interface.uses.as_slice();
            push_uses(alloc, uses, &name.name, &mut names)?;
            let types = interface.types.as_slice();
            push_types(alloc, name.interface, types, &name.name, &mut names)?;
            Ok(names)
        }
    }
}

/// Adds a name and those with which it is written, through at most that many more.
#[tactic(auto, using(crate::proofs::Reached::reaching))]
fn reach(
    alloc: Global,
    all: &[Interface],
    left: u32,
    name: &TypeName,
    names: &mut TypeNames,
) -> Result<(), NoMemory>
    ensures { OnOk result (names.new ≡ names.old ++ reached (map plain_interface all.now) left name.now) }
{
    push_name(alloc, name.interface, &name.name, names)?;
    if left == 0 {
        return Ok(());
    }
    let more = behind(alloc, all, name)?;
    let more = more.as_slice();
    for i in 0..more.len() {
        reach(alloc, all, left - 1, &more[i], names)?;
    }
    Ok(())
}

/// Adds a name in an interface and all with which it is written.
pub fn reach_name(
    alloc: Global,
    all: &[Interface],
    interface: u32,
    name: &Text,
    names: &mut TypeNames,
) -> Result<(), NoMemory>
    ensures { OnOk result (names.new ≡ names.old ++ named_through (map plain_interface all.now) interface name.now) }
{
    let name = name.copy(alloc)?;
    let name = TypeName { interface, name };
    reach(alloc, all, MOST_THROUGH, &name, names)
}

/// Adds the names in the type of a function of an interface, and all with which they are written.
pub fn reach_function(
    alloc: Global,
    all: &[Interface],
    interface: u32,
    function: &NamedFunc,
    names: &mut TypeNames,
) -> Result<(), NoMemory>
    ensures { OnOk result (names.new ≡ names.old ++ function_types (map plain_interface all.now) interface (plain_named_func function.now)) }
{
    let labels = function.names.as_slice();
    for i in 0..labels.len() {
        reach_name(alloc, all, interface, &labels[i], names)?;
    }
    Ok(())
}

fn is_named(one: &TypeName, interface: u32, name: &Text) -> bool
    ensures { result ≡ is_named interface name.now one.now }
{
    interface == one.interface && one.name.bytes() == name.bytes()
}

/// Whether a name in an interface is among these.
pub fn is_among(names: &[TypeName], interface: u32, name: &Text) -> bool
    ensures { result ≡ list_any (is_named interface name.now) names.now }
{
    names.iter().any(|one| is_named(one, interface, name))
}
