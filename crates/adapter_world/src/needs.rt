//! What an output imports: for each needed interface its name, and the names in it.

ghost use Rattle.std.specs.Prelude.{◌≡◌, ◌==◌, ◌++◌, ◌<◌, IfOk, OnOk, map, length};
ghost use Rattle.std.specs.Option.{option_copied};
ghost use Rattle.std.specs.List.{find, flat_map};
ghost use Rattle.wasi_table.specs.Plain.{plain_interface, plain_named_func};
ghost use Rattle.wasi_listed.specs.Listed.{described};
ghost use Rattle.adapter_world.specs.Needed.{if_needed, needed_from, needed_in};
ghost use Rattle.adapter_world.specs.Behind.{function_types};
ghost use Rattle.adapter_world.specs.Names.{if_some, import_name, imports_with, named, needed_count, needed_import, needed_names, needed_types, types_through, version_of};

use crate::functions::{is_needed_at, needed_functions, needed_places};
use crate::reach::{describe_all, reach_function};
use crate::shown::{shown_types, shown_uses};
use crate::type_names::{TypeName, TypeNames};
use policy_data::Policy;
use std::alloc::Global;
use virt_base::{Items, NoMemory, Text};
use wasi_listed::{INTERFACES, describe};
use wasi_match::ListedUse;
use wasi_table::{Interface, NamedFunc};
use wit_types::Labels;

/// What an output imports of an interface.
#[derive(Debug, Drop)]
pub struct NeededInterface {
    /// The interface's number.
    pub interface: u32,
    /// Its name with the version by which it is imported.
    pub name: Text,
    /// The types that it exports as equal to those of other interfaces.
    pub uses: Labels,
    /// Its own types.
    pub types: Labels,
    /// The names of its functions, in the order of their numbers.
    pub names: Labels,
    /// The places of these functions among those that the application imports.
    pub functions: Items<u32>,
}

/// What an output imports.
#[derive(Debug, Drop)]
pub struct Needs {
    /// The needed interfaces in the order of their numbers.
    pub interfaces: Items<NeededInterface>,
    /// How many functions are needed.
    pub functions: u32,
}

fn use_of(uses: &[ListedUse], interface: u32) -> Option<&ListedUse>
    ensures { option_copied result ≡ find (λ u. u.interface == interface) uses.now }
{
    uses.iter().find(|u| u.interface == interface)
}

/// The version by which an interface is imported.
fn version_of(uses: &[ListedUse], interface: u32) -> &str
    ensures { result.now ≡ version_of uses.now interface }
{
    match use_of(uses, interface) {
        Some(one) => one.version.as_str(),
        None => "0.2.0",
    }
}

/// The name of an interface with its version.
pub fn import_name(
    alloc: Global,
    uses: &[ListedUse],
    number: u32,
    name: &Text,
) -> Result<Text, NoMemory>
    ensures { IfOk result (λ t. t ≡ import_name uses.now number name.now) }
{
    let mut text = String::from_str(alloc, name.as_str())?;
    text.push_str("@")?;
    text.push_str(version_of(uses, number))?;
    Ok(Text::from_string(text))
}

fn reach_if_needed(
    alloc: Global,
    policy: &Policy,
    uses: &[ListedUse],
    all: &[Interface],
    at: (u32, usize),
    function: &NamedFunc,
    types: &mut TypeNames,
) -> Result<(), NoMemory>
    ensures { OnOk result (types.new ≡ types.old ++ flat_map (function_types (map plain_interface all.now) at.0) (if_needed policy.now uses.now at.0 at.1 (plain_named_func function.now))) }
{
    if is_needed_at(policy, uses, at.0, at.1, function) {
        reach_function(alloc, all, at.0, function, types)
    } else {
        Ok(())
    }
}

fn reach_functions(
    alloc: Global,
    policy: &Policy,
    uses: &[ListedUse],
    all: &[Interface],
    interface: u32,
    functions: &[NamedFunc],
    types: &mut TypeNames,
) -> Result<(), NoMemory>
    ensures { OnOk result (types.new ≡ types.old ++ flat_map (function_types (map plain_interface all.now) interface) (needed_from policy.now uses.now interface 0 (map plain_named_func functions.now))) }
{
    for place in 0..functions.len() {
        let at = (interface, place);
        reach_if_needed(alloc, policy, uses, all, at, &functions[place], types)?;
    }
    Ok(())
}

/// Adds the names of types that an interface's needed functions name, through other types too.
fn reach_needed(
    alloc: Global,
    policy: &Policy,
    uses: &[ListedUse],
    all: &[Interface],
    number: u32,
    types: &mut TypeNames,
) -> Result<(), NoMemory>
    requires { number < INTERFACES }
    ensures { OnOk result (types.new ≡ types.old ++ flat_map (function_types (map plain_interface all.now) number) (needed_in policy.now uses.now number)) }
{
    let interface = describe(alloc, number)?;
    let functions = interface.functions.as_slice();
    reach_functions(alloc, policy, uses, all, number, functions, types)
}

#[tactic(auto, using(crate::proofs::Below::counting), unfolding(crate::specs::Names::types_through))]
fn types_through(
    alloc: Global,
    policy: &Policy,
    uses: &[ListedUse],
    all: &[Interface],
) -> Result<TypeNames, NoMemory>
    ensures { IfOk result (λ types. types ≡ types_through (map plain_interface all.now) policy.now uses.now) }
{
    let mut types = Items::empty(alloc);
    for number in 0..INTERFACES {
        reach_needed(alloc, policy, uses, all, number, &mut types)?;
    }
    Ok(types)
}

/// The names of types that needed functions name, through other types too.
fn needed_types(alloc: Global, policy: &Policy, uses: &[ListedUse]) -> Result<TypeNames, NoMemory>
    ensures { IfOk result (λ types. types ≡ needed_types policy.now uses.now) }
{
    let all = describe_all(alloc)?;
    types_through(alloc, policy, uses, &all)
}

/// What is needed of an interface, if anything is.
fn needed_interface(
    alloc: Global,
    policy: &Policy,
    uses: &[ListedUse],
    types: &[TypeName],
    number: u32,
) -> Result<NeededInterface, NoMemory>
    requires { number < INTERFACES }
    ensures { IfOk result (λ one. if_some one.name ((one.uses ++ one.types) ++ one.names) ≡ needed_import policy.now uses.now types.now number (described number)) }
{
    let interface = describe(alloc, number)?;
    let name = import_name(alloc, uses, number, &interface.name)?;
    let shown = shown_uses(alloc, types, number, interface.uses.as_slice())?;
    let own = shown_types(alloc, types, number, interface.types.as_slice())?;
    let functions = interface.functions.as_slice();
    let names = needed_functions(alloc, policy, uses, number, functions)?;
    let places = needed_places(alloc, policy, uses, number, functions)?;
    Ok(NeededInterface {
        interface: number,
        name,
        uses: shown,
        types: own,
        names,
        functions: places,
    })
}

fn is_empty(one: &NeededInterface) -> bool
    ensures { result ≡ (length ((one.now.uses ++ one.now.types) ++ one.now.names) == 0) }
{
    one.uses.is_empty() && one.types.is_empty() && one.names.is_empty()
}

#[tactic(auto, using(crate::proofs::Sparse::sparse))]
fn push_interface(
    one: NeededInterface,
    interfaces: &mut Items<NeededInterface>,
) -> Result<(), NoMemory>
    ensures { OnOk result (map named interfaces.new ≡ map named interfaces.old ++ if_some one.name ((one.uses ++ one.types) ++ one.names)) }
{
    if is_empty(&one) {
        Ok(())
    } else {
        interfaces.push(one)
    }
}

#[tactic(auto, using(crate::proofs::Below::counting), unfolding(crate::specs::Names::imports_with))]
fn imports_with(
    alloc: Global,
    policy: &Policy,
    uses: &[ListedUse],
    types: &[TypeName],
) -> Result<Items<NeededInterface>, NoMemory>
    ensures { IfOk result (λ interfaces. map named interfaces ≡ imports_with policy.now uses.now types.now) }
{
    let mut interfaces = Items::empty(alloc);
    for number in 0..INTERFACES {
        let one = needed_interface(alloc, policy, uses, types, number)?;
        push_interface(one, &mut interfaces)?;
    }
    Ok(interfaces)
}

fn needed_interfaces(
    alloc: Global,
    policy: &Policy,
    uses: &[ListedUse],
) -> Result<Items<NeededInterface>, NoMemory>
    ensures { IfOk result (λ interfaces. map named interfaces ≡ needed_names policy.now uses.now) }
{
    let types = needed_types(alloc, policy, uses)?;
    imports_with(alloc, policy, uses, types.as_slice())
}

/// How many functions of an interface are needed.
fn count_in(
    alloc: Global,
    policy: &Policy,
    uses: &[ListedUse],
    number: u32,
) -> Result<usize, NoMemory>
    requires { number < INTERFACES }
    ensures { IfOk result (λ count. count ≡ length (needed_in policy.now uses.now number)) }
{
    let interface = describe(alloc, number)?;
    let functions = interface.functions.as_slice();
    let names = needed_functions(alloc, policy, uses, number, functions)?;
    Ok(names.len())
}

/// How many functions are needed.
#[tactic(auto, unfolding(crate::specs::Names::needed_count))]
fn count_needed(alloc: Global, policy: &Policy, uses: &[ListedUse]) -> Result<u32, NoMemory>
    ensures { IfOk result (λ count. count ≡ needed_count policy.now uses.now) }
{
    let mut count = 0;
    for number in 0..INTERFACES {
        let more = count_in(alloc, policy, uses, number)?;
        count += more as u32;
    }
    Ok(count)
}

/// What an output imports for an application with these imports.
pub fn needs_of(alloc: Global, policy: &Policy, uses: &[ListedUse]) -> Result<Needs, NoMemory>
    ensures names { IfOk result (λ needs. map named needs.interfaces ≡ needed_names policy.now uses.now) }
    ensures count { IfOk result (λ needs. needs.functions ≡ needed_count policy.now uses.now) }
{
    let interfaces = needed_interfaces(alloc, policy, uses)?;
    let functions = count_needed(alloc, policy, uses)?;
    Ok(Needs {
        interfaces,
        functions,
    })
}
