//! What a listed interface of WASI 0.2 offers: its types, first those that it uses of other interfaces, and its functions, each found by
//! its name.

ghost use Rattle.std.specs.Prelude.{◌≡◌, ◌<◌, ◌^◌, ◌++◌, IfOk, IfSome, OnOk, All, length, map, option_map, position};
ghost use Rattle.std.specs.Option.{option_copied};
ghost use Rattle.std.specs.List.{find};
ghost use Rattle.std.specs.Str.{bytes_eq};
ghost use Rattle.wasi_table.specs.Plain.{plain_named, plain_named_func};
ghost use Rattle.wasi_listed.specs.Listed.{described};
ghost use Rattle.wasi_match.specs.Offered.{offered, used, used_type};
ghost use Rattle.wasi_match.specs.Views.{entries_in};

use std::alloc::Global;
use virt_base::{NoMemory, Text};
use wasi_listed::{INTERFACES, describe};
use wasi_table::{NamedFunc, NamedFuncs, NamedType, NamedTypes, Use};

/// What a listed interface offers: types, of which those that it uses come first, and functions.
#[derive(Debug, Drop)]
pub struct Offered {
    pub types: NamedTypes,
    pub functions: NamedFuncs,
}

fn place_by(types: &[NamedType], name: &Text) -> Option<usize>
    ensures place { result ≡ position (λ t. bytes_eq t.name name.now) types.now }
    ensures bound { IfSome result (λ place. place < length types.now) }
{
    types.iter().position(|t| t.name.bytes() == name.bytes())
}

/// Takes the first type that has the name.
fn take_named(types: NamedTypes, name: &Text) -> Option<NamedType>
    ensures { result ≡ find (λ t. bytes_eq t.name name.now) types }
{
    let place = place_by(types.as_slice(), name);
    let mut types = types.into_vec();
    match place {
        None => None,
        Some(place) => Some(types.swap_remove(place)),
    }
}

/// The type of that name, which the interface with this number defines.
fn defined(alloc: Global, number: u32, name: &Text) -> Result<Option<NamedType>, NoMemory>
    requires { number < INTERFACES }
    ensures { IfOk result (λ ty. option_map plain_named ty ≡ find (λ t. bytes_eq t.name name.now) (described number).types) }
{
    let interface = describe(alloc, number)?;
    Ok(take_named(interface.types, name))
}

/// Adds the type that a use names, as the interface that defines it has it.
fn push_used(alloc: Global, one: &Use, types: &mut NamedTypes) -> Result<(), NoMemory>
    requires { one.now.interface < INTERFACES }
    ensures { OnOk result (map plain_named types.new ≡ map plain_named types.old ++ used_type one.now) }
{
    match defined(alloc, one.interface, &one.name)? {
        None => Ok(()),
        Some(ty) => types.push(ty),
    }
}

/// The types that these uses name.
fn used(alloc: Global, uses: &[Use]) -> Result<NamedTypes, NoMemory>
    requires { All (λ u. u.interface < INTERFACES) uses.now }
    ensures { IfOk result (λ types. map plain_named types ≡ used uses.now) }
{
    let mut types = NamedTypes::empty(alloc);
    for i in 0..uses.len() {
        push_used(alloc, &uses[i], &mut types)?;
    }
    Ok(types)
}

/// Adds types after others.
fn push_all(own: NamedTypes, types: &mut NamedTypes) -> Result<(), NoMemory>
    ensures { OnOk result (map plain_named types.new ≡ map plain_named types.old ++ map plain_named own) }
{
    for ty in own.into_vec() {
        types.push(ty)?;
    }
    Ok(())
}

/// What the interface with this number offers.
pub fn offer_of(alloc: Global, number: u32) -> Result<Offered, NoMemory>
    requires { number < INTERFACES }
    ensures entries { IfOk result (λ o. entries_in o ≡ offered number) }
    ensures functions { IfOk result (λ o. map plain_named_func o.functions ≡ (described number).functions) }
    ensures few { IfOk result (λ o. length o.functions < 2 ^ 32) }
{
    let interface = describe(alloc, number)?;
    let mut types = used(alloc, interface.uses.as_slice())?;
    push_all(interface.types, &mut types)?;
    Ok(Offered {
        types,
        functions: interface.functions,
    })
}

fn type_by<'a>(types: &'a [NamedType], name: &Text) -> Option<&'a NamedType>
    ensures { option_copied result ≡ find (λ t. bytes_eq t.name name.now) types.now }
{
    types.iter().find(|t| t.name.bytes() == name.bytes())
}

/// The first of these types that has the name.
pub fn type_named<'a>(types: &'a [NamedType], name: &Text) -> Option<&'a NamedType>
    ensures { option_map (λ t. plain_named t.now) result ≡ find (λ t. bytes_eq t.name name.now) (map plain_named types.now) }
{
    type_by(types, name)
}

fn function_by<'a>(functions: &'a [NamedFunc], name: &Text) -> Option<&'a NamedFunc>
    ensures { option_copied result ≡ find (λ f. bytes_eq f.name name.now) functions.now }
{
    functions.iter().find(|f| f.name.bytes() == name.bytes())
}

/// The first of these functions that has the name.
pub fn function_named<'a>(functions: &'a [NamedFunc], name: &Text) -> Option<&'a NamedFunc>
    ensures { option_map (λ f. plain_named_func f.now) result ≡ find (λ f. bytes_eq f.name name.now) (map plain_named_func functions.now) }
{
    function_by(functions, name)
}
