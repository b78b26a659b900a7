//! The entries of an imported instance against what the interface offers under their names, with a kind for each resource; and the places
//! of the functions among them.

ghost use Rattle.std.specs.Prelude.{◌≡◌, ◌<◌, ◌^◌, ◌++◌, IfOk, IfSome, OnOk, map, length, position};
ghost use Rattle.std.specs.Str.{bytes_eq};
ghost use Rattle.wit_types.specs.Plain.{plain_func};
ghost use Rattle.wasi_table.specs.Plain.{plain_meaning, plain_named_func};
ghost use Rattle.comp_types.specs.Items.{FuncItem, look_up};
ghost use Rattle.comp_types.specs.Views.{item_of, entries_of};
ghost use Rattle.comp_types.specs.Matching.{GoesOn, if_found, matched_item, matched_entries};
ghost use Rattle.wasi_match.specs.Offered.{meant};
ghost use Rattle.wasi_match.specs.Listed.{place_in, places};
ghost use Rattle.wasi_match.specs.Views.{entries_in};

use crate::offered::{Offered, function_named, type_named};
use comp_types::{InstanceEntry, ItemType, Substitution, TypeItem, match_func, match_value};
use std::alloc::Global;
use virt_base::{Items, NoMemory, Text};
use wasi_table::{Meaning, NamedFunc};
use wit_types::FuncType;

/// Whether an entry is the type that is meant, with a kind for each resource of it.
fn match_meaning(
    by: &mut Substitution,
    meaning: &Meaning,
    item: &ItemType,
) -> Result<bool, NoMemory>
    ensures { IfOk result (λ same. GoesOn same by.new (matched_item by.old (meant (plain_meaning meaning.now)) (item_of item.now))) }
{
    match (meaning, item) {
        (Meaning::Kind(kind), ItemType::Kind(TypeItem::Resource(resource))) => {
            let same = by.meet(*resource, *kind)?;
            Ok(same)
        }
        (Meaning::Value(ty), ItemType::Kind(TypeItem::Value(known))) => {
            let same = match_value(by, ty, known.ty())?;
            Ok(same)
        }
        (Meaning::Kind(_), _) => Ok(false),
        (Meaning::Value(_), _) => Ok(false),
    }
}

/// Whether an entry is a function of that type, with a kind for each resource of it.
fn match_function(by: &mut Substitution, ty: &FuncType, item: &ItemType) -> Result<bool, NoMemory>
    ensures { IfOk result (λ same. GoesOn same by.new (matched_item by.old (FuncItem (plain_func ty.now)) (item_of item.now))) }
{
    match item {
        ItemType::Func(known) => {
            let same = match_func(by, ty, known.ty())?;
            Ok(same)
        }
        ItemType::Instance(_) => Ok(false),
        ItemType::Kind(_) => Ok(false),
    }
}

/// Whether an entry is what the interface offers under its name.
fn match_entry(
    by: &mut Substitution,
    offered: &Offered,
    entry: &InstanceEntry,
) -> Result<bool, NoMemory>
    ensures { IfOk result (λ same. GoesOn same by.new (if_found (λ other. matched_item by.old other (item_of entry.now.ty)) (look_up entry.now.name (entries_in offered.now)))) }
{
    match type_named(offered.types.as_slice(), &entry.name) {
        Some(found) => {
            let same = match_meaning(by, &found.meaning, &entry.ty)?;
            Ok(same)
        }
        None => match function_named(offered.functions.as_slice(), &entry.name) {
            None => Ok(false),
            Some(found) => {
                let same = match_function(by, &found.ty, &entry.ty)?;
                Ok(same)
            }
        },
    }
}

/// Whether each of the entries is what the interface offers under its name.
pub fn match_entries(
    by: &mut Substitution,
    offered: &Offered,
    entries: &[InstanceEntry],
) -> Result<bool, NoMemory>
    ensures { IfOk result (λ same. GoesOn same by.new (matched_entries by.old (entries_in offered.now) (entries_of entries.now))) }
{
    for i in 0..entries.len() {
        if !match_entry(by, offered, &entries[i])? {
            return Ok(false);
        }
    }
    Ok(true)
}

fn place_by(functions: &[NamedFunc], name: &Text) -> Option<usize>
    ensures place { result ≡ position (λ f. bytes_eq f.name name.now) functions.now }
    ensures bound { IfSome result (λ place. place < length functions.now) }
{
    functions
        .iter()
        .position(|f| f.name.bytes() == name.bytes())
}

/// The place of the first function that has the name.
fn place_of(functions: &[NamedFunc], name: &Text) -> Option<usize>
    ensures place { result ≡ position (λ f. bytes_eq f.name name.now) (map plain_named_func functions.now) }
    ensures bound { IfSome result (λ place. place < length functions.now) }
{
    place_by(functions, name)
}

/// One place more, where the entry is a function.
fn push_place(
    functions: &[NamedFunc],
    entry: &InstanceEntry,
    places: &mut Items<u32>,
) -> Result<(), NoMemory>
    requires { length functions.now < 2 ^ 32 }
    ensures { OnOk result (places.new ≡ places.old ++ place_in (map plain_named_func functions.now) entry.now.name (item_of entry.now.ty)) }
{
    match &entry.ty {
        ItemType::Func(_) => match place_of(functions, &entry.name) {
            None => Ok(()),
            Some(place) => places.push(place as u32),
        },
        ItemType::Instance(_) => Ok(()),
        ItemType::Kind(_) => Ok(()),
    }
}

/// The places of the functions that the entries name, in their order.
pub fn places(
    alloc: Global,
    functions: &[NamedFunc],
    entries: &[InstanceEntry],
) -> Result<Items<u32>, NoMemory>
    requires { length functions.now < 2 ^ 32 }
    ensures { IfOk result (λ found. found ≡ places (map plain_named_func functions.now) (entries_of entries.now)) }
{
    let mut found = Items::empty(alloc);
    for i in 0..entries.len() {
        push_place(functions, &entries[i], &mut found)?;
    }
    Ok(found)
}
