//! Types of items: labels, arguments, names, and the type of a component.

use crate::rows::{Asked, hold, is_printed, number_in, parts, printed, same};
use comp_facts::Facts;
use comp_signature::ComponentType;
use comp_types::{InstanceEntries, InstanceType, ItemType, KnownValue, TypeItem};
use std::alloc::Global;
use std::rc::Rc;
use std::test::Fail;
use type_relations::{equal, is_given};
use type_table::TypeTable;
use virt_base::{Items, NoMemory, Text};
use wasm_ast::Primitive;
use wit_types::{Field, Fields, WitType};

#[tactic(auto, using(wit_types::proofs::PlainLemmas::plains))]
fn byte(alloc: Global) -> KnownValue {
    KnownValue::new(
        WitType::U8,
        Facts::primitive(Primitive::U8),
        Items::empty(alloc),
    )
}

/// A record of one field, a byte.
fn record(alloc: Global, name: &str) -> Result<WitType, NoMemory> {
    let mut items = Vec::new(alloc);
    let name = Text::from_str(alloc, name)?;
    items.push(Field {
        name,
        ty: WitType::U8,
    })?;
    Ok(WitType::Record(Rc::new(alloc, Fields { items })?))
}

fn value(alloc: Global, value: KnownValue) -> Result<ItemType, Fail> {
    Ok(ItemType::Kind(TypeItem::Value(Rc::new(alloc, value)?)))
}

fn resource(resource: u32) -> ItemType {
    ItemType::Kind(TypeItem::Resource(resource))
}

/// A name and the number of a resource after `=`.
fn add_resource(alloc: Global, all: &mut InstanceEntries, row: &str) -> Result<(), Fail> {
    let (name, number) = parts(row, "=")?;
    let number = number_in(number)?;
    Ok(all.push(Text::from_str(alloc, name)?, resource(number))?)
}

/// Entries in the order of lines.
fn resources(alloc: Global, rows: &str) -> Result<InstanceEntries, Fail> {
    let mut all = InstanceEntries::empty(alloc);
    for row in rows.lines() {
        add_resource(alloc, &mut all, row)?;
    }
    Ok(all)
}

/// Whether an entry of that name is there and of the resource of that number.
fn found(
    alloc: Global,
    all: &InstanceEntries,
    name: &str,
    number: u32,
) -> Result<Option<bool>, Fail> {
    let name = Text::from_str(alloc, name)?;
    match all.look_up(&name) {
        Some(ty) => {
            let none = TypeTable::none(alloc);
            Ok(Some(equal(alloc, &none, ty, &resource(number))?))
        }
        None => Ok(None),
    }
}

/// Among these entries, the first of a name is found, by the whole name alone.
const ENTRIES: &str = "b=1\na=2\nab=3\na=4\n=5";

const NAMES: &str = "\
b=1 => Some(true)
a=2 => Some(true)
ab=3 => Some(true)
=5 => Some(true)
B=1 => None
abc=1 => None
c=1 => None";

pub fn looked_up(alloc: Global, asked: &str) -> Result<String, Fail> {
    let (name, number) = parts(asked, "=")?;
    let number = number_in(number)?;
    let all = resources(alloc, ENTRIES)?;
    printed(alloc, &found(alloc, &all, name, number)?)
}

#[test]
fn names(rt: HostRuntime) -> Result<(), Fail> {
    let alloc = rt.alloc();
    let all = resources(alloc, ENTRIES)?;
    is_printed(alloc, "entries", &all.as_slice().len(), "5")?;
    hold(alloc, Asked::Name, NAMES)
}

/// An import and an export that are there, and an export that is not.
fn found_in(alloc: Global, ty: &ComponentType) -> Result<String, Fail> {
    let imported = found(alloc, &ty.imports, "a", 1)?;
    let exported = found(alloc, &ty.exports, "c", 2)?;
    let absent = found(alloc, &ty.exports, "a", 1)?;
    printed(alloc, &(imported, exported, absent))
}

/// The type of a component holds both lists as they are.
#[test]
fn components(rt: HostRuntime) -> Result<(), Fail> {
    let alloc = rt.alloc();
    let imports = resources(alloc, "a=1")?;
    let exports = resources(alloc, "b=1\nc=2")?;
    let found = found_in(alloc, &ComponentType { imports, exports })?;
    same(
        "a component",
        found.as_str(),
        "(Some(true), Some(true), None)",
    )
}

/// Two types, each a record of one byte, and whether they are equal, both ways round. Labels count, with their case.
const LABELS: &str = "\
a-b a-b => (true, true)
a-b A-b => (false, false)
a-b a-bc => (false, false)";

fn record_of(alloc: Global, types: &mut TypeTable, label: &str) -> Result<ItemType, Fail> {
    let ty = record(alloc, label)?;
    Ok(ItemType::Kind(TypeItem::Value(types.add_whole(alloc, &ty)?)))
}

fn both_ways(alloc: Global, types: &TypeTable, a: &ItemType, b: &ItemType) -> Result<String, Fail> {
    printed(
        alloc,
        &(equal(alloc, types, a, b)?, equal(alloc, types, b, a)?),
    )
}

pub fn equals(alloc: Global, asked: &str) -> Result<String, Fail> {
    let (a, b) = parts(asked, " ")?;
    let mut types = TypeTable::none(alloc);
    let a = record_of(alloc, &mut types, a)?;
    let b = record_of(alloc, &mut types, b)?;
    both_ways(alloc, &types, &a, &b)
}

#[test]
fn labels(rt: HostRuntime) -> Result<(), Fail> {
    hold(rt.alloc(), Asked::Equal, LABELS)
}

fn add_byte(alloc: Global, all: &mut InstanceEntries, name: &str) -> Result<(), Fail> {
    let name = Text::from_str(alloc, name)?;
    Ok(all.push(name, value(alloc, byte(alloc))?)?)
}

/// An entry of a byte for each of one name or two.
fn bytes(alloc: Global, names: &str) -> Result<InstanceEntries, Fail> {
    let mut all = InstanceEntries::empty(alloc);
    match names.split_once(' ') {
        Some((first, second)) => {
            add_byte(alloc, &mut all, first)?;
            add_byte(alloc, &mut all, second)?;
        }
        None => add_byte(alloc, &mut all, names)?,
    }
    Ok(all)
}

/// One entry, whose name stands before `: `, an instance with these entries after it; or no entry.
fn instances(alloc: Global, words: &str) -> Result<InstanceEntries, Fail> {
    let mut all = InstanceEntries::empty(alloc);
    if let Some((name, names)) = words.split_once(": ") {
        let entries = bytes(alloc, names)?;
        let ty = ItemType::Instance(Rc::new(alloc, InstanceType { entries })?);
        all.push(Text::from_str(alloc, name)?, ty)?;
    }
    Ok(all)
}

/// Whether arguments give what imports ask for. An argument that is an instance may have more entries; it has its import's name.
const GIVEN: &str = "\
i: a, i: a => true
i: b, i: a => false
i: a b, i: b => true
i: b, i: a b => false
i: a b, j: b => false
i: a b, none => true
none, i: a b => false";

pub fn given(alloc: Global, asked: &str) -> Result<String, Fail> {
    let (arguments, imports) = parts(asked, ", ")?;
    let arguments = instances(alloc, arguments)?;
    let imports = instances(alloc, imports)?;
    let none = TypeTable::none(alloc);
    printed(alloc, &is_given(alloc, &none, &arguments, &imports)?)
}

#[test]
fn arguments(rt: HostRuntime) -> Result<(), Fail> {
    hold(rt.alloc(), Asked::Given, GIVEN)
}
