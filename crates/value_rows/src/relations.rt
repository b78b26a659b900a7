//! Instance types that are given where others are asked for, and types with other resources.

use crate::rows::{Asked, hold, number_in, parts, printed};
use comp_facts::Facts;
use comp_types::{
    InstanceEntries, InstanceEntry, InstanceType, ItemType, KnownValue, Substitution, TypeItem,
};
use std::alloc::Global;
use std::rc::Rc;
use std::test::Fail;
use type_relations::{substitute, subtype};
use type_table::TypeTable;
use virt_base::{Items, NoMemory, Text};
use wit_types::WitType;

/// Pairs as `7-1`, a resource and its partner, one after another; or `none`.
fn pairs(alloc: Global, words: &str) -> Result<Substitution, Fail> {
    let mut by = Substitution::empty(alloc);
    if words == "none" {
        return Ok(by);
    }
    for pair in words.split(' ') {
        let (resource, partner) = parts(pair, "-")?;
        by.push(number_in(resource)?, number_in(partner)?)?;
    }
    Ok(by)
}

#[tactic(auto, using(wit_types::proofs::PlainLemmas::plains))]
fn handle(alloc: Global, resource: u32) -> Result<TypeItem, NoMemory> {
    let ty = KnownValue::new(
        WitType::Own(resource),
        Facts::own(resource),
        Items::empty(alloc),
    );
    Ok(TypeItem::Value(Rc::new(alloc, ty)?))
}

/// An entry as `r=1`, a resource, or as `h~1`, the type of an owned handle.
fn add_entry(alloc: Global, all: &mut InstanceEntries, word: &str) -> Result<(), Fail> {
    let (name, kind) = match word.split_once('~') {
        Some((name, number)) => (name, handle(alloc, number_in(number)?)?),
        None => {
            let (name, number) = parts(word, "=")?;
            (name, TypeItem::Resource(number_in(number)?))
        }
    };
    Ok(all.push(Text::from_str(alloc, name)?, ItemType::Kind(kind))?)
}

/// An instance type with entries, one after another.
fn instance(alloc: Global, words: &str) -> Result<InstanceType, Fail> {
    let mut entries = InstanceEntries::empty(alloc);
    for word in words.split(' ') {
        add_entry(alloc, &mut entries, word)?;
    }
    Ok(InstanceType { entries })
}

/// What is given, what is asked for, and partners of resources of the latter. Each resource has one partner, which may be that of others
/// too; what is given may have more entries.
const SUBTYPES: &str = "\
r=1, r=7, none => true
r=1, r=7, 7-1 => true
r=1, r=7, 7-2 => false
r=1 s=2, r=7 s=8, none => true
r=1 s=2, s=8 r=7, none => true
r=1 s=1, r=7 s=8, none => true
r=1 s=2, r=7 s=7, none => false
r=1 s=2, r=7, none => true
r=1, r=7 s=8, none => false
s=1, r=7, none => false
r=1 h~1, r=7 h~7, none => true
r=1 h~2, r=7 h~7, none => false
r=1 h~2, r=7 h~7, 7-2 => false
h~2, h~7, 7-2 => true
r=1, r~1, none => false
r~1, r=1, none => false";

pub fn subtypes(alloc: Global, asked: &str) -> Result<String, Fail> {
    let (given, wanted) = parts(asked, ", ")?;
    let (wanted, matched) = parts(wanted, ", ")?;
    let given = instance(alloc, given)?;
    let wanted = instance(alloc, wanted)?;
    let matched = pairs(alloc, matched)?;
    let none = TypeTable::none(alloc);
    printed(alloc, &subtype(alloc, &none, &given, &wanted, &matched)?)
}

#[test]
fn subtyping(rt: HostRuntime) -> Result<(), Fail> {
    hold(rt.alloc(), Asked::Subtype, SUBTYPES)
}

/// Resources become their partners, all at once; the others stay.
const SUBSTITUTED: &str = "\
r=1 s=2, 1-5 => r=5 s=2
r=1 s=2, none => r=1 s=2
r=1 s=1, 1-5 => r=5 s=5
r=1 s=2, 1-2 2-1 => r=2 s=1
r=1 h~1 i~2, 1-5 => r=5 h~5 i~2
h~1, 1-1 => h~1
h~1, 2-1 => h~1";

/// An entry as it is spelled in rows.
fn spelled(alloc: Global, entry: &InstanceEntry) -> Result<String, Fail> {
    let name = entry.name.as_str();
    match &entry.ty {
        ItemType::Kind(TypeItem::Resource(number)) => Ok(format!(in alloc; "{name}={number}")?),
        ItemType::Kind(TypeItem::Value(ty)) => match ty.ty() {
            WitType::Own(number) => Ok(format!(in alloc; "{name}~{number}")?),
            _ => Err(Fail::new("a type that is no owned handle")),
        },
        _ => Err(Fail::new("an entry that is no type")),
    }
}

fn all_spelled(alloc: Global, entries: &[InstanceEntry]) -> Result<String, Fail> {
    let mut all = String::new(alloc);
    for entry in entries {
        if !all.is_empty() {
            all.push(' ')?;
        }
        all.push_str(spelled(alloc, entry)?.as_str())?;
    }
    Ok(all)
}

pub fn substituted(alloc: Global, asked: &str) -> Result<String, Fail> {
    let (ty, by) = parts(asked, ", ")?;
    let ty = ItemType::Instance(Rc::new(alloc, instance(alloc, ty)?)?);
    let by = pairs(alloc, by)?;
    let mut types = TypeTable::none(alloc);
    match substitute(alloc, &mut types, &ty, &by)? {
        ItemType::Instance(ty) => all_spelled(alloc, ty.entries.as_slice()),
        _ => Err(Fail::new("no instance type")),
    }
}

#[test]
fn substitution(rt: HostRuntime) -> Result<(), Fail> {
    hold(rt.alloc(), Asked::Substituted, SUBSTITUTED)
}
