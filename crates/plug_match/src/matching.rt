//! Whether one item is another, with a partner for each resource of it.

ghost use Rattle.std.specs.Prelude.{◌≡◌, IfOk};
ghost use Rattle.comp_types.specs.Items.{InstanceKind};
ghost use Rattle.comp_types.specs.Views.{item_of, kind_of, entries_of};
ghost use Rattle.comp_types.specs.Matching.{GoesOn, all_named, matched_item, matched_kind, matched_entries};

use crate::unpacking::unpack;
use comp_types::{
    DeclaredInstance, InstanceEntries, InstanceEntry, ItemType, Substitution, TypeItem, match_func,
    match_value,
};
use std::alloc::Global;
use virt_base::NoMemory;

fn all_named(these: &[InstanceEntry], entries: &InstanceEntries) -> bool
    ensures { result ≡ all_named (entries_of these.now) entries.now }
{
    for entry in these {
        if entries.look_up(&entry.name).is_none() {
            return false;
        }
    }
    true
}

/// Inside two instance types a walk begins anew, since the resources that they declare are none outside.
#[cycle(match_item)]
fn match_declared(
    alloc: Global,
    by: &mut Substitution,
    a: &DeclaredInstance,
    b: &DeclaredInstance,
) -> Result<bool, NoMemory>
    ensures { IfOk result (λ same. GoesOn same by.new (matched_kind by.old (InstanceKind a.now.own a.now.instance.value.entries) (InstanceKind b.now.own b.now.instance.value.entries))) }
{
    let others = &a.instance.entries;
    let entries = &b.instance.entries;
    if !all_named(others.as_slice(), entries) {
        return Ok(false);
    }
    let mut inside = Substitution::empty(alloc);
    if !match_entries(alloc, &mut inside, others, entries.as_slice())? {
        return Ok(false);
    }
    let same = unpack(alloc, by, a.own.as_slice(), b.own.as_slice(), &inside)?;
    Ok(same)
}

#[cycle(match_item)]
fn match_kind(
    alloc: Global,
    by: &mut Substitution,
    a: &TypeItem,
    b: &TypeItem,
) -> Result<bool, NoMemory>
    ensures { IfOk result (λ same. GoesOn same by.new (matched_kind by.old (kind_of a.now) (kind_of b.now))) }
{
    match (a, b) {
        (TypeItem::Resource(x), TypeItem::Resource(y)) => {
            let same = by.meet(*y, *x)?;
            Ok(same)
        }
        (TypeItem::Value(a), TypeItem::Value(b)) => {
            let same = match_value(by, a.ty(), b.ty())?;
            Ok(same)
        }
        (TypeItem::Func(a), TypeItem::Func(b)) => {
            let same = match_func(by, a.ty(), b.ty())?;
            Ok(same)
        }
        (TypeItem::Instance(a), TypeItem::Instance(b)) => {
            let same = match_declared(alloc, by, a, b)?;
            Ok(same)
        }
        (TypeItem::Resource(_), _) => Ok(false),
        (TypeItem::Value(_), _) => Ok(false),
        (TypeItem::Func(_), _) => Ok(false),
        (TypeItem::Instance(_), _) => Ok(false),
    }
}

/// Whether the first item is the second one.
#[cycle(match_item)]
fn match_item(
    alloc: Global,
    by: &mut Substitution,
    a: &ItemType,
    b: &ItemType,
) -> Result<bool, NoMemory>
    ensures { IfOk result (λ same. GoesOn same by.new (matched_item by.old (item_of a.now) (item_of b.now))) }
{
    match (a, b) {
        (ItemType::Func(a), ItemType::Func(b)) => {
            let same = match_func(by, a.ty(), b.ty())?;
            Ok(same)
        }
        (ItemType::Instance(a), ItemType::Instance(b)) => {
            if !all_named(a.entries.as_slice(), &b.entries) {
                return Ok(false);
            }
            let same = match_entries(alloc, by, &a.entries, b.entries.as_slice())?;
            Ok(same)
        }
        (ItemType::Kind(a), ItemType::Kind(b)) => {
            let same = match_kind(alloc, by, a, b)?;
            Ok(same)
        }
        (ItemType::Func(_), _) => Ok(false),
        (ItemType::Instance(_), _) => Ok(false),
        (ItemType::Kind(_), _) => Ok(false),
    }
}

/// Whether each of the entries is one of these.
#[cycle(match_item)]
pub fn match_entries(
    alloc: Global,
    by: &mut Substitution,
    these: &InstanceEntries,
    entries: &[InstanceEntry],
) -> Result<bool, NoMemory>
    ensures { IfOk result (λ same. GoesOn same by.new (matched_entries by.old these.now (entries_of entries.now))) }
{
    for i in 0..entries.len() {
        let Some(other) = these.look_up(&entries[i].name) else {
            return Ok(false);
        };
        if !match_item(alloc, by, other, &entries[i].ty)? {
            return Ok(false);
        }
    }
    Ok(true)
}
