//! Types of items are matched, entry by entry, and arguments with the imports of a component.

ghost use Rattle.std.specs.Prelude.{◌≡◌, IfOk};
ghost use Rattle.comp_types.specs.Items.{InstanceKind};
ghost use Rattle.comp_types.specs.Views.{item_of, kind_of, entries_of};
ghost use Rattle.comp_types.specs.Matching.{all_named};
ghost use Rattle.type_relations.specs.Walked.{MeetsItem, MeetsKind, MeetsEntries, MeetsArgument, MeetsArguments};

use crate::unpack::unpack;
use comp_types::{
    DeclaredInstance, InstanceEntries, InstanceEntry, ItemType, Substitution, TypeItem,
};
use std::alloc::Global;
use type_table::Matching;
use virt_base::NoMemory;

fn all_named(these: &[InstanceEntry], entries: &InstanceEntries) -> bool
    ensures { result ≡ all_named (entries_of these.now) entries.now }
{
    for entry in these {
        if entries.look_up(&entry.name).is_none() {
            return false;
        }
    }
    true
}

/// Inside two instance types a walk begins anew, since the resources that they declare are none outside.
#[cycle(match_item)]
fn match_declared(
    alloc: Global,
    walk: &mut Matching<'_>,
    a: &DeclaredInstance,
    b: &DeclaredInstance,
) -> Result<bool, NoMemory>
    ensures met { IfOk result (MeetsKind walk.old walk.new (InstanceKind a.now.own a.now.instance.value.entries) (InstanceKind b.now.own b.now.instance.value.entries)) }
    ensures kept { walk.new.types ≡ walk.old.types }
{
    let others = &a.instance.entries;
    let entries = &b.instance.entries;
    if !all_named(others.as_slice(), entries) {
        return Ok(false);
    }
    let mut inside = Matching::new(alloc, walk.table(), Substitution::empty(alloc));
    if !match_entries(alloc, &mut inside, others, entries.as_slice())? {
        return Ok(false);
    }
    let same = unpack(
        alloc,
        walk,
        a.own.as_slice(),
        b.own.as_slice(),
        inside.pairs(),
    )?;
    Ok(same)
}

#[cycle(match_item)]
fn match_kind(
    alloc: Global,
    walk: &mut Matching<'_>,
    a: &TypeItem,
    b: &TypeItem,
) -> Result<bool, NoMemory>
    ensures met { IfOk result (MeetsKind walk.old walk.new (kind_of a.now) (kind_of b.now)) }
    ensures kept { walk.new.types ≡ walk.old.types }
{
    match (a, b) {
        (TypeItem::Resource(x), TypeItem::Resource(y)) => {
            let same = walk.meet(*y, *x)?;
            Ok(same)
        }
        (TypeItem::Value(a), TypeItem::Value(b)) => {
            let same = walk.match_known(a, b)?;
            Ok(same)
        }
        (TypeItem::Func(a), TypeItem::Func(b)) => {
            let same = walk.match_known_func(a, b)?;
            Ok(same)
        }
        (TypeItem::Instance(a), TypeItem::Instance(b)) => {
            let same = match_declared(alloc, walk, a, b)?;
            Ok(same)
        }
        (TypeItem::Resource(_), _) => Ok(false),
        (TypeItem::Value(_), _) => Ok(false),
        (TypeItem::Func(_), _) => Ok(false),
        (TypeItem::Instance(_), _) => Ok(false),
    }
}

/// Whether the first item is the second one, with a partner for each resource of it.
#[cycle(match_item)]
pub fn match_item(
    alloc: Global,
    walk: &mut Matching<'_>,
    a: &ItemType,
    b: &ItemType,
) -> Result<bool, NoMemory>
    ensures met { IfOk result (MeetsItem walk.old walk.new (item_of a.now) (item_of b.now)) }
    ensures kept { walk.new.types ≡ walk.old.types }
{
    match (a, b) {
        (ItemType::Func(a), ItemType::Func(b)) => {
            let same = walk.match_known_func(a, b)?;
            Ok(same)
        }
        (ItemType::Instance(a), ItemType::Instance(b)) => {
            if !all_named(a.entries.as_slice(), &b.entries) {
                return Ok(false);
            }
            let same = match_entries(alloc, walk, &a.entries, b.entries.as_slice())?;
            Ok(same)
        }
        (ItemType::Kind(a), ItemType::Kind(b)) => {
            let same = match_kind(alloc, walk, a, b)?;
            Ok(same)
        }
        (ItemType::Func(_), _) => Ok(false),
        (ItemType::Instance(_), _) => Ok(false),
        (ItemType::Kind(_), _) => Ok(false),
    }
}

/// Whether each of the entries is one of these, with a partner for each resource of theirs.
#[cycle(match_item)]
pub fn match_entries(
    alloc: Global,
    walk: &mut Matching<'_>,
    these: &InstanceEntries,
    entries: &[InstanceEntry],
) -> Result<bool, NoMemory>
    ensures met { IfOk result (MeetsEntries walk.old walk.new these.now (entries_of entries.now)) }
    ensures kept { walk.new.types ≡ walk.old.types }
{
    for i in 0..entries.len() {
        let Some(other) = these.look_up(&entries[i].name) else {
            return Ok(false);
        };
        if !match_item(alloc, walk, other, &entries[i].ty)? {
            return Ok(false);
        }
    }
    Ok(true)
}

fn match_argument(
    alloc: Global,
    walk: &mut Matching<'_>,
    given: &ItemType,
    item: &ItemType,
) -> Result<bool, NoMemory>
    ensures met { IfOk result (MeetsArgument walk.old walk.new (item_of given.now) (item_of item.now)) }
    ensures kept { walk.new.types ≡ walk.old.types }
{
    match (given, item) {
        (ItemType::Instance(a), ItemType::Instance(b)) => {
            let same = match_entries(alloc, walk, &a.entries, b.entries.as_slice())?;
            Ok(same)
        }
        (ItemType::Func(_), _) => {
            let same = match_item(alloc, walk, given, item)?;
            Ok(same)
        }
        (ItemType::Kind(_), _) => {
            let same = match_item(alloc, walk, given, item)?;
            Ok(same)
        }
        (ItemType::Instance(_), ItemType::Func(_)) => Ok(false),
        (ItemType::Instance(_), ItemType::Kind(_)) => Ok(false),
    }
}

/// Whether each import is given an argument of its type, with a partner for each resource of the imports.
pub fn match_arguments(
    alloc: Global,
    walk: &mut Matching<'_>,
    args: &InstanceEntries,
    imports: &[InstanceEntry],
) -> Result<bool, NoMemory>
    ensures met { IfOk result (MeetsArguments walk.old walk.new args.now (entries_of imports.now)) }
    ensures kept { walk.new.types ≡ walk.old.types }
{
    for i in 0..imports.len() {
        let Some(given) = args.look_up(&imports[i].name) else {
            return Ok(false);
        };
        if !match_argument(alloc, walk, given, &imports[i].ty)? {
            return Ok(false);
        }
    }
    Ok(true)
}
