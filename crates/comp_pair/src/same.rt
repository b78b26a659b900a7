//! Whether two lists of entries are the same, in order, with the names of parameters.

ghost use Rattle.std.specs.Prelude.{◌≡◌, IfOk, IsTrue};
ghost use Rattle.wit_types.specs.Plain.{plain, fields_of, plain_func, plain_result};
ghost use Rattle.comp_types.specs.Views.{item_of, kind_of, entries_of};

use comp_types::{
    DeclaredInstance, InstanceEntries, InstanceEntry, ItemType, KnownFunc, Substitution, TypeItem,
    are_same, match_value,
};
use std::alloc::Global;
use virt_base::NoMemory;
use wit_types::{Field, FuncType, WitType};

/// True only where both types are one.
fn same_value(alloc: Global, a: &WitType, b: &WitType) -> Result<bool, NoMemory>
    ensures { IfOk result (λ same. IsTrue same → plain a.now ≡ plain b.now) }
{
    let mut by = Substitution::empty(alloc);
    if !match_value(&mut by, a, b)? {
        return Ok(false);
    }
    Ok(are_same(&by))
}

fn same_fields(alloc: Global, a: &[Field], b: &[Field]) -> Result<bool, NoMemory>
    ensures { IfOk result (λ same. IsTrue same → fields_of a.now ≡ fields_of b.now) }
{
    let mut rest = a;
    let mut others = b;
    while let Some((x, more)) = rest.split_first() {
        let Some((y, left)) = others.split_first() else {
            return Ok(false);
        };
        if !x.name.is_same(&y.name) {
            return Ok(false);
        }
        if !same_value(alloc, &x.ty, &y.ty)? {
            return Ok(false);
        }
        rest = more;
        others = left;
    }
    Ok(others.is_empty())
}

#[tactic(auto, using(wit_types::proofs::PlainLemmas::plains))]
fn same_result(alloc: Global, a: &Option<WitType>, b: &Option<WitType>) -> Result<bool, NoMemory>
    ensures { IfOk result (λ same. IsTrue same → plain_result a.now ≡ plain_result b.now) }
{
    match (a, b) {
        (None, None) => Ok(true),
        (Some(a), Some(b)) => {
            let same = same_value(alloc, a, b)?;
            Ok(same)
        }
        (None, Some(_)) => Ok(false),
        (Some(_), None) => Ok(false),
    }
}

#[tactic(auto, using(wit_types::proofs::PlainLemmas::plains))]
fn same_type(alloc: Global, a: &FuncType, b: &FuncType) -> Result<bool, NoMemory>
    ensures { IfOk result (λ same. IsTrue same → plain_func a.now ≡ plain_func b.now) }
{
    if !same_fields(alloc, a.params.items.as_slice(), b.params.items.as_slice())? {
        return Ok(false);
    }
    let same = same_result(alloc, &a.result, &b.result)?;
    Ok(same)
}

fn same_func(alloc: Global, a: &KnownFunc, b: &KnownFunc) -> Result<bool, NoMemory>
    ensures { IfOk result (λ same. IsTrue same → a.now ≡ b.now) }
{
    let same = same_type(alloc, a.ty(), b.ty())?;
    Ok(same)
}

fn same_numbers(a: &[u32], b: &[u32]) -> bool
    ensures { IsTrue result → a.now ≡ b.now }
{
    a == b
}

#[cycle(same_entries)]
fn same_declared(
    alloc: Global,
    a: &DeclaredInstance,
    b: &DeclaredInstance,
) -> Result<bool, NoMemory>
    ensures own { IfOk result (λ same. IsTrue same → a.now.own ≡ b.now.own) }
    ensures entries { IfOk result (λ same. IsTrue same → a.now.instance.value.entries ≡ b.now.instance.value.entries) }
{
    if !same_numbers(a.own.as_slice(), b.own.as_slice()) {
        return Ok(false);
    }
    let same = same_entries(
        alloc,
        a.instance.entries.as_slice(),
        b.instance.entries.as_slice(),
    )?;
    Ok(same)
}

#[cycle(same_entries)]
fn same_kind(alloc: Global, a: &TypeItem, b: &TypeItem) -> Result<bool, NoMemory>
    ensures { IfOk result (λ same. IsTrue same → kind_of a.now ≡ kind_of b.now) }
{
    match (a, b) {
        (TypeItem::Resource(x), TypeItem::Resource(y)) => Ok(*x == *y),
        (TypeItem::Value(x), TypeItem::Value(y)) => {
            let same = same_value(alloc, x.ty(), y.ty())?;
            Ok(same)
        }
        (TypeItem::Func(x), TypeItem::Func(y)) => {
            let same = same_func(alloc, x, y)?;
            Ok(same)
        }
        (TypeItem::Instance(x), TypeItem::Instance(y)) => {
            let same = same_declared(alloc, x, y)?;
            Ok(same)
        }
        _ => Ok(false),
    }
}

#[cycle(same_entries)]
fn same_item(alloc: Global, a: &ItemType, b: &ItemType) -> Result<bool, NoMemory>
    ensures { IfOk result (λ same. IsTrue same → item_of a.now ≡ item_of b.now) }
{
    match (a, b) {
        (ItemType::Func(x), ItemType::Func(y)) => {
            let same = same_func(alloc, x, y)?;
            Ok(same)
        }
        (ItemType::Instance(x), ItemType::Instance(y)) => {
            let same = same_entries(alloc, x.entries.as_slice(), y.entries.as_slice())?;
            Ok(same)
        }
        (ItemType::Kind(x), ItemType::Kind(y)) => {
            let same = same_kind(alloc, x, y)?;
            Ok(same)
        }
        _ => Ok(false),
    }
}

#[cycle(same_entries)]
fn same_entries(alloc: Global, a: &[InstanceEntry], b: &[InstanceEntry]) -> Result<bool, NoMemory>
    ensures { IfOk result (λ same. IsTrue same → entries_of a.now ≡ entries_of b.now) }
{
    let mut rest = a;
    let mut others = b;
    while let Some((x, more)) = rest.split_first() {
        let Some((y, left)) = others.split_first() else {
            return Ok(false);
        };
        if !x.name.is_same(&y.name) {
            return Ok(false);
        }
        if !same_item(alloc, &x.ty, &y.ty)? {
            return Ok(false);
        }
        rest = more;
        others = left;
    }
    Ok(others.is_empty())
}

/// The most parts that are compared.
const MOST_PARTS: u32 = 1_000_000;

/// True only where both lists are one. False also of lists that are too large to compare: more than 1,000,000 parts when they are
/// written out.
pub fn same_exports(
    alloc: Global,
    a: &InstanceEntries,
    b: &InstanceEntries,
) -> Result<bool, NoMemory>
    ensures { IfOk result (λ same. IsTrue same → a.now ≡ b.now) }
{
    if b.parts() > MOST_PARTS {
        return Ok(false);
    }
    let same = same_entries(alloc, a.as_slice(), b.as_slice())?;
    Ok(same)
}
