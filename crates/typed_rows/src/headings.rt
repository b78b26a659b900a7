//! Types and functions that a heading spells.

use std::alloc::Global;
use std::rc::Rc;
use std::test::Fail;
use virt_base::{Items, NoMemory, Text};
use wasi_table::{Interface, Known, Meaning, NamedFunc, NamedType, describe};
use wit_types::{Case, Cases, Types, WitType};

fn known(alloc: Global, name: &str, ty: WitType) -> Result<Known, NoMemory> {
    Ok(Known {
        interface: 0,
        named: NamedType {
            name: Text::from_str(alloc, name)?,
            meaning: Meaning::Value(ty),
            names: Items::empty(alloc),
        },
    })
}

/// An enum of that many labels: the last is `z`, and each other one `a`.
fn labels(alloc: Global, count: u32) -> Result<WitType, NoMemory> {
    let mut all = Items::empty(alloc);
    for _ in 1..count {
        all.push(Text::from_str(alloc, "a")?)?;
    }
    all.push(Text::from_str(alloc, "z")?)?;
    Ok(WitType::Enum(Rc::new(alloc, all)?))
}

/// A variant of a case with a byte, and that many without a payload after it.
fn cases(alloc: Global, count: u32) -> Result<WitType, NoMemory> {
    let mut items = Vec::new(alloc);
    let name = Text::from_str(alloc, "c")?;
    let ty = Some(Rc::new(alloc, WitType::U8)?);
    items.push(Case { name, ty })?;
    for _ in 0..count {
        let name = Text::from_str(alloc, "c")?;
        items.push(Case { name, ty: None })?;
    }
    Ok(WitType::Variant(Rc::new(alloc, Cases { items })?))
}

/// That many numbers of 64 bits in a tuple.
fn numbers(alloc: Global, count: u32) -> Result<WitType, NoMemory> {
    let mut items = Vec::new(alloc);
    for _ in 0..count {
        items.push(WitType::U64)?;
    }
    Ok(WitType::Tuple(Rc::new(alloc, Types { items })?))
}

/// The number that a label is; 0 for any other label.
fn count_in(label: &str) -> u32 {
    match label.parse::<u32>() {
        Ok(count) => count,
        Err(_) => 0,
    }
}

/// The types and functions of items in the notation of `wasi_table`, in an interface that has the label for its name. There is also
/// what that notation lacks: signed integers, characters, and `labels`, `cases` and `numbers`, with as many parts as the label says.
pub fn read(alloc: Global, label: &str, items: &'static str) -> Result<Interface, NoMemory> {
    let count = count_in(label);
    let mut all = Vec::new(alloc);
    all.push(known(alloc, "s8", WitType::S8)?)?;
    all.push(known(alloc, "s16", WitType::S16)?)?;
    all.push(known(alloc, "s32", WitType::S32)?)?;
    all.push(known(alloc, "s64", WitType::S64)?)?;
    all.push(known(alloc, "char", WitType::Char)?)?;
    all.push(known(alloc, "labels", labels(alloc, count)?)?)?;
    all.push(known(alloc, "cases", cases(alloc, count)?)?)?;
    all.push(known(alloc, "numbers", numbers(alloc, count)?)?)?;
    let mut interface = describe(alloc, all, 0, items, 0)?;
    interface.name = Text::from_str(alloc, label)?;
    Ok(interface)
}

/// The type of the first function's first parameter.
pub fn first_type(interface: &Interface) -> Result<&WitType, Fail> {
    let Some(first) = interface.functions.as_slice().first() else {
        return Err(Fail::from("no function"));
    };
    match first.ty.params.items.first() {
        Some(param) => Ok(&param.ty),
        None => Err(Fail::from("no parameter")),
    }
}

pub fn last_function(interface: &Interface) -> Result<&NamedFunc, Fail> {
    match interface.functions.as_slice().last() {
        Some(last) => Ok(last),
        None => Err(Fail::from("no function")),
    }
}
