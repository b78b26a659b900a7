//! Types that a text spells.

use std::alloc::Global;
use virt_base::{Items, NoMemory, Text};
use wasi_table::{Interface, Known, Meaning, NamedType, describe};
use wit_types::WitType;

fn scalar(alloc: Global, name: &str, ty: WitType) -> Result<Known, NoMemory> {
    Ok(Known {
        interface: 0,
        named: NamedType {
            name: Text::from_str(alloc, name)?,
            meaning: Meaning::Value(ty),
            names: Items::empty(alloc),
        },
    })
}

/// The types and functions of a text in the notation of `wasi_table`, which lacks signed integers and characters.
pub fn read(alloc: Global, text: &'static str) -> Result<Interface, NoMemory> {
    let mut known = Vec::new(alloc);
    known.push(scalar(alloc, "s8", WitType::S8)?)?;
    known.push(scalar(alloc, "s16", WitType::S16)?)?;
    known.push(scalar(alloc, "s32", WitType::S32)?)?;
    known.push(scalar(alloc, "s64", WitType::S64)?)?;
    known.push(scalar(alloc, "char", WitType::Char)?)?;
    describe(alloc, known, 0, text, 0)
}
