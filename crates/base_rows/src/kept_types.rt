//! What is kept of a definition gives the definition back.

use crate::rows::{printed, same};
use std::alloc::Global;
use std::test::Fail;
use virt_base::{Items, Text};
use wasm_ast::{CaseType, KeptType, LabelType, Labels, MaybeType, Primitive, TypeDef, ValType};

fn label(alloc: Global, number: u32) -> Result<Text, Fail> {
    let label = match number % 3 {
        0 => "",
        1 => "é",
        _ => "a-b",
    };
    Ok(Text::from_str(alloc, label)?)
}

fn value(number: u32) -> ValType {
    if number % 2 == 0 {
        ValType::Primitive(Primitive::Char)
    } else {
        ValType::Index(number)
    }
}

fn labels(alloc: Global, count: u32) -> Result<Labels, Fail> {
    let mut labels = Items::empty(alloc);
    for number in 0..count {
        labels.push(label(alloc, number)?)?;
    }
    Ok(labels)
}

fn fields(alloc: Global, count: u32) -> Result<Items<LabelType>, Fail> {
    let mut fields = Items::empty(alloc);
    for number in 0..count {
        let label = label(alloc, number)?;
        fields.push(LabelType {
            label,
            ty: value(number),
        })?;
    }
    Ok(fields)
}

fn cases(alloc: Global, count: u32) -> Result<Items<CaseType>, Fail> {
    let mut cases = Items::empty(alloc);
    for number in 0..count {
        let label = label(alloc, number)?;
        let ty = if number == 1 {
            None
        } else {
            Some(value(number))
        };
        cases.push(CaseType { label, ty })?;
    }
    Ok(cases)
}

fn types(alloc: Global, count: u32) -> Result<Items<ValType>, Fail> {
    let mut types = Items::empty(alloc);
    for number in 0..count {
        types.push(value(number))?;
    }
    Ok(types)
}

fn keeps(alloc: Global, def: TypeDef) -> Result<(), Fail> {
    let before = printed(alloc, &def)?;
    let kept = KeptType::new(alloc, def)?;
    let found = Box::new(alloc, kept.def(alloc)?)?;
    same(
        "a definition",
        printed(alloc, &*found)?.as_str(),
        before.as_str(),
    )
}

fn keeps_lists(alloc: Global, count: u32) -> Result<(), Fail> {
    keeps(
        alloc,
        TypeDef::Record {
            fields: fields(alloc, count)?,
        },
    )?;
    keeps(
        alloc,
        TypeDef::Variant {
            cases: cases(alloc, count)?,
        },
    )?;
    keeps(
        alloc,
        TypeDef::Tuple {
            types: types(alloc, count)?,
        },
    )?;
    keeps(
        alloc,
        TypeDef::Flags {
            labels: labels(alloc, count)?,
        },
    )?;
    keeps(
        alloc,
        TypeDef::Enum {
            labels: labels(alloc, count)?,
        },
    )?;
    let result = MaybeType::new(Some(value(count)));
    keeps(
        alloc,
        TypeDef::Func {
            params: fields(alloc, count)?,
            result,
        },
    )
}

#[test]
fn keeps_definitions(rt: HostRuntime) -> Result<(), Fail> {
    let alloc = rt.alloc();
    for count in 0..5 {
        keeps_lists(alloc, count)?;
    }
    let (ok, err) = (MaybeType::new(None), MaybeType::new(Some(value(0))));
    keeps(alloc, TypeDef::Result { ok, err })
}
