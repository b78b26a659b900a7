//! Entries in words, with semicolons between them: `resource NAME 3`, `type NAME TYPE`, `func NAME TYPE.. -> TYPE`, `functype NAME ..`,
//! `instance NAME` up to its `end`, and `declared NAME 3` for an instance type with a resource of its own, or `declared NAME`.

use crate::matching::types::Types;
use crate::spelling::number;
use comp_signature::ComponentType;
use comp_types::{DeclaredInstance, InstanceEntries, InstanceType, ItemType, TypeItem};
use std::alloc::Global;
use std::rc::Rc;
use std::test::Fail;
use virt_base::{Items, Text};

fn declared(alloc: Global, rest: &str) -> Result<TypeItem, Fail> {
    let mut own = Items::empty(alloc);
    if !rest.is_empty() {
        own.push(number(rest)?)?;
    }
    let entries = InstanceEntries::empty(alloc);
    let instance = Rc::new(alloc, InstanceType { entries })?;
    Ok(TypeItem::Instance(Rc::new(alloc, DeclaredInstance { own, instance })?))
}

fn function(kind: TypeItem) -> Result<ItemType, Fail> {
    match kind {
        TypeItem::Func(ty) => Ok(ItemType::Func(ty)),
        _ => Err(Fail::from("no function")),
    }
}

fn item(alloc: Global, types: &mut Types, keyword: &str, rest: &str) -> Result<ItemType, Fail> {
    match keyword {
        "resource" => Ok(ItemType::Kind(TypeItem::Resource(number(rest)?))),
        "type" => {
            let value = types.value(alloc, rest)?;
            Ok(ItemType::Kind(TypeItem::Value(value)))
        }
        "func" => function(types.func(alloc, rest)?),
        "functype" => Ok(ItemType::Kind(types.func(alloc, rest)?)),
        "declared" => Ok(ItemType::Kind(declared(alloc, rest)?)),
        _ => Err(Fail::from("an unknown keyword")),
    }
}

/// The entries that a text spells.
fn entries(alloc: Global, types: &mut Types, text: &str) -> Result<InstanceEntries, Fail> {
    let mut open = InstanceEntries::empty(alloc);
    let mut around = Vec::new(alloc);
    for line in text.split(';') {
        let line = line.trim();
        if line.is_empty() || line == "nothing" {
            continue;
        }
        if line == "end" {
            let Some((name, outer)) = around.pop() else {
                return Err(Fail::from("nothing is open"));
            };
            let instance = Rc::new(alloc, InstanceType { entries: open })?;
            open = outer;
            open.push(name, ItemType::Instance(instance))?;
            continue;
        }
        let Some((keyword, rest)) = line.split_once(' ') else {
            return Err(Fail::from("no name"));
        };
        let (name, rest) = match rest.split_once(' ') {
            Some(parts) => parts,
            None => (rest, ""),
        };
        let name = Text::from_str(alloc, name)?;
        if keyword == "instance" {
            around.push((name, open))?;
            open = InstanceEntries::empty(alloc);
        } else {
            let item = item(alloc, types, keyword, rest)?;
            open.push(name, item)?;
        }
    }
    Ok(open)
}

/// The component type with these imports and exports.
pub fn component(alloc: Global, imports: &str, exports: &str) -> Result<ComponentType, Fail> {
    let mut types = Types::new(alloc);
    let imports = entries(alloc, &mut types, imports)?;
    let exports = entries(alloc, &mut types, exports)?;
    Ok(ComponentType { imports, exports })
}
