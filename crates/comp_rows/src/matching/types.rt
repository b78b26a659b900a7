//! Types in words: a form in front of its parts, `own:3` and `borrow:3` for handles of a resource, and labels after a form of
//! their own, as `enum:a,b` or `record:a,b u8 string`.

use crate::spelling::number;
use comp_defining::{kind_of, value_at};
use comp_scopes::Scope;
use comp_types::{ItemType, KnownValue, TypeItem};
use std::alloc::Global;
use std::rc::Rc;
use std::test::Fail;
use virt_base::{Items, Text};
use wasm_ast::{CaseType, LabelType, Labels, MaybeType, Primitive, TypeDef, ValType};

/// The types that were read so far.
#[derive(Drop)]
pub struct Types {
    scope: Scope,
    count: u32,
}

fn primitive(word: &str) -> Option<Primitive> {
    match word {
        "bool" => Some(Primitive::Bool),
        "u8" => Some(Primitive::U8),
        "u16" => Some(Primitive::U16),
        "u32" => Some(Primitive::U32),
        "s64" => Some(Primitive::S64),
        "u64" => Some(Primitive::U64),
        "string" => Some(Primitive::String),
        _ => None,
    }
}

fn labels(alloc: Global, text: &str) -> Result<Labels, Fail> {
    let mut labels = Items::empty(alloc);
    for label in text.split(',') {
        labels.push(Text::from_str(alloc, label)?)?;
    }
    Ok(labels)
}

fn first(stack: &mut Vec<Option<ValType>>) -> Result<Option<ValType>, Fail> {
    match stack.pop() {
        Some(ty) => Ok(ty),
        None => Err(Fail::from("a type is missing")),
    }
}

fn first_value(stack: &mut Vec<Option<ValType>>) -> Result<ValType, Fail> {
    match first(stack)? {
        Some(ty) => Ok(ty),
        None => Err(Fail::from("a type is due")),
    }
}

fn fields(
    alloc: Global,
    names: &str,
    stack: &mut Vec<Option<ValType>>,
) -> Result<Items<LabelType>, Fail> {
    let mut fields = Items::empty(alloc);
    for name in names.split(',') {
        let label = Text::from_str(alloc, name)?;
        let ty = first_value(stack)?;
        fields.push(LabelType { label, ty })?;
    }
    Ok(fields)
}

fn cases(
    alloc: Global,
    names: &str,
    stack: &mut Vec<Option<ValType>>,
) -> Result<Items<CaseType>, Fail> {
    let mut cases = Items::empty(alloc);
    for name in names.split(',') {
        let label = Text::from_str(alloc, name)?;
        let ty = first(stack)?;
        cases.push(CaseType { label, ty })?;
    }
    Ok(cases)
}

fn tuple(
    alloc: Global,
    size: u32,
    stack: &mut Vec<Option<ValType>>,
) -> Result<Items<ValType>, Fail> {
    let mut types = Items::empty(alloc);
    for _ in 0..size {
        types.push(first_value(stack)?)?;
    }
    Ok(types)
}

impl Types {
    pub fn new(alloc: Global) -> Types {
        Types {
            scope: Scope::new(alloc, true, 0),
            count: 0,
        }
    }

    fn add(&mut self, kind: TypeItem) -> Result<u32, Fail> {
        let index = self.count;
        let Some(next) = index.checked_add(1) else {
            return Err(Fail::from("too many types"));
        };
        self.scope.add_item(ItemType::Kind(kind))?;
        self.count = next;
        Ok(index)
    }

    fn define(&mut self, alloc: Global, def: &TypeDef) -> Result<Option<ValType>, Fail> {
        let kind = kind_of(alloc, &self.scope, def)?;
        let index = self.add(kind)?;
        Ok(Some(ValType::Index(index)))
    }

    fn resource(&mut self, text: &str) -> Result<u32, Fail> {
        let resource = number(text)?;
        self.add(TypeItem::Resource(resource))
    }

    /// The type of a word with something after a colon.
    fn headed(
        &mut self,
        alloc: Global,
        head: &str,
        rest: &str,
        stack: &mut Vec<Option<ValType>>,
    ) -> Result<Option<ValType>, Fail> {
        let def = match head {
            "own" => TypeDef::Own(self.resource(rest)?),
            "borrow" => TypeDef::Borrow(self.resource(rest)?),
            "tuple" => TypeDef::Tuple {
                types: tuple(alloc, number(rest)?, stack)?,
            },
            "enum" => TypeDef::Enum {
                labels: labels(alloc, rest)?,
            },
            "flags" => TypeDef::Flags {
                labels: labels(alloc, rest)?,
            },
            "record" => TypeDef::Record {
                fields: fields(alloc, rest, stack)?,
            },
            "variant" => TypeDef::Variant {
                cases: cases(alloc, rest, stack)?,
            },
            _ => return Err(Fail::from("an unknown form")),
        };
        self.define(alloc, &def)
    }

    fn word(
        &mut self,
        alloc: Global,
        word: &str,
        stack: &mut Vec<Option<ValType>>,
    ) -> Result<Option<ValType>, Fail> {
        if let Some(primitive) = primitive(word) {
            return Ok(Some(ValType::Primitive(primitive)));
        }
        if let Some((head, rest)) = word.split_once(':') {
            return self.headed(alloc, head, rest, stack);
        }
        match word {
            "_" => Ok(None),
            "list" => self.define(alloc, &TypeDef::List(first_value(stack)?)),
            "option" => self.define(alloc, &TypeDef::Option(first_value(stack)?)),
            "result" => {
                let ok = MaybeType::new(first(stack)?);
                let err = MaybeType::new(first(stack)?);
                self.define(alloc, &TypeDef::Result { ok, err })
            }
            _ => Err(Fail::from("an unknown word")),
        }
    }

    /// The types that words spell, the first of them at the end.
    fn stack(&mut self, alloc: Global, text: &str) -> Result<Vec<Option<ValType>>, Fail> {
        let mut words = Vec::new(alloc);
        for word in text.split_whitespace() {
            words.push(word)?;
        }
        let mut stack = Vec::new(alloc);
        for word in words.iter().rev() {
            let ty = self.word(alloc, word, &mut stack)?;
            stack.push(ty)?;
        }
        Ok(stack)
    }

    /// The value type that words spell.
    pub fn value(&mut self, alloc: Global, text: &str) -> Result<Rc<KnownValue>, Fail> {
        let mut stack = self.stack(alloc, text)?;
        let ty = first_value(&mut stack)?;
        let value = value_at(alloc, &self.scope, ty)?;
        Ok(value)
    }

    /// The type of a function: the types of its parameters, and after an arrow that of its result.
    pub fn func(&mut self, alloc: Global, text: &str) -> Result<TypeItem, Fail> {
        let (before, behind) = match text.split_once("->") {
            Some(parts) => parts,
            None => (text, "_"),
        };
        let mut types = self.stack(alloc, before)?;
        let mut params = Items::empty(alloc);
        for _ in 0..types.len() {
            let label = Text::from_str(alloc, "p")?;
            let ty = first_value(&mut types)?;
            params.push(LabelType { label, ty })?;
        }
        let mut answer = self.stack(alloc, behind)?;
        let result = MaybeType::new(first(&mut answer)?);
        let kind = kind_of(alloc, &self.scope, &TypeDef::Func { params, result })?;
        Ok(kind)
    }
}
