//! Value types and function types of listed interfaces, as the definitions of a component over the names that stand in its scope.

use crate::queue::Queue;
use crate::scope::Scope;
use std::alloc::Global;
use std::rc::Rc;
use virt_base::{Items, NoMemory, Text};
use wasm_ast::{CaseType, LabelType, Labels, MaybeType, Primitive, TypeDef, ValType};
use wit_types::{Case, Field, FuncType, Types, WitType};

/// The type of a part: of one that has a name and stands there the index, and each other one is written in place.
#[cycle(types)]
fn value(scope: &mut Scope<'_>, queue: &mut Queue<'_>, ty: &WitType) -> Result<ValType, NoMemory> {
    match queue.take_like(ty) {
        None => in_place(scope, queue, ty),
        Some(number) => match scope.standing.get(number) {
            Some(index) => Ok(ValType::Index(index)),
            None => {
                let mut parts = queue.parts_of(number);
                in_place(scope, &mut parts, ty)
            }
        },
    }
}

/// A type that has no name there: it is defined right before, unless it has no parts.
#[cycle(types)]
fn in_place(
    scope: &mut Scope<'_>,
    queue: &mut Queue<'_>,
    ty: &WitType,
) -> Result<ValType, NoMemory> {
    match primitive(ty) {
        Some(primitive) => Ok(ValType::Primitive(primitive)),
        None => {
            let def = definition(scope, queue, ty)?;
            Ok(ValType::Index(scope.define(def)?))
        }
    }
}

/// The definition of a type, over the names so far.
#[cycle(types)]
pub fn definition(
    scope: &mut Scope<'_>,
    queue: &mut Queue<'_>,
    ty: &WitType,
) -> Result<TypeDef, NoMemory> {
    match ty {
        WitType::Record(fields) => Ok(TypeDef::Record {
            fields: labelled(scope, queue, fields.items.as_slice())?,
        }),
        WitType::Tuple(types) => Ok(TypeDef::Tuple {
            types: values(scope, queue, types)?,
        }),
        WitType::Variant(cases) => Ok(TypeDef::Variant {
            cases: with_payloads(scope, queue, cases.items.as_slice())?,
        }),
        WitType::List(ty) => Ok(TypeDef::List(value(scope, queue, ty)?)),
        WitType::Option(ty) => Ok(TypeDef::Option(value(scope, queue, ty)?)),
        WitType::Result(ok, err) => {
            let ok = payload(scope, queue, ok)?;
            let err = payload(scope, queue, err)?;
            Ok(TypeDef::Result {
                ok: MaybeType::new(ok),
                err: MaybeType::new(err),
            })
        }
        other => plain_definition(scope, queue, other),
    }
}

/// The definition of a type without parts.
fn plain_definition(
    scope: &mut Scope<'_>,
    queue: &mut Queue<'_>,
    ty: &WitType,
) -> Result<TypeDef, NoMemory> {
    match ty {
        WitType::Flags(labels) => Ok(TypeDef::Flags {
            labels: copy_labels(scope.alloc, labels.as_slice())?,
        }),
        WitType::Enum(labels) => Ok(TypeDef::Enum {
            labels: copy_labels(scope.alloc, labels.as_slice())?,
        }),
        WitType::Own(_) => Ok(TypeDef::Own(resource(scope, queue))),
        WitType::Borrow(_) => Ok(TypeDef::Borrow(resource(scope, queue))),
        other => Ok(TypeDef::Primitive(primitive(other).unwrap_or(Primitive::Bool))),
    }
}

/// The index of the resource of a handle, which is the next that has a name.
fn resource(scope: &mut Scope<'_>, queue: &mut Queue<'_>) -> u32 {
    match queue.take() {
        Some(number) => scope.standing.index(number),
        None => u32::MAX,
    }
}

#[cycle(types)]
fn labelled(
    scope: &mut Scope<'_>,
    queue: &mut Queue<'_>,
    fields: &[Field],
) -> Result<Items<LabelType>, NoMemory> {
    let mut items = Items::empty(scope.alloc);
    for field in fields {
        let ty = value(scope, queue, &field.ty)?;
        let label = field.name.copy(scope.alloc)?;
        items.push(LabelType { label, ty })?;
    }
    Ok(items)
}

#[cycle(types)]
fn with_payloads(
    scope: &mut Scope<'_>,
    queue: &mut Queue<'_>,
    cases: &[Case],
) -> Result<Items<CaseType>, NoMemory> {
    let mut items = Items::empty(scope.alloc);
    for case in cases {
        let ty = payload(scope, queue, &case.ty)?;
        let label = case.name.copy(scope.alloc)?;
        items.push(CaseType { label, ty })?;
    }
    Ok(items)
}

#[cycle(types)]
fn values(
    scope: &mut Scope<'_>,
    queue: &mut Queue<'_>,
    types: &Types,
) -> Result<Items<ValType>, NoMemory> {
    let mut items = Items::empty(scope.alloc);
    for ty in types.items.as_slice() {
        items.push(value(scope, queue, ty)?)?;
    }
    Ok(items)
}

#[cycle(types)]
fn payload(
    scope: &mut Scope<'_>,
    queue: &mut Queue<'_>,
    ty: &Option<Rc<WitType>>,
) -> Result<Option<ValType>, NoMemory> {
    match ty {
        None => Ok(None),
        Some(ty) => Ok(Some(value(scope, queue, ty)?)),
    }
}

fn primitive(ty: &WitType) -> Option<Primitive> {
    match ty {
        WitType::Bool => Some(Primitive::Bool),
        WitType::S8 => Some(Primitive::S8),
        WitType::U8 => Some(Primitive::U8),
        WitType::S16 => Some(Primitive::S16),
        WitType::U16 => Some(Primitive::U16),
        WitType::S32 => Some(Primitive::S32),
        WitType::U32 => Some(Primitive::U32),
        WitType::S64 => Some(Primitive::S64),
        WitType::U64 => Some(Primitive::U64),
        WitType::Char => Some(Primitive::Char),
        WitType::Str => Some(Primitive::String),
        _ => None,
    }
}

fn copy_labels(alloc: Global, labels: &[Text]) -> Result<Labels, NoMemory> {
    let mut copy = Items::empty(alloc);
    for label in labels {
        copy.push(label.copy(alloc)?)?;
    }
    Ok(copy)
}

/// Defines the type of a function, with these names of its parameters: its index.
pub fn function_type(
    scope: &mut Scope<'_>,
    queue: &mut Queue<'_>,
    ty: &FuncType,
    params: &[Text],
) -> Result<u32, NoMemory> {
    let params = named_params(scope, queue, ty.params.items.as_slice(), params)?;
    let result = answer(scope, queue, &ty.result)?;
    scope.define(TypeDef::Func {
        params,
        result: MaybeType::new(result),
    })
}

fn answer(
    scope: &mut Scope<'_>,
    queue: &mut Queue<'_>,
    ty: &Option<WitType>,
) -> Result<Option<ValType>, NoMemory> {
    match ty {
        None => Ok(None),
        Some(ty) => Ok(Some(value(scope, queue, ty)?)),
    }
}

fn named_params(
    scope: &mut Scope<'_>,
    queue: &mut Queue<'_>,
    params: &[Field],
    names: &[Text],
) -> Result<Items<LabelType>, NoMemory> {
    let mut items = Items::empty(scope.alloc);
    for (place, param) in params.iter().enumerate() {
        let ty = value(scope, queue, &param.ty)?;
        let label = param_name(scope.alloc, names, place)?;
        items.push(LabelType { label, ty })?;
    }
    Ok(items)
}

fn param_name(alloc: Global, names: &[Text], place: usize) -> Result<Text, NoMemory> {
    match names.get(place) {
        Some(name) => name.copy(alloc),
        None => Text::from_str(alloc, "p"),
    }
}
