//! Copies of types, which share their parts, and of types of functions.

#![tactic(auto, using(crate::proofs::PlainLemmas::plains))]

ghost use Rattle.std.specs.Prelude.{◌≡◌, IfOk};
ghost use Rattle.wit_types.specs.Plain.{plain, fields_of, payload_of, plain_func, plain_result};
ghost use Rattle.wit_types.specs.declared.types.Fields.{out-Fields};

use crate::types::{Field, Fields, FuncType, WitType};
use std::alloc::Global;
use std::rc::Rc;
use virt_base::NoMemory;

fn copy_payload(ty: &Option<Rc<WitType>>) -> Result<Option<Rc<WitType>>, NoMemory>
    ensures { IfOk result (λ copy. payload_of copy ≡ payload_of ty.now) }
{
    match ty {
        None => Ok(None),
        Some(ty) => Ok(Some(ty.clone()?)),
    }
}

/// An equal type, which shares all its parts. It takes neither memory nor time, and fails only where one owner more can't be counted.
pub fn copy_type(_alloc: Global, ty: &WitType) -> Result<WitType, NoMemory>
    ensures { IfOk result (λ copy. plain copy ≡ plain ty.now) }
{
    match ty {
        WitType::Bool => Ok(WitType::Bool),
        WitType::S8 => Ok(WitType::S8),
        WitType::U8 => Ok(WitType::U8),
        WitType::S16 => Ok(WitType::S16),
        WitType::U16 => Ok(WitType::U16),
        WitType::S32 => Ok(WitType::S32),
        WitType::U32 => Ok(WitType::U32),
        WitType::S64 => Ok(WitType::S64),
        WitType::U64 => Ok(WitType::U64),
        WitType::Char => Ok(WitType::Char),
        WitType::Str => Ok(WitType::Str),
        WitType::Record(fields) => Ok(WitType::Record(fields.clone()?)),
        WitType::Tuple(types) => Ok(WitType::Tuple(types.clone()?)),
        WitType::Variant(cases) => Ok(WitType::Variant(cases.clone()?)),
        WitType::List(ty) => Ok(WitType::List(ty.clone()?)),
        WitType::Flags(labels) => Ok(WitType::Flags(labels.clone()?)),
        WitType::Enum(labels) => Ok(WitType::Enum(labels.clone()?)),
        WitType::Option(ty) => Ok(WitType::Option(ty.clone()?)),
        WitType::Result(ok, err) => Ok(WitType::Result(copy_payload(ok)?, copy_payload(err)?)),
        WitType::Own(resource) => Ok(WitType::Own(*resource)),
        WitType::Borrow(resource) => Ok(WitType::Borrow(*resource)),
    }
}

fn copy_fields(alloc: Global, fields: &[Field]) -> Result<Fields, NoMemory>
    ensures { IfOk result (λ copy. fields_of (out-Fields copy).items.items ≡ fields_of fields.now) }
{
    let mut items = Vec::with_capacity(alloc, fields.len())?;
    for field in fields {
        let name = field.name.copy(alloc)?;
        let ty = copy_type(alloc, &field.ty)?;
        items.push(Field { name, ty })?;
    }
    Ok(Fields { items })
}

fn copy_result(alloc: Global, ty: &Option<WitType>) -> Result<Option<WitType>, NoMemory>
    ensures { IfOk result (λ copy. plain_result copy ≡ plain_result ty.now) }
{
    match ty {
        None => Ok(None),
        Some(ty) => Ok(Some(copy_type(alloc, ty)?)),
    }
}

/// An equal type of a function, the names of its parameters included. The types of its parameters are shared.
pub fn copy_func(alloc: Global, ty: &FuncType) -> Result<FuncType, NoMemory>
    ensures { IfOk result (λ copy. plain_func copy ≡ plain_func ty.now) }
{
    let params = copy_fields(alloc, &ty.params.items)?;
    let result = copy_result(alloc, &ty.result)?;
    Ok(FuncType { params, result })
}
