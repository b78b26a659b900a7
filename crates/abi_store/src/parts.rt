//! The types in a record or a tuple by number, so that both are stored in the same way.

#![tactic(auto, using(crate::proofs::Views::views))]

ghost use Rattle.std.specs.Prelude.{◌≡◌, ◌+◌, IfOk, IfSome, IfNone, []};
ghost use Rattle.wit_types.specs.Plain.{plain, End, More, Name};
ghost use Rattle.abi_store.specs.Parts.{fields_from, types_from, parts_from, IsNext};

use std::alloc::Global;
use std::rc::Rc;
use virt_base::NoMemory;
use wit_types::{Field, Fields, Types, WitType, copy_type};

/// The types in a record or a tuple, which are shared.
#[derive(Drop)]
pub enum Parts {
    Fields(Rc<Fields>),
    Types(Rc<Types>),
}

fn field_type(alloc: Global, fields: &[Field], at: usize) -> Result<Option<WitType>, NoMemory>
    ensures { IfOk result (IsNext (fields_from fields.now at) (fields_from fields.now (at + 1))) }
{
    match fields.get(at) {
        None => Ok(None),
        Some(field) => Ok(Some(copy_type(alloc, &field.ty)?)),
    }
}

fn item_type(alloc: Global, types: &[WitType], at: usize) -> Result<Option<WitType>, NoMemory>
    ensures { IfOk result (IsNext (types_from types.now at) (types_from types.now (at + 1))) }
{
    match types.get(at) {
        None => Ok(None),
        Some(ty) => Ok(Some(copy_type(alloc, ty)?)),
    }
}

/// The type of a field, by its number.
pub fn part(alloc: Global, parts: &Parts, at: usize) -> Result<Option<WitType>, NoMemory>
    ensures { IfOk result (IsNext (parts_from parts.now at) (parts_from parts.now (at + 1))) }
{
    match parts {
        Parts::Fields(fields) => field_type(alloc, &fields.items, at),
        Parts::Types(types) => item_type(alloc, &types.items, at),
    }
}
