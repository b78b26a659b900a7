//! The value types that a definition uses, each by its index or as a primitive type. For what is none `bool` stands, since another rule is
//! at fault then.

ghost use Rattle.std.specs.Prelude.{◌≡◌, IfOk, Some, option_map};
ghost use Rattle.comp_facts.specs.Primitives.{primitive_type};
ghost use Rattle.comp_types.specs.Spaces.{Space};
ghost use Rattle.comp_types.specs.Types.{value_in, value_of};
ghost use Rattle.comp_defining.specs.Parts.{known_of};
ghost use Rattle.comp_scopes.specs.Stands.{Stands};
ghost use Rattle.comp_types.specs.Views.{kind_of};
ghost use Rattle.wit_types.specs.Plain.{plain};

use comp_facts::Facts;
use comp_scopes::Scope;
use comp_types::{KnownValue, TypeItem};
use std::alloc::Global;
use std::rc::Rc;
use virt_base::{Items, NoMemory};
use wasm_ast::{Primitive, ValType};
use wit_types::WitType;

#[tactic(auto, using(wit_types::proofs::PlainLemmas::plains))]
fn wit_primitive(primitive: Primitive) -> WitType
    ensures { plain result ≡ primitive_type primitive }
{
    match primitive {
        Primitive::Bool => WitType::Bool,
        Primitive::S8 => WitType::S8,
        Primitive::U8 => WitType::U8,
        Primitive::S16 => WitType::S16,
        Primitive::U16 => WitType::U16,
        Primitive::S32 => WitType::S32,
        Primitive::U32 => WitType::U32,
        Primitive::S64 => WitType::S64,
        Primitive::U64 => WitType::U64,
        Primitive::Char => WitType::Char,
        Primitive::String => WitType::Str,
    }
}

/// A type without parts.
pub fn primitive_of(alloc: Global, primitive: Primitive) -> KnownValue
    ensures { result ≡ primitive_type primitive }
{
    let ty = wit_primitive(primitive);
    KnownValue::new(ty, Facts::primitive(primitive), Items::empty(alloc))
}

/// A value to be shared.
pub fn shared<T: Drop>(alloc: Global, value: T) -> Result<Rc<T>, NoMemory>
    ensures { IfOk result (λ kept. kept.value ≡ value) }
{
    match Rc::new(alloc, value) {
        Ok(kept) => Ok(kept),
        Err(_) => Err(NoMemory),
    }
}

/// A type without parts, to be shared.
fn shared_primitive(alloc: Global, primitive: Primitive) -> Result<Rc<KnownValue>, NoMemory>
    ensures { IfOk result (λ known. known.value ≡ primitive_type primitive) }
{
    shared(alloc, primitive_of(alloc, primitive))
}

/// The value type at an index, or `bool` in place of what is none.
fn value_in(alloc: Global, kind: &TypeItem) -> Result<Rc<KnownValue>, NoMemory>
    ensures { IfOk result (λ known. known.value ≡ value_in (Some (kind_of kind.now))) }
{
    match kind {
        TypeItem::Resource(_) => shared_primitive(alloc, Primitive::Bool),
        TypeItem::Value(value) => Ok(value.clone()?),
        TypeItem::Func(_) => shared_primitive(alloc, Primitive::Bool),
        TypeItem::Instance(_) => shared_primitive(alloc, Primitive::Bool),
    }
}

/// The value type that is used.
pub fn value_at(alloc: Global, scope: &Scope, value: ValType) -> Result<Rc<KnownValue>, NoMemory>
    ensures { IfOk result (λ known. (s : Space) → Stands s scope.now → known.value ≡ value_of s value) }
{
    match value {
        ValType::Primitive(primitive) => shared_primitive(alloc, primitive),
        ValType::Index(index) => match scope.kind_at(index) {
            None => shared_primitive(alloc, Primitive::Bool),
            Some(kind) => value_in(alloc, kind),
        },
    }
}

/// The value type that is used, if one is.
pub fn some_value_at(
    alloc: Global,
    scope: &Scope,
    value: Option<ValType>,
) -> Result<Option<Rc<KnownValue>>, NoMemory>
    ensures { IfOk result (λ known. (s : Space) → Stands s scope.now → known_of known ≡ option_map (value_of s) value) }
{
    match value {
        None => Ok(None),
        Some(value) => Ok(Some(value_at(alloc, scope, value)?)),
    }
}
