//! The type for which each form of a definition stands (Component Model, Binary.md, "Type Definitions").

#![tactic(auto, using(wit_types::proofs::PlainLemmas::plains))]

ghost use Rattle.std.specs.Prelude.{◌≡◌, [], IfOk, Some, map, option_map};
ghost use Rattle.comp_types.specs.Items.{End, InstanceKind, ValueKind};
ghost use Rattle.comp_types.specs.Spaces.{Space, kind_at};
ghost use Rattle.comp_types.specs.Types.{cases_of, fields_of, func_of, handle_of, kind_of as kind_due, option_of, resource_in, result_of, unnamed, value_of};
ghost use Rattle.comp_scopes.specs.Stands.{Stands};
ghost use Rattle.comp_types.specs.Views.{kind_of};
ghost use Rattle.wit_types.specs.Plain.{AsEnum, AsRecord, AsTuple, AsVariant, BorrowType, FlagsType, ListType, OwnType, RecordType, VariantType, bare};

use crate::labels::copy_labels;
use crate::parts::{
    add_payload, bare_parts, cases_at, fields_at, shared_payload, shared_type, types_at,
};
use crate::values::{primitive_of, shared, some_value_at, value_at};
use comp_facts::{Facts, FuncFacts, RecordForm, VariantForm};
use comp_scopes::Scope;
use comp_types::{
    DeclaredInstance, InstanceEntries, InstanceType, KnownFunc, KnownParts, KnownValue, TypeItem,
};
use std::alloc::Global;
use std::rc::Rc;
use virt_base::{Items, NoMemory, Text};
use wasm_ast::{CaseType, LabelType, Primitive, TypeDef, ValType};
use wit_types::{Cases, Fields, FuncType, Types, WitType, copy_type};

fn record_at(alloc: Global, scope: &Scope, labels: &[LabelType]) -> Result<KnownValue, NoMemory>
    ensures { IfOk result (λ value. (s : Space) → Stands s scope.now → value ≡ RecordType AsRecord (fields_of s labels.now)) }
{
    let (items, known) = fields_at(alloc, scope, labels)?;
    let ty = WitType::Record(shared(alloc, Fields { items })?);
    let facts = Facts::record(RecordForm::Record, &known.facts);
    Ok(KnownValue::new(ty, facts, known.keys))
}

fn variant_at(alloc: Global, scope: &Scope, labels: &[CaseType]) -> Result<KnownValue, NoMemory>
    ensures { IfOk result (λ value. (s : Space) → Stands s scope.now → value ≡ VariantType AsVariant (cases_of s labels.now)) }
{
    let (items, known) = cases_at(alloc, scope, labels)?;
    let ty = WitType::Variant(shared(alloc, Cases { items })?);
    let facts = Facts::variant(VariantForm::Variant, &known.facts);
    Ok(KnownValue::new(ty, facts, known.keys))
}

fn tuple_at(alloc: Global, scope: &Scope, values: &[ValType]) -> Result<KnownValue, NoMemory>
    ensures { IfOk result (λ value. (s : Space) → Stands s scope.now → value ≡ RecordType AsTuple (unnamed (map (value_of s) values.now))) }
{
    let (items, known) = types_at(alloc, scope, values)?;
    let ty = WitType::Tuple(shared(alloc, Types { items })?);
    let facts = Facts::record(RecordForm::Tuple, &known.facts);
    Ok(KnownValue::new(ty, facts, known.keys))
}

fn list_at(alloc: Global, scope: &Scope, item: ValType) -> Result<KnownValue, NoMemory>
    ensures { IfOk result (λ value. (s : Space) → Stands s scope.now → value ≡ ListType (value_of s item)) }
{
    let item = value_at(alloc, scope, item)?;
    let ty = WitType::List(shared_type(alloc, &item)?);
    let facts = item.facts();
    let mut keys = Items::empty(alloc);
    keys.push(facts.key)?;
    Ok(KnownValue::new(ty, Facts::list(facts), keys))
}

fn option_at(alloc: Global, scope: &Scope, item: ValType) -> Result<KnownValue, NoMemory>
    ensures { IfOk result (λ value. (s : Space) → Stands s scope.now → value ≡ option_of (value_of s item)) }
{
    let item = value_at(alloc, scope, item)?;
    let ty = WitType::Option(shared_type(alloc, &item)?);
    let mut known = KnownParts::none(alloc);
    known.add_bare(b"");
    known.add(b"", &item)?;
    let facts = Facts::variant(VariantForm::Option, &known.facts);
    Ok(KnownValue::new(ty, facts, known.keys))
}

fn result_at(
    alloc: Global,
    scope: &Scope,
    ok: Option<ValType>,
    err: Option<ValType>,
) -> Result<KnownValue, NoMemory>
    ensures { IfOk result (λ value. (s : Space) → Stands s scope.now → value ≡ result_of (option_map (value_of s) ok) (option_map (value_of s) err)) }
{
    let ok = some_value_at(alloc, scope, ok)?;
    let err = some_value_at(alloc, scope, err)?;
    let ty = WitType::Result(shared_payload(alloc, &ok)?, shared_payload(alloc, &err)?);
    let mut known = KnownParts::none(alloc);
    add_payload(&mut known, b"", &ok)?;
    add_payload(&mut known, b"", &err)?;
    let facts = Facts::variant(VariantForm::Result, &known.facts);
    Ok(KnownValue::new(ty, facts, known.keys))
}

fn flags_of(alloc: Global, labels: &[Text]) -> Result<KnownValue, NoMemory>
    ensures { IfOk result (λ value. value ≡ FlagsType labels.now) }
{
    let ty = WitType::Flags(shared(alloc, copy_labels(alloc, labels)?)?);
    Ok(KnownValue::new(ty, Facts::flags(labels), Items::empty(alloc)))
}

fn enum_of(alloc: Global, labels: &[Text]) -> Result<KnownValue, NoMemory>
    ensures { IfOk result (λ value. value ≡ VariantType AsEnum (bare labels.now)) }
{
    let ty = WitType::Enum(shared(alloc, copy_labels(alloc, labels)?)?);
    let known = bare_parts(alloc, labels);
    let facts = Facts::variant(VariantForm::Enum, &known.facts);
    Ok(KnownValue::new(ty, facts, known.keys))
}

fn own_of(alloc: Global, kind: &TypeItem) -> KnownValue
    ensures { result ≡ handle_of OwnType (resource_in (Some (kind_of kind.now))) }
{
    match kind {
        TypeItem::Resource(number) => {
            let facts = Facts::own(*number);
            KnownValue::new(WitType::Own(*number), facts, Items::empty(alloc))
        }
        TypeItem::Value(_) => primitive_of(alloc, Primitive::Bool),
        TypeItem::Func(_) => primitive_of(alloc, Primitive::Bool),
        TypeItem::Instance(_) => primitive_of(alloc, Primitive::Bool),
    }
}

fn own_at(alloc: Global, scope: &Scope, index: u32) -> KnownValue
    ensures { (s : Space) → Stands s scope.now → result ≡ handle_of OwnType (resource_in (kind_at s index)) }
{
    match scope.kind_at(index) {
        None => primitive_of(alloc, Primitive::Bool),
        Some(kind) => own_of(alloc, kind),
    }
}

fn borrow_of(alloc: Global, kind: &TypeItem) -> KnownValue
    ensures { result ≡ handle_of BorrowType (resource_in (Some (kind_of kind.now))) }
{
    match kind {
        TypeItem::Resource(number) => {
            let facts = Facts::borrow(*number);
            KnownValue::new(WitType::Borrow(*number), facts, Items::empty(alloc))
        }
        TypeItem::Value(_) => primitive_of(alloc, Primitive::Bool),
        TypeItem::Func(_) => primitive_of(alloc, Primitive::Bool),
        TypeItem::Instance(_) => primitive_of(alloc, Primitive::Bool),
    }
}

fn borrow_at(alloc: Global, scope: &Scope, index: u32) -> KnownValue
    ensures { (s : Space) → Stands s scope.now → result ≡ handle_of BorrowType (resource_in (kind_at s index)) }
{
    match scope.kind_at(index) {
        None => primitive_of(alloc, Primitive::Bool),
        Some(kind) => borrow_of(alloc, kind),
    }
}

fn func_at(
    alloc: Global,
    scope: &Scope,
    params: &[LabelType],
    answer: Option<ValType>,
) -> Result<KnownFunc, NoMemory>
    ensures { IfOk result (λ func. (s : Space) → Stands s scope.now → func ≡ func_of s params.now answer) }
{
    let (items, known) = fields_at(alloc, scope, params)?;
    match some_value_at(alloc, scope, answer)? {
        None => {
            let ty = FuncType {
                params: Fields { items },
                result: None,
            };
            let facts = FuncFacts {
                params: known.facts,
                answer: None,
            };
            Ok(KnownFunc::new(ty, facts, known.keys))
        }
        Some(value) => {
            let ty = FuncType {
                params: Fields { items },
                result: Some(copy_type(alloc, value.ty())?),
            };
            let facts = FuncFacts {
                params: known.facts,
                answer: Some(*value.facts()),
            };
            Ok(KnownFunc::new(ty, facts, known.keys))
        }
    }
}

fn no_instance(alloc: Global) -> Result<TypeItem, NoMemory>
    ensures { IfOk result (λ kind. kind_of kind ≡ InstanceKind [] End) }
{
    let entries = InstanceEntries::empty(alloc);
    let instance = shared(alloc, InstanceType { entries })?;
    let own = Items::empty(alloc);
    Ok(TypeItem::Instance(shared(alloc, DeclaredInstance { own, instance })?))
}

fn value_kind(alloc: Global, value: KnownValue) -> Result<TypeItem, NoMemory>
    ensures { IfOk result (λ kind. kind_of kind ≡ ValueKind value) }
{
    Ok(TypeItem::Value(shared(alloc, value)?))
}

/// The type for which a definition stands, in which no other definitions stand.
pub fn kind_of(alloc: Global, scope: &Scope, def: &TypeDef) -> Result<TypeItem, NoMemory>
    ensures { IfOk result (λ kind. (s : Space) → Stands s scope.now → kind_of kind ≡ kind_due s def.now) }
{
    match def {
        TypeDef::Primitive(primitive) => value_kind(alloc, primitive_of(alloc, *primitive)),
        TypeDef::Record { fields } => {
            value_kind(alloc, record_at(alloc, scope, fields.as_slice())?)
        }
        TypeDef::Variant { cases } => {
            value_kind(alloc, variant_at(alloc, scope, cases.as_slice())?)
        }
        TypeDef::List(item) => value_kind(alloc, list_at(alloc, scope, *item)?),
        TypeDef::Tuple { types } => value_kind(alloc, tuple_at(alloc, scope, types.as_slice())?),
        TypeDef::Flags { labels } => value_kind(alloc, flags_of(alloc, labels.as_slice())?),
        TypeDef::Enum { labels } => value_kind(alloc, enum_of(alloc, labels.as_slice())?),
        TypeDef::Option(item) => value_kind(alloc, option_at(alloc, scope, *item)?),
        TypeDef::Result { ok, err } => value_kind(
            alloc,
            result_at(alloc, scope, ok.get(), err.get())?,
        ),
        TypeDef::Own(index) => value_kind(alloc, own_at(alloc, scope, *index)),
        TypeDef::Borrow(index) => value_kind(alloc, borrow_at(alloc, scope, *index)),
        TypeDef::Func { params, result } => {
            let func = func_at(alloc, scope, params.as_slice(), result.get())?;
            Ok(TypeItem::Func(shared(alloc, func)?))
        }
        TypeDef::Instance { declarations: _ } => no_instance(alloc),
        TypeDef::Resource { destructor: _ } => Ok(TypeItem::Resource(scope.next)),
    }
}
