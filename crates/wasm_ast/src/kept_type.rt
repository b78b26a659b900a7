//! Definitions of types as a section of types keeps them, in little memory for the bytes that spell them. Contracts see the definition.

ghost use Rattle.std.specs.Prelude.{◌≡◌, IfOk};
ghost use Rattle.wasm_ast.specs.declared.component.TypeDef.TheVariants as defs;
ghost use Rattle.wasm_ast.specs.KeptTypes.{declaration_count, resource_destructor, empty_def, type_kept};

use crate::apart::Apart;
use crate::component::{CaseType, LabelType, Labels, Primitive, TypeDef, ValType};
use crate::copies::{copy_cases, copy_fields, copy_types};
use crate::joined_labels::JoinedLabels;
use crate::maybe_type::MaybeType;
use std::alloc::Global;
use std::marker::Model;
use virt_base::{Items, NoMemory};

/// A definition with a list that is empty.
#[derive(Debug, Clone, Copy, PartialEq, Eq)]
enum Form {
    Record,
    Variant,
    Tuple,
    Flags,
    Enum,
}

/// The types of a result.
#[derive(Debug, Drop)]
struct ResultTypes {
    ok: MaybeType,
    err: MaybeType,
}

/// A function's type.
#[derive(Debug, Drop)]
struct Func {
    params: Items<LabelType>,
    result: MaybeType,
}

/// Lists of few parts have forms of their own, which take little memory for the few bytes that spell them.
#[derive(Debug, Drop)]
enum Kept {
    Primitive(Primitive),
    Empty(Form),
    OneField(Apart<[LabelType; 1]>),
    TwoFields(Apart<[LabelType; 2]>),
    Fields(Apart<Items<LabelType>>),
    Cases(Apart<Items<CaseType>>),
    List(ValType),
    OneType([ValType; 1]),
    Types(Apart<Items<ValType>>),
    Flags(Apart<JoinedLabels>),
    Enum(Apart<JoinedLabels>),
    Option(ValType),
    Result(Apart<ResultTypes>),
    Own(u32),
    Borrow(u32),
    Func(Apart<Func>),
    Instance(u32),
    Resource(Option<u32>),
}

/// A definition as a section of types keeps it, in little memory. Contracts see the definition.
#[derive(Debug, Drop)]
pub struct KeptType {
    kept: Kept,
}

impl Model for KeptType {
    ghost use Rattle.wasm_ast.specs.declared.component.TypeDef.{TypeDef};
    ghost use Rattle.wasm_ast.specs.KeptTypes.{type_kept};

    ghost Value = { TypeDef };

    ghost view = { λ t. type_kept t.kept };
}

fn two_fields_or_more(alloc: Global, fields: Vec<LabelType>) -> Result<Kept, NoMemory>
    ensures { IfOk result (λ kept. type_kept kept ≡ defs.Record fields.items) }
{
    match <[LabelType; 2]>::try_from(fields) {
        Ok(two) => Ok(Kept::TwoFields(Apart::new(alloc, two)?)),
        Err(fields) => Ok(Kept::Fields(Apart::new(alloc, Items::new(fields))?)),
    }
}

fn one_field_or_more(alloc: Global, fields: Vec<LabelType>) -> Result<Kept, NoMemory>
    ensures { IfOk result (λ kept. type_kept kept ≡ defs.Record fields.items) }
{
    match <[LabelType; 1]>::try_from(fields) {
        Ok(one) => Ok(Kept::OneField(Apart::new(alloc, one)?)),
        Err(fields) => two_fields_or_more(alloc, fields),
    }
}

fn keep_fields(alloc: Global, fields: Items<LabelType>) -> Result<Kept, NoMemory>
    ensures { IfOk result (λ kept. type_kept kept ≡ defs.Record fields) }
{
    if fields.is_empty() {
        return Ok(Kept::Empty(Form::Record));
    }
    one_field_or_more(alloc, fields.into_vec())
}

fn keep_cases(alloc: Global, cases: Items<CaseType>) -> Result<Kept, NoMemory>
    ensures { IfOk result (λ kept. type_kept kept ≡ defs.Variant cases) }
{
    if cases.is_empty() {
        return Ok(Kept::Empty(Form::Variant));
    }
    Ok(Kept::Cases(Apart::new(alloc, cases)?))
}

fn keep_types(alloc: Global, types: Items<ValType>) -> Result<Kept, NoMemory>
    ensures { IfOk result (λ kept. type_kept kept ≡ defs.Tuple types) }
{
    if types.is_empty() {
        return Ok(Kept::Empty(Form::Tuple));
    }
    match <[ValType; 1]>::try_from(types.into_vec()) {
        Ok(one) => Ok(Kept::OneType(one)),
        Err(types) => Ok(Kept::Types(Apart::new(alloc, Items::new(types))?)),
    }
}

fn keep_flags(alloc: Global, labels: &Labels) -> Result<Kept, NoMemory>
    ensures { IfOk result (λ kept. type_kept kept ≡ defs.Flags labels.now) }
{
    match labels.as_slice().split_first() {
        None => Ok(Kept::Empty(Form::Flags)),
        Some((first, more)) => {
            let joined = JoinedLabels::new(alloc, first, more)?;
            Ok(Kept::Flags(Apart::new(alloc, joined)?))
        }
    }
}

fn keep_enum(alloc: Global, labels: &Labels) -> Result<Kept, NoMemory>
    ensures { IfOk result (λ kept. type_kept kept ≡ defs.Enum labels.now) }
{
    match labels.as_slice().split_first() {
        None => Ok(Kept::Empty(Form::Enum)),
        Some((first, more)) => {
            let joined = JoinedLabels::new(alloc, first, more)?;
            Ok(Kept::Enum(Apart::new(alloc, joined)?))
        }
    }
}

fn keep(alloc: Global, def: TypeDef) -> Result<Kept, NoMemory>
    ensures { IfOk result (λ kept. type_kept kept ≡ def) }
{
    match def {
        TypeDef::Primitive(primitive) => Ok(Kept::Primitive(primitive)),
        TypeDef::Record { fields } => keep_fields(alloc, fields),
        TypeDef::Variant { cases } => keep_cases(alloc, cases),
        TypeDef::List(item) => Ok(Kept::List(item)),
        TypeDef::Tuple { types } => keep_types(alloc, types),
        TypeDef::Flags { labels } => keep_flags(alloc, &labels),
        TypeDef::Enum { labels } => keep_enum(alloc, &labels),
        TypeDef::Option(item) => Ok(Kept::Option(item)),
        TypeDef::Result { ok, err } => Ok(Kept::Result(Apart::new(
            alloc,
            ResultTypes { ok, err },
        )?)),
        TypeDef::Own(index) => Ok(Kept::Own(index)),
        TypeDef::Borrow(index) => Ok(Kept::Borrow(index)),
        TypeDef::Func { params, result } => {
            Ok(Kept::Func(Apart::new(alloc, Func { params, result })?))
        }
        TypeDef::Instance { declarations } => Ok(Kept::Instance(declarations)),
        TypeDef::Resource { destructor } => Ok(Kept::Resource(destructor)),
    }
}

fn empty_def(alloc: Global, form: Form) -> TypeDef
    ensures { result ≡ empty_def form }
{
    match form {
        Form::Record => TypeDef::Record {
            fields: Items::empty(alloc),
        },
        Form::Variant => TypeDef::Variant {
            cases: Items::empty(alloc),
        },
        Form::Tuple => TypeDef::Tuple {
            types: Items::empty(alloc),
        },
        Form::Flags => TypeDef::Flags {
            labels: Items::empty(alloc),
        },
        Form::Enum => TypeDef::Enum {
            labels: Items::empty(alloc),
        },
    }
}

fn record_of(alloc: Global, fields: &[LabelType]) -> Result<TypeDef, NoMemory>
    ensures { IfOk result (λ def. def ≡ defs.Record fields.now) }
{
    let fields = copy_fields(alloc, fields)?;
    Ok(TypeDef::Record { fields })
}

fn tuple_of(alloc: Global, types: &[ValType]) -> Result<TypeDef, NoMemory>
    ensures { IfOk result (λ def. def ≡ defs.Tuple types.now) }
{
    let types = copy_types(alloc, types)?;
    Ok(TypeDef::Tuple { types })
}

fn result_of(types: &ResultTypes) -> TypeDef
    ensures { result ≡ defs.Result types.now.ok types.now.err }
{
    let ok = MaybeType::new(types.ok.get());
    let err = MaybeType::new(types.err.get());
    TypeDef::Result { ok, err }
}

fn func_of(alloc: Global, func: &Func) -> Result<TypeDef, NoMemory>
    ensures { IfOk result (λ def. def ≡ defs.Func func.now.params func.now.result) }
{
    let params = copy_fields(alloc, func.params.as_slice())?;
    let result = MaybeType::new(func.result.get());
    Ok(TypeDef::Func { params, result })
}

/// The definition itself.
fn def_of(alloc: Global, kept: &Kept) -> Result<TypeDef, NoMemory>
    ensures { IfOk result (λ def. def ≡ type_kept kept.now) }
{
    match kept {
        Kept::Primitive(primitive) => Ok(TypeDef::Primitive(*primitive)),
        Kept::Empty(form) => Ok(empty_def(alloc, *form)),
        Kept::OneField(fields) => record_of(alloc, fields.as_slice()),
        Kept::TwoFields(fields) => record_of(alloc, fields.as_slice()),
        Kept::Fields(fields) => record_of(alloc, fields.as_slice()),
        Kept::Cases(cases) => Ok(TypeDef::Variant {
            cases: copy_cases(alloc, cases.as_slice())?,
        }),
        Kept::List(item) => Ok(TypeDef::List(*item)),
        Kept::OneType(types) => tuple_of(alloc, types.as_slice()),
        Kept::Types(types) => tuple_of(alloc, types.as_slice()),
        Kept::Flags(labels) => Ok(TypeDef::Flags {
            labels: labels.apart(alloc)?,
        }),
        Kept::Enum(labels) => Ok(TypeDef::Enum {
            labels: labels.apart(alloc)?,
        }),
        Kept::Option(item) => Ok(TypeDef::Option(*item)),
        Kept::Result(types) => Ok(result_of(types)),
        Kept::Own(index) => Ok(TypeDef::Own(*index)),
        Kept::Borrow(index) => Ok(TypeDef::Borrow(*index)),
        Kept::Func(func) => func_of(alloc, func),
        Kept::Instance(declarations) => Ok(TypeDef::Instance {
            declarations: *declarations,
        }),
        Kept::Resource(destructor) => Ok(TypeDef::Resource {
            destructor: *destructor,
        }),
    }
}

impl KeptType {
    pub fn new(alloc: Global, def: TypeDef) -> Result<KeptType, NoMemory>
        ensures { IfOk result (λ ty. ty ≡ def) }
    {
        let kept = keep(alloc, def)?;
        Ok(KeptType { kept })
    }

    /// The definition, with memory of its own.
    pub fn def(&self, alloc: Global) -> Result<TypeDef, NoMemory>
        ensures { IfOk result (λ def. def ≡ self.now) }
    {
        def_of(alloc, &self.kept)
    }

    /// The number of declarations of an instance type; nothing of another type.
    pub fn declarations(&self) -> Option<u32>
        ensures { result ≡ declaration_count self.now }
    {
        match &self.kept {
            Kept::Instance(declarations) => Some(*declarations),
            Kept::Primitive(_)
            | Kept::Empty(_)
            | Kept::OneField(_)
            | Kept::TwoFields(_)
            | Kept::Fields(_)
            | Kept::Cases(_)
            | Kept::List(_)
            | Kept::OneType(_)
            | Kept::Types(_)
            | Kept::Flags(_)
            | Kept::Enum(_)
            | Kept::Option(_)
            | Kept::Result(_)
            | Kept::Own(_)
            | Kept::Borrow(_)
            | Kept::Func(_)
            | Kept::Resource(_) => None,
        }
    }

    /// The destructor of a resource, if it has one; nothing of another type.
    pub fn destructor(&self) -> Option<Option<u32>>
        ensures { result ≡ resource_destructor self.now }
    {
        match &self.kept {
            Kept::Resource(destructor) => Some(*destructor),
            Kept::Primitive(_)
            | Kept::Empty(_)
            | Kept::OneField(_)
            | Kept::TwoFields(_)
            | Kept::Fields(_)
            | Kept::Cases(_)
            | Kept::List(_)
            | Kept::OneType(_)
            | Kept::Types(_)
            | Kept::Flags(_)
            | Kept::Enum(_)
            | Kept::Option(_)
            | Kept::Result(_)
            | Kept::Own(_)
            | Kept::Borrow(_)
            | Kept::Func(_)
            | Kept::Instance(_) => None,
        }
    }
}
