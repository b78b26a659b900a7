//! Whether the indexes that definitions of types and the declarations of instance types name are there (Component Model, Explainer.md,
//! "Index Spaces").

ghost use Rattle.std.specs.Prelude.{◌≡◌, nat_lt};
ghost use Rattle.std.specs.List.{list_all};
ghost use Rattle.comp_types.specs.Rules.{def_stands, desc_stands, if_there, outer_stands, some_value_stands, type_alias_stands, value_stands};

use comp_types::Lengths;
use wasm_ast::{CaseType, ExternDesc, LabelType, OuterSort, TypeAlias, TypeDef, ValType};

/// Whether an index is below a length.
pub fn is_below(index: u32, length: usize) -> bool
    ensures { result ≡ nat_lt index length }
{
    (index as usize) < length
}

fn value_stands(lengths: &Lengths, value: ValType) -> bool
    ensures { result ≡ value_stands lengths.now value }
{
    match value {
        ValType::Primitive(_) => true,
        ValType::Index(index) => is_below(index, lengths.types),
    }
}

fn some_value_stands(lengths: &Lengths, value: Option<ValType>) -> bool
    ensures { result ≡ some_value_stands lengths.now value }
{
    match value {
        None => true,
        Some(value) => value_stands(lengths, value),
    }
}

fn labels_stand(lengths: &Lengths, fields: &[LabelType]) -> bool
    ensures { result ≡ list_all (λ f. value_stands lengths.now f.ty) fields.now }
{
    fields.iter().all(|f| value_stands(lengths, f.ty))
}

fn cases_stand(lengths: &Lengths, cases: &[CaseType]) -> bool
    ensures { result ≡ list_all (λ c. some_value_stands lengths.now c.ty) cases.now }
{
    cases.iter().all(|c| some_value_stands(lengths, c.ty))
}

fn values_stand(lengths: &Lengths, values: &[ValType]) -> bool
    ensures { result ≡ list_all (value_stands lengths.now) values.now }
{
    values.iter().all(|v| value_stands(lengths, *v))
}

fn destructor_stands(lengths: &Lengths, destructor: Option<u32>) -> bool
    ensures { result ≡ if_there (λ i. nat_lt i lengths.now.core_functions) destructor }
{
    match destructor {
        None => true,
        Some(index) => is_below(index, lengths.core_functions),
    }
}

/// The indexes of a type's definition.
pub fn def_stands(lengths: &Lengths, def: &TypeDef) -> bool
    ensures { result ≡ def_stands lengths.now def.now }
{
    match def {
        TypeDef::Record { fields } => labels_stand(lengths, fields.as_slice()),
        TypeDef::Variant { cases } => cases_stand(lengths, cases.as_slice()),
        TypeDef::List(item) => value_stands(lengths, *item),
        TypeDef::Tuple { types } => values_stand(lengths, types.as_slice()),
        TypeDef::Option(item) => value_stands(lengths, *item),
        TypeDef::Result { ok, err } => {
            some_value_stands(lengths, ok.get()) && some_value_stands(lengths, err.get())
        }
        TypeDef::Own(index) => is_below(*index, lengths.types),
        TypeDef::Borrow(index) => is_below(*index, lengths.types),
        TypeDef::Func { params, result } => {
            labels_stand(lengths, params.as_slice()) && some_value_stands(lengths, result.get())
        }
        TypeDef::Resource { destructor } => destructor_stands(lengths, *destructor),
        TypeDef::Primitive(_) => true,
        TypeDef::Flags { labels: _ } => true,
        TypeDef::Enum { labels: _ } => true,
        TypeDef::Instance { declarations: _ } => true,
    }
}

/// The index of what an import, or an export that states its type, is.
pub fn desc_stands(lengths: &Lengths, desc: ExternDesc) -> bool
    ensures { result ≡ desc_stands lengths.now desc }
{
    match desc {
        ExternDesc::Func(index) => is_below(index, lengths.types),
        ExternDesc::TypeEq(index) => is_below(index, lengths.types),
        ExternDesc::Resource => true,
        ExternDesc::Instance(index) => is_below(index, lengths.types),
    }
}

/// An index of a scope further out; it is none of this rule's where the scope is not there.
pub fn outer_stands(sort: OuterSort, index: u32, scope: Option<Lengths>) -> bool
    ensures { result ≡ if_there (outer_stands sort index) scope }
{
    let Some(lengths) = scope else {
        return true;
    };
    match sort {
        OuterSort::CoreModule => is_below(index, lengths.core_modules),
        OuterSort::Type => is_below(index, lengths.types),
        OuterSort::Component => is_below(index, lengths.components),
    }
}

/// The index of an alias that an instance type declares, with the scope to which it leads if it is an outer one.
pub fn type_alias_stands(lengths: &Lengths, scope: Option<Lengths>, alias: &TypeAlias) -> bool
    ensures { result ≡ type_alias_stands lengths.now scope alias.now }
{
    match alias {
        TypeAlias::Export { instance, name: _ } => is_below(*instance, lengths.instances),
        TypeAlias::Outer { count: _, index } => outer_stands(OuterSort::Type, *index, scope),
    }
}
