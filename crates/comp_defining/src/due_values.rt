//! The part of rule 11 that is about definitions of types: a value type stands wherever one is due.

ghost use Rattle.std.specs.Prelude.{◌≡◌};
ghost use Rattle.std.specs.List.{list_all};
ghost use Rattle.comp_types.specs.Rules.{def_has_values, if_there, is_value, value_is_due};
ghost use Rattle.comp_types.specs.Spaces.{Space};
ghost use Rattle.comp_scopes.specs.Stands.{Stands};
ghost use Rattle.comp_types.specs.Views.{kind_of};

use comp_scopes::Scope;
use comp_types::TypeItem;
use wasm_ast::{CaseType, LabelType, TypeDef, ValType};

fn is_value(kind: &TypeItem) -> bool
    ensures { result ≡ is_value (kind_of kind.now) }
{
    match kind {
        TypeItem::Resource(_) => false,
        TypeItem::Value(_) => true,
        TypeItem::Func(_) => false,
        TypeItem::Instance(_) => false,
    }
}

fn value_is_due(scope: &Scope, value: ValType) -> bool
    ensures { (s : Space) → Stands s scope.now → result ≡ value_is_due s value }
{
    match value {
        ValType::Primitive(_) => true,
        ValType::Index(index) => match scope.kind_at(index) {
            None => true,
            Some(kind) => is_value(kind),
        },
    }
}

fn some_value_is_due(scope: &Scope, value: Option<ValType>) -> bool
    ensures { (s : Space) → Stands s scope.now → result ≡ if_there (value_is_due s) value }
{
    match value {
        None => true,
        Some(value) => value_is_due(scope, value),
    }
}

fn labels_are_due(scope: &Scope, labels: &[LabelType]) -> bool
    ensures { (s : Space) → Stands s scope.now → result ≡ list_all (λ f. value_is_due s f.ty) labels.now }
{
    let mut rest = labels;
    while let Some((label, more)) = rest.split_first() {
        if !value_is_due(scope, label.ty) {
            return false;
        }
        rest = more;
    }
    true
}

fn cases_are_due(scope: &Scope, cases: &[CaseType]) -> bool
    ensures { (s : Space) → Stands s scope.now → result ≡ list_all (λ c. if_there (value_is_due s) c.ty) cases.now }
{
    let mut rest = cases;
    while let Some((case, more)) = rest.split_first() {
        if !some_value_is_due(scope, case.ty) {
            return false;
        }
        rest = more;
    }
    true
}

fn values_are_due(scope: &Scope, values: &[ValType]) -> bool
    ensures { (s : Space) → Stands s scope.now → result ≡ list_all (value_is_due s) values.now }
{
    let mut rest = values;
    while let Some((value, more)) = rest.split_first() {
        if !value_is_due(scope, *value) {
            return false;
        }
        rest = more;
    }
    true
}

/// Whether a value type stands wherever one is due. An index that is not there is at fault by another rule.
pub fn def_has_values(scope: &Scope, def: &TypeDef) -> bool
    ensures { (s : Space) → Stands s scope.now → result ≡ def_has_values s def.now }
{
    match def {
        TypeDef::Record { fields } => labels_are_due(scope, fields.as_slice()),
        TypeDef::Variant { cases } => cases_are_due(scope, cases.as_slice()),
        TypeDef::List(item) => value_is_due(scope, *item),
        TypeDef::Tuple { types } => values_are_due(scope, types.as_slice()),
        TypeDef::Option(item) => value_is_due(scope, *item),
        TypeDef::Result { ok, err } => {
            some_value_is_due(scope, ok.get()) && some_value_is_due(scope, err.get())
        }
        TypeDef::Func { params, result } => {
            labels_are_due(scope, params.as_slice()) && some_value_is_due(scope, result.get())
        }
        TypeDef::Primitive(_) => true,
        TypeDef::Flags { labels: _ } => true,
        TypeDef::Enum { labels: _ } => true,
        TypeDef::Own(_) => true,
        TypeDef::Borrow(_) => true,
        TypeDef::Instance { declarations: _ } => true,
        TypeDef::Resource { destructor: _ } => true,
    }
}
