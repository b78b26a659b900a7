//! What is asked of a type's definition but its indexes: it is not empty, and its labels are legal and differ.

ghost use Rattle.std.specs.Prelude.{◌≡◌, ◌&&◌, map, IfOk};
ghost use Rattle.std.specs.List.{list_all};
ghost use Rattle.comp_names.specs.Labels.{is_label};
ghost use Rattle.comp_types.specs.Rules.{def_is_filled, def_labels, is_filled, labels_differ};

use crate::differ::names_differ;
use crate::legal::labels_are_legal;
use crate::named::Named;
use std::alloc::Global;
use virt_base::NoMemory;
use wasm_ast::TypeDef;

/// Whether there are items, no two with names that are alike.
fn are_named_apart<T: Named>(alloc: Global, items: &[T]) -> Result<bool, NoMemory>
    ensures { IfOk result (λ apart. apart ≡ (is_filled items.now && labels_differ (map T.name items.now))) }
{
    if items.is_empty() {
        return Ok(false);
    }
    names_differ(alloc, items)
}

/// Whether a record, a variant, a tuple, flags or an enum is not empty and its labels differ, with 32 flags at most.
pub fn def_is_filled(alloc: Global, def: &TypeDef) -> Result<bool, NoMemory>
    ensures { IfOk result (λ filled. filled ≡ def_is_filled def.now) }
{
    match def {
        TypeDef::Record { fields } => are_named_apart(alloc, fields.as_slice()),
        TypeDef::Variant { cases } => are_named_apart(alloc, cases.as_slice()),
        TypeDef::Tuple { types } => Ok(!types.is_empty()),
        TypeDef::Flags { labels } => {
            let apart = are_named_apart(alloc, labels.as_slice())?;
            Ok(apart && labels.len() <= 32)
        }
        TypeDef::Enum { labels } => are_named_apart(alloc, labels.as_slice()),
        TypeDef::Primitive(_) => Ok(true),
        TypeDef::List(_) => Ok(true),
        TypeDef::Option(_) => Ok(true),
        TypeDef::Result { ok: _, err: _ } => Ok(true),
        TypeDef::Own(_) => Ok(true),
        TypeDef::Borrow(_) => Ok(true),
        TypeDef::Func {
            params: _,
            result: _,
        } => Ok(true),
        TypeDef::Instance { declarations: _ } => Ok(true),
        TypeDef::Resource { destructor: _ } => Ok(true),
    }
}

/// Whether the labels of fields, cases, flags, enums and parameters are legal.
pub fn def_labels_are_legal(def: &TypeDef) -> bool
    ensures { result ≡ list_all is_label (def_labels def.now) }
{
    match def {
        TypeDef::Record { fields } => labels_are_legal(fields.as_slice()),
        TypeDef::Variant { cases } => labels_are_legal(cases.as_slice()),
        TypeDef::Flags { labels } => labels_are_legal(labels.as_slice()),
        TypeDef::Enum { labels } => labels_are_legal(labels.as_slice()),
        TypeDef::Func { params, result: _ } => labels_are_legal(params.as_slice()),
        TypeDef::Tuple { types: _ } => true,
        TypeDef::Primitive(_) => true,
        TypeDef::List(_) => true,
        TypeDef::Option(_) => true,
        TypeDef::Result { ok: _, err: _ } => true,
        TypeDef::Own(_) => true,
        TypeDef::Borrow(_) => true,
        TypeDef::Instance { declarations: _ } => true,
        TypeDef::Resource { destructor: _ } => true,
    }
}
