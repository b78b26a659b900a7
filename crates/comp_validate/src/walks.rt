//! How many entries and parameters, written out, a definition is judged by walking over, or makes anew. A value type counts as one: a
//! walk over a table comes by each different part of it once. No clause speaks of them.

use comp_defining::Scopes;
use comp_scopes::{KnownComponent, Scope};
use comp_types::{InstanceEntries, TypeItem};
use wasm_ast::{
    Alias, ComponentExport, ComponentImport, ExternDesc, Instance, OuterSort, TypeAlias,
};

/// What is made anew takes memory, some hundreds of bytes an entry: it counts as that many that are walked over.
const ANEW: u64 = 64;

/// What making these anew counts as.
fn made_in(entries: &InstanceEntries) -> u64 {
    let count = entries.as_slice().len() as u64;
    let walked = u64::from(entries.walked());
    walked.saturating_add(count).saturating_mul(ANEW)
}

/// What making an instance of a type anew counts as, which is shared if the type declares no resource.
fn made_of(kind: &TypeItem) -> u64 {
    match kind {
        TypeItem::Instance(ty) => {
            if ty.own.is_empty() {
                0
            } else {
                made_in(&ty.instance.entries)
            }
        }
        TypeItem::Resource(_) | TypeItem::Value(_) | TypeItem::Func(_) => 0,
    }
}

fn kind_of_desc(scope: &Scope, desc: ExternDesc) -> Option<&TypeItem> {
    match desc {
        ExternDesc::Func(index) | ExternDesc::TypeEq(index) | ExternDesc::Instance(index) => {
            scope.kind_at(index)
        }
        ExternDesc::Resource => None,
    }
}

/// An import's type is searched for resources.
pub fn walked_by_import(scope: &Scope, import: &ComponentImport) -> u64 {
    match kind_of_desc(scope, import.desc) {
        None => 0,
        Some(kind) => u64::from(kind.walked()).saturating_add(made_of(kind)),
    }
}

/// What an export of an instance type describes is made anew.
pub fn walked_by_desc(scope: &Scope, desc: ExternDesc) -> u64 {
    match kind_of_desc(scope, desc) {
        None => 0,
        Some(kind) => made_of(kind),
    }
}

/// The type that an export states is compared with that of what is exported.
pub fn walked_by_export(scope: &Scope, export: &ComponentExport) -> u64 {
    let Some(desc) = export.desc else {
        return 0;
    };
    match kind_of_desc(scope, desc) {
        None => 0,
        Some(kind) => u64::from(kind.listed()).saturating_add(made_of(kind)),
    }
}

/// Its imports are compared with arguments, and its exports made anew.
fn walked_for(component: &KnownComponent) -> u64 {
    u64::from(component.imports.listed()).saturating_add(made_in(&component.exports))
}

pub fn walked_by_instance(scope: &Scope, instance: &Instance) -> u64 {
    match instance {
        Instance::Inline { .. } => 0,
        Instance::Instantiate { component, .. } => match scope.component_at(*component) {
            None => 0,
            Some(known) => walked_for(known.get()),
        },
    }
}

fn walked_by_outer(scopes: &Scopes, count: u32, index: u32) -> u64 {
    let Some(scope) = scopes.scope_at(count) else {
        return 0;
    };
    match scope.kind_at(index) {
        None => 0,
        Some(kind) => u64::from(kind.walked()),
    }
}

pub fn walked_by_alias(scopes: &Scopes, alias: &Alias) -> u64 {
    match alias {
        Alias::Outer {
            sort: OuterSort::Type,
            count,
            index,
        } => walked_by_outer(scopes, *count, *index),
        _ => 0,
    }
}

pub fn walked_by_type_alias(scopes: &Scopes, alias: &TypeAlias) -> u64 {
    match alias {
        TypeAlias::Outer { count, index } => walked_by_outer(scopes, *count, *index),
        TypeAlias::Export { .. } => 0,
    }
}
