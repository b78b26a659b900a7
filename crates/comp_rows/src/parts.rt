//! Which sections are read, with the parts of the input that spell them.

use crate::rows::{Asked, hold};
use crate::words::{named, said, shown};
use comp_read::read_component;
use std::alloc::Global;
use std::test::Fail;
use wasm_ast::{Component, Section, Span, TypeItem};

fn part(alloc: Global, before: &str, span: Span) -> Result<String, Fail> {
    let mut words = shown(alloc, before, &span.from)?;
    words.push(' ')?;
    shown(alloc, words.as_str(), &span.to)
}

/// An instance type by the number of its declarations.
fn type_item(alloc: Global, item: &TypeItem) -> Result<String, Fail> {
    let declarations = match item {
        TypeItem::Define(def) => def.declarations(),
        _ => None,
    };
    match declarations {
        Some(declarations) => shown(alloc, " instance ", &declarations),
        None => said(alloc, " other"),
    }
}

fn types(alloc: Global, items: &[TypeItem]) -> Result<String, Fail> {
    let mut words = String::from_str(alloc, "; types")?;
    for item in items {
        words.push_str(type_item(alloc, item)?.as_str())?;
    }
    Ok(words)
}

/// A nested component, and the part that its only section keeps, where it is a custom one.
fn nested(alloc: Global, span: Span, component: &Component) -> Result<String, Fail> {
    let words = part(alloc, "; nested ", span)?;
    match component.sections.as_slice() {
        [Section::Custom(inner)] => {
            let inner = part(alloc, " with ", *inner)?;
            named(alloc, words.as_str(), inner.as_str())
        }
        _ => Ok(words),
    }
}

fn section(alloc: Global, section: &Section) -> Result<String, Fail> {
    match section {
        Section::Custom(span) => part(alloc, "; custom ", *span),
        Section::CoreModule(span, _) => part(alloc, "; module ", *span),
        Section::Nested(span, inner) => nested(alloc, *span, inner),
        Section::Types(items) => types(alloc, items.as_slice()),
        _ => said(alloc, "; other"),
    }
}

pub fn answer(alloc: Global, bytes: &[u8]) -> Result<String, Fail> {
    let Ok(component) = read_component(alloc, bytes) else {
        return said(alloc, "not read");
    };
    let mut words = String::from_str(alloc, "read")?;
    for one in component.sections.as_slice() {
        words.push_str(section(alloc, one)?.as_str())?;
    }
    Ok(words)
}

const ROWS: &str = "\
# The declarations of an instance type follow it in the list
types 2 => read; types instance 1 instance 1 other
# What is nested stands with the part of the input that spells it; of a custom section the part behind its size is kept
0003016105`empty-module`040b0061736d0d000100000100 => read; custom 10 13; module 15 23; nested 25 36 with 35 36";

#[test]
fn parts_of_components(rt: HostRuntime) -> Result<(), Fail> {
    hold(&rt, rt.alloc(), Asked::Parts, ROWS)
}
