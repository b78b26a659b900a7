//! The sections of a component in order, with those of the components in it (Component Model, Binary.md, "Component Definitions").

ghost use Rattle.std.specs.Prelude.{List, IfOk};
ghost use Rattle.wasm_ast.specs.declared.component.Span.{Span};
ghost use Rattle.comp_grammar.specs.Trees.{Nested, plain, plain_section, plain_sections};
ghost use Rattle.comp_types.specs.Spaces.{Space};
ghost use Rattle.comp_defining.specs.Around.{StandAll};
ghost use Rattle.comp_validate.specs.Judged.{JudgedPart, JudgedTree};

use crate::define_types;
use crate::definitions::define_all;
use crate::sections::{close_nested, define_module};
use comp_defining::Scopes;
use std::alloc::Global;
use virt_base::NoMemory;
use wasm_ast::{Component, Section};

/// The least rule that the first definition at fault breaks, and the place of its section.
#[derive(Debug, Clone, Copy, PartialEq, Eq)]
pub struct Broken {
    pub rule: u32,
    pub section: u32,
}

/// A component in the component: rule 2, or else it is added.
#[cycle(judge_sections)]
fn judge_nested(
    alloc: Global,
    scopes: &mut Scopes,
    component: &Component,
) -> Result<Option<u32>, NoMemory>
    ensures { IfOk result (λ rule. (around : List Space) → (s : Space) → (span : Span) → StandAll around s scopes.old → JudgedPart around s (Nested span (plain component.now)) scopes.new rule) }
{
    scopes.enter(alloc)?;
    match judge_sections(alloc, scopes, component.sections.as_slice())? {
        Some(_) => Ok(Some(2)),
        None => {
            close_nested(alloc, scopes)?;
            Ok(None)
        }
    }
}

/// A section: the least rule that its first definition at fault breaks, or else all of them are added.
#[cycle(judge_sections)]
fn judge_section(
    alloc: Global,
    scopes: &mut Scopes,
    section: &Section,
) -> Result<Option<u32>, NoMemory>
    ensures { IfOk result (λ rule. (around : List Space) → (s : Space) → StandAll around s scopes.old → JudgedPart around s (plain_section section.now) scopes.new rule) }
{
    match section {
        Section::CoreModule(_, judged) => define_module(alloc, scopes, judged),
        Section::Nested(_, component) => judge_nested(alloc, scopes, component),
        Section::CoreInstances(items) => define_all(alloc, scopes, items.as_slice()),
        Section::Instances(items) => define_all(alloc, scopes, items.as_slice()),
        Section::Aliases(items) => define_all(alloc, scopes, items.as_slice()),
        Section::Types(items) => define_types(alloc, scopes, items.as_slice()),
        Section::Canons(items) => define_all(alloc, scopes, items.as_slice()),
        Section::Imports(items) => define_all(alloc, scopes, items.as_slice()),
        Section::Exports(items) => define_all(alloc, scopes, items.as_slice()),
        Section::Custom(_) => Ok(None),
    }
}

/// The sections of a component in order.
#[cycle(judge_sections)]
pub fn judge_sections(
    alloc: Global,
    scopes: &mut Scopes,
    sections: &[Section],
) -> Result<Option<Broken>, NoMemory>
    ensures { IfOk result (λ broken. (around : List Space) → (s : Space) → StandAll around s scopes.old → JudgedTree around s (plain_sections sections.now) scopes.new broken) }
{
    let mut number: u32 = 0;
    for section in sections {
        if let Some(rule) = judge_section(alloc, scopes, section)? {
            return Ok(Some(Broken {
                rule,
                section: number,
            }));
        }
        let Some(next) = number.checked_add(1) else {
            return Err(NoMemory);
        };
        number = next;
    }
    Ok(None)
}
