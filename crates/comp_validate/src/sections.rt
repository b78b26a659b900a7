//! Core modules and components in a component, judged and added.

ghost use Rattle.std.specs.Prelude.{◌∷◌, List, IfOk, OnOk};
ghost use Rattle.wasm_ast.specs.declared.component.Span.{Span};
ghost use Rattle.comp_grammar.specs.Trees.{CoreModule};
ghost use Rattle.comp_types.specs.Added.{and_nested};
ghost use Rattle.comp_types.specs.Spaces.{Space};
ghost use Rattle.comp_defining.specs.Around.{StandAll};
ghost use Rattle.comp_validate.specs.Judged.{JudgedPart};

use crate::nested::add_nested;
use comp_defining::Scopes;
use comp_scopes::{Shared, valid_module};
use std::alloc::Global;
use virt_base::NoMemory;
use wasm_ast::Module;

/// A module in the component: rule 1, or else it is added.
pub fn define_module(
    alloc: Global,
    scopes: &mut Scopes,
    judged: &Module,
) -> Result<Option<u32>, NoMemory>
    ensures { IfOk result (λ rule. (around : List Space) → (s : Space) → (span : Span) → StandAll around s scopes.old → JudgedPart around s (CoreModule span judged.now) scopes.new rule) }
{
    match valid_module(alloc, judged)? {
        None => Ok(Some(1)),
        Some(known) => {
            let known = Shared::new(alloc, known)?;
            scopes.inner.add_module(known)?;
            Ok(None)
        }
    }
}

fn add_closed(alloc: Global, scopes: &mut Scopes) -> Result<(), NoMemory>
    ensures { OnOk result ((around : List Space) → (t s : Space) → StandAll (t ∷ around) s scopes.old → StandAll around (and_nested t s) scopes.new) }
{
    match scopes.close() {
        None => Ok(()),
        Some(inner) => add_nested(alloc, &mut scopes.inner, &scopes.types, inner),
    }
}

/// Closes the scope of a component in the component, and adds it.
pub fn close_nested(alloc: Global, scopes: &mut Scopes) -> Result<(), NoMemory>
    ensures { OnOk result ((around : List Space) → (t s : Space) → StandAll (t ∷ around) s scopes.old → StandAll around (and_nested t s) scopes.new) }
{
    let walked = scopes.inner.exports.entries().walked();
    scopes.walk(u64::from(walked))?;
    add_closed(alloc, scopes)
}
