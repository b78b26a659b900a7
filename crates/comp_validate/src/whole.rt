//! `validate`: a whole component, from an empty scope to its type or its first fault.

ghost use Rattle.comp_grammar.specs.Trees.{plain};
ghost use Rattle.comp_validate.specs.Answer.{Answers};

use crate::components::judge_sections;
use crate::fault::CompFault;
use comp_defining::Scopes;
use comp_scopes::Scope;
use comp_signature::ComponentType;
use std::alloc::Global;
use wasm_ast::Component;

/// The type of a component, where each rule holds of each of its definitions; else the least rule that fails of the first definition
/// of which one fails, and the place of its outermost section (Component Model, Binary.md and Explainer.md).
pub fn validate(alloc: Global, component: &Component) -> Result<ComponentType, CompFault>
    ensures { Answers (plain component.now) result }
{
    let mut scopes = Scopes::root(alloc);
    match judge_sections(alloc, &mut scopes, component.sections.as_slice())? {
        Some(broken) => Err(CompFault::Invalid(broken.rule, broken.section)),
        None => {
            let Scope {
                imports,
                exports,
                ..
            } = scopes.into_inner();
            Ok(ComponentType {
                imports: imports.into_entries(),
                exports: exports.into_entries(),
            })
        }
    }
}
