//! How many bytes of code a component holds, with those of the components in it.

#![tactic(auto, using(comp_grammar::proofs::PlainLemmas::plains))]

ghost use Rattle.std.specs.Prelude.{◌≡◌};
ghost use Rattle.comp_grammar.specs.Trees.{plain, plain_section, plain_sections};
ghost use Rattle.component_judge.specs.Sizes.{capped, cut, module_code, part_code, tree_code};

use crate::modules::module_code;
use wasm_ast::{Component, Section, Span};

/// The code of the module that is a part of the input.
fn code_in(source: &[u8], span: Span) -> u64
    ensures { result ≡ capped (module_code (cut span source.now)) }
{
    let from = span.from as usize;
    let to = span.to as usize;
    if to < from {
        return 0;
    }
    if source.len() < to {
        return 0;
    }
    module_code(&source[from..to])
}

#[cycle(code)]
fn section_code(source: &[u8], section: &Section) -> u64
    ensures { result ≡ capped (part_code source.now (plain_section section.now)) }
{
    match section {
        Section::CoreModule(span, _) => code_in(source, *span),
        Section::Nested(_, component) => sections_code(source, component.sections.as_slice()),
        Section::CoreInstances(_) => 0,
        Section::Instances(_) => 0,
        Section::Aliases(_) => 0,
        Section::Types(_) => 0,
        Section::Canons(_) => 0,
        Section::Imports(_) => 0,
        Section::Exports(_) => 0,
        Section::Custom(_) => 0,
    }
}

#[cycle(code)]
fn sections_code(source: &[u8], sections: &[Section]) -> u64
    ensures { result ≡ capped (tree_code source.now (plain_sections sections.now)) }
{
    let mut code: u64 = 0;
    for section in sections {
        code = code.saturating_add(section_code(source, section));
    }
    code
}

/// How many bytes stand after the sizes of all code sections together: of the modules of a component that the source spells, and of
/// those of the components in it. The greatest number stands for all above it.
pub fn code_bytes(source: &[u8], component: &Component) -> u64
    ensures { result ≡ capped (tree_code source.now (plain component.now)) }
{
    sections_code(source, component.sections.as_slice())
}
