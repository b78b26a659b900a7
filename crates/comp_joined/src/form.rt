//! Whether a component is of the form that joins two others.

ghost use Rattle.std.specs.Prelude.{◌≡◌, List, [], ◌∷◌, IsTrue, IfSome};
ghost use Rattle.wasm_ast.specs.declared.component.Instance.TheVariants as instances;
ghost use Rattle.wasm_ast.specs.declared.component.Span.{Span};
ghost use Rattle.wasm_ast.specs.declared.component.NamedItem.{NamedItem};
ghost use Rattle.comp_grammar.specs.Trees.{Tree, Nested, plain, plain_section};
ghost use Rattle.output_same.specs.Holding.{components_in};
ghost use Rattle.comp_joins.specs.Joining.{instance_of};
ghost use Rattle.comp_joined.specs.Form.{IsPast, IsPastInstance, IsJoining};

use crate::sections::makes_nothing;
use wasm_ast::{Component, Instance, Section};

#[tactic(auto, using(comp_grammar::proofs::PlainLemmas::plains))]
fn is_component(section: &Section) -> bool
    ensures { IsTrue result → (span : Span) × (inner : Tree) × (plain_section section.now ≡ Nested span inner) }
{
    match section {
        Section::Nested(_, _) => true,
        _ => false,
    }
}

fn is_of_component(instance: &Instance, index: u32) -> bool
    ensures { IsTrue result → (args : List NamedItem) × (instance.now ≡ instances.Instantiate index args) }
{
    match instance {
        Instance::Instantiate { component, .. } => *component == index,
        Instance::Inline { .. } => false,
    }
}

fn is_one(items: &[Instance], index: u32) -> bool
    ensures { IsTrue result → (args : List NamedItem) × (items.now ≡ instances.Instantiate index args ∷ []) }
{
    let Some((one, more)) = items.split_first() else {
        return false;
    };
    if !more.is_empty() {
        return false;
    }
    is_of_component(one, index)
}

/// One instance, of the component at this index.
#[tactic(auto, using(comp_grammar::proofs::PlainLemmas::plains))]
fn is_instance(section: &Section, index: u32) -> bool
    ensures { IsTrue result → (args : List NamedItem) × (plain_section section.now ≡ instance_of index args) }
{
    match section {
        Section::Instances(items) => is_one(items.as_slice(), index),
        _ => false,
    }
}

/// What follows the sections that make nothing.
fn past_names(sections: &[Section]) -> &[Section]
    ensures { IsPast sections.now result.now }
{
    let mut rest = sections;
    while let Some((first, more)) = rest.split_first() {
        if !makes_nothing(first) {
            return rest;
        }
        rest = more;
    }
    rest
}

/// What follows a component and its instance; the component has this index.
fn past_instance(sections: &[Section], index: u32) -> Option<&[Section]>
    ensures { IfSome result (λ rest. IsPastInstance index sections.now rest.now) }
{
    let (component, more) = sections.split_first()?;
    if !is_component(component) {
        return None;
    }
    let (instance, rest) = more.split_first()?;
    if !is_instance(instance, index) {
        return None;
    }
    Some(rest)
}

/// True only of a component that joins the two in it: it holds two, makes an instance of each, and its own sections only import, define
/// value types, name what instances export, and export.
pub fn is_joining(whole: &Component) -> bool
    ensures { IsTrue result → (first second : Tree) → components_in (plain whole.now) ≡ first ∷ second ∷ [] → IsJoining first second (plain whole.now) }
{
    let front = past_names(whole.sections.as_slice());
    let Some(behind_first) = past_instance(front, 0) else {
        return false;
    };
    let between = past_names(behind_first);
    let Some(behind_second) = past_instance(between, 1) else {
        return false;
    };
    past_names(behind_second).is_empty()
}
