//! Sections that make nothing when a component is instantiated.

ghost use Rattle.std.specs.Prelude.{IsTrue};
ghost use Rattle.std.specs.List.{AllByRecursion};
ghost use Rattle.comp_grammar.specs.Trees.{plain_section};
ghost use Rattle.comp_joined.specs.Form.{DefinesNoResource, NamesAnItem, MakesNothing};

use wasm_ast::{Alias, OuterSort, Section, TypeItem};

/// Resources are told at once, without a copy of the definition.
fn defines_no_resource(item: &TypeItem) -> bool
    ensures { IsTrue result → DefinesNoResource item.now }
{
    match item {
        TypeItem::Define(kept) => kept.destructor().is_none(),
        _ => true,
    }
}

fn define_no_resource(items: &[TypeItem]) -> bool
    ensures { IsTrue result → AllByRecursion DefinesNoResource items.now }
{
    let mut rest = items;
    while let Some((first, more)) = rest.split_first() {
        if !defines_no_resource(first) {
            return false;
        }
        rest = more;
    }
    true
}

/// False of aliases of core items, and of modules and components further out.
fn names_an_item(alias: &Alias) -> bool
    ensures { IsTrue result → NamesAnItem alias.now }
{
    match alias {
        Alias::Export { .. } => true,
        Alias::Outer { sort, .. } => match sort {
            OuterSort::Type => true,
            _ => false,
        },
        Alias::CoreExport { .. } => false,
    }
}

fn name_items(items: &[Alias]) -> bool
    ensures { IsTrue result → AllByRecursion NamesAnItem items.now }
{
    let mut rest = items;
    while let Some((first, more)) = rest.split_first() {
        if !names_an_item(first) {
            return false;
        }
        rest = more;
    }
    true
}

/// True only of a section that imports, defines value types, names what instances export, or exports.
#[tactic(auto, using(comp_grammar::proofs::PlainLemmas::plains))]
pub fn makes_nothing(section: &Section) -> bool
    ensures { IsTrue result → MakesNothing (plain_section section.now) }
{
    match section {
        Section::Types(items) => define_no_resource(items.as_slice()),
        Section::Aliases(items) => name_items(items.as_slice()),
        Section::Imports(_) => true,
        Section::Exports(_) => true,
        _ => false,
    }
}
