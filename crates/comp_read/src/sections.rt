//! Readers of the sections in which no component stands, by their ids (Component Model, Binary.md, "Component Definitions").

ghost use Rattle.std.specs.Prelude.{◌≡◌, ◌<◌};
ghost use Rattle.virt_base.specs.Place.{place};
ghost use Rattle.wasm_format.specs.Format.{Format, sized};
ghost use Rattle.wasm_format.specs.Reads.{Reads, ReadsAs};
ghost use Rattle.wasm_ast.specs.Modules.{note};
ghost use Rattle.comp_grammar.specs.Trees.{plain_section};
ghost use Rattle.comp_grammar.specs.Components.{beside, span_of, custom, placed_module, low_section, high_section};

use comp_items::{
    AliasReader, CanonReader, CoreInstanceReader, ExportReader, ImportReader, InstanceReader,
    TypeItemsReader, lacks,
};
use core_read::{CoreModules, SelectLists};
use std::alloc::Global;
use virt_base::Cursor;
use wasm_ast::{Boxed, Module, Section, Span};
use wasm_format::{Reader, Sized, Spanned, Spanning, Stop, Vecs, take_name};

/// The content of custom sections, of which only the name is looked at.
#[derive(Clone, Copy)]
struct Notes;

impl Reader for Notes {
    type Value = ();

    ghost format = { λ _. note };

    #[tactic(auto, unfolding(wasm_ast::specs::Modules::note))]
    fn read(&self, alloc: Global, c: &mut Cursor<'_>) -> Result<(), Stop> {
        let _name = take_name(alloc, c)?;
        c.at = c.bytes.len();
        Ok(())
    }
}

/// Keeps the part of the input, and not what stands there.
#[derive(Clone, Copy)]
struct SpanAlone;

impl Spanning<()> for SpanAlone {
    type Whole = Span;

    ghost put = { span_of };

    fn put(&self, from: u64, to: u64, _content: ()) -> Span {
        Span { from, to }
    }
}

/// Keeps the part of the input beside the module that stands there.
#[derive(Clone, Copy)]
struct BesideModule;

impl Spanning<Module> for BesideModule {
    type Whole = (Span, Module);

    ghost put = { beside };

    fn put(&self, from: u64, to: u64, content: Module) -> (Span, Module) {
        (Span { from, to }, content)
    }
}

/// A custom section, after its id.
#[tactic(auto, unfolding(comp_grammar::specs::Components::custom))]
fn read_custom(alloc: Global, c: &mut Cursor<'_>) -> Result<Span, Stop>
    ensures input { c.new.bytes ≡ c.old.bytes }
    ensures value { Reads result c.new ((sized custom).read (place c.old)) }
{
    let item = Notes;
    let make = SpanAlone;
    Sized(Spanned { item, make }).read(alloc, c)
}

/// A core module, after its id.
#[tactic(auto, unfolding(comp_grammar::specs::Components::placed_module))]
fn read_core_module(
    selects: &SelectLists,
    alloc: Global,
    c: &mut Cursor<'_>,
) -> Result<(Span, Module), Stop>
    ensures input { c.new.bytes ≡ c.old.bytes }
    ensures value { Reads result c.new ((sized placed_module).read (place c.old)) }
{
    let item = CoreModules(selects);
    let make = BesideModule;
    Sized(Spanned { item, make }).read(alloc, c)
}

/// A section of id 0 to 2, whose id was taken.
#[tactic(auto, unfolding(comp_grammar::specs::Components::low_section), using(comp_grammar::proofs::PlainLemmas::plains))]
pub fn low_section(
    selects: &SelectLists,
    alloc: Global,
    c: &mut Cursor<'_>,
    id: u8,
) -> Result<Section, Stop>
    requires { 0 < c.old.at }
    ensures input { c.new.bytes ≡ c.old.bytes }
    ensures value { ReadsAs plain_section result c.new ((low_section id).read (place c.old)) }
{
    match id {
        0 => Ok(Section::Custom(read_custom(alloc, c)?)),
        1 => {
            let (span, module) = read_core_module(selects, alloc, c)?;
            Ok(Section::CoreModule(span, Boxed::new(alloc, module)?))
        }
        2 => Ok(Section::CoreInstances(Sized(Vecs(CoreInstanceReader)).read(alloc, c)?)),
        _ => Err(lacks(c, id)),
    }
}

/// A section of id 5 or more, whose id was taken.
#[tactic(auto, unfolding(comp_grammar::specs::Components::high_section), using(comp_grammar::proofs::PlainLemmas::plains))]
pub fn high_section(alloc: Global, c: &mut Cursor<'_>, id: u8) -> Result<Section, Stop>
    requires { 0 < c.old.at }
    ensures input { c.new.bytes ≡ c.old.bytes }
    ensures value { ReadsAs plain_section result c.new ((high_section id).read (place c.old)) }
{
    match id {
        5 => Ok(Section::Instances(Sized(Vecs(InstanceReader)).read(alloc, c)?)),
        6 => Ok(Section::Aliases(Sized(Vecs(AliasReader)).read(alloc, c)?)),
        7 => Ok(Section::Types(Sized(TypeItemsReader).read(alloc, c)?)),
        8 => Ok(Section::Canons(Sized(Vecs(CanonReader)).read(alloc, c)?)),
        10 => Ok(Section::Imports(Sized(Vecs(ImportReader)).read(alloc, c)?)),
        11 => Ok(Section::Exports(Sized(Vecs(ExportReader)).read(alloc, c)?)),
        _ => Err(lacks(c, id)),
    }
}
