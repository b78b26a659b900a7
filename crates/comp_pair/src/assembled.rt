//! Two components in one, put together part by part.

ghost use Rattle.std.specs.Prelude.{◌≡◌, [], ◌∷◌, ◌++◌, IfOk, OnOk};
ghost use Rattle.comp_grammar.specs.Trees.{Tree, Nested, plain, plain_section};
ghost use Rattle.comp_grammar.specs.Components.{no_span};
ghost use Rattle.comp_write.specs.Copying.{SpellsBare};
ghost use Rattle.comp_pieces.specs.Extending.{Extends};
ghost use Rattle.virt_output.specs.Bytes.{section_bytes};
ghost use Rattle.virt_output.specs.Pieces.{head_of_component};
ghost use Rattle.comp_pair.specs.Assembled.{HoldsMore, HasSection, IsFront, IsAssembled};

use crate::fault::{PairFault, of_piece};
use comp_pieces::{put, put_sections};
use std::alloc::Global;
use virt_base::NoMemory;
use virt_output::{Piece, put_component_head, start_component};
use wasm_ast::{Component, Section, Span};

/// Sections before the second component, and the bytes that spell a component with them.
#[derive(Drop)]
pub struct Front {
    pub sections: Vec<Section>,
    pub bytes: Vec<u8>,
}

/// A component in which two stand, and its bytes before and after those of the second.
#[derive(Drop)]
pub struct Assembled {
    pub whole: Component,
    pub front: Vec<u8>,
    pub back: Vec<u8>,
}

#[tactic(auto, using(comp_grammar::proofs::PlainLemmas::plains))]
fn nested(component: Component) -> Section
    ensures { plain_section result ≡ Nested no_span (plain component) }
{
    Section::Nested(Span { from: 0, to: 0 }, component)
}

fn push(sections: &mut Vec<Section>, section: Section) -> Result<(), NoMemory>
    ensures { OnOk result (sections.new.items ≡ sections.old.items ++ section ∷ []) }
{
    sections.push(section)?;
    Ok(())
}

/// Adds sections that list items.
fn put_all(
    alloc: Global,
    out: &mut Vec<u8>,
    sections: &mut Vec<Section>,
    pieces: Vec<Piece<'_>>,
) -> Result<(), PairFault>
    ensures { OnOk result (Extends sections.old.items sections.new.items out.old.items out.new.items) }
{
    match put_sections(alloc, out, sections, pieces) {
        Ok(true) => Ok(()),
        Ok(false) => Err(PairFault::Unsound),
        Err(fault) => Err(of_piece(fault)),
    }
}

/// Adds a section that holds a component, whose bytes these are.
fn put_component(
    alloc: Global,
    out: &mut Vec<u8>,
    sections: &mut Vec<Section>,
    component: Component,
    bytes: &[u8],
) -> Result<(), PairFault>
    requires { SpellsBare 0 (plain component) bytes.now }
    ensures held { OnOk result (HoldsMore (plain component) sections.old.items sections.new.items out.old.items out.new.items) }
    ensures placed { OnOk result (out.new.items ≡ out.old.items ++ section_bytes 4 bytes.now) }
{
    let piece = Piece::Component(bytes);
    match put(alloc, out, &piece) {
        Ok(()) => {
            push(sections, nested(component))?;
            Ok(())
        }
        Err(fault) => Err(of_piece(fault)),
    }
}

/// What stands before the second component: imports, the first component, and what is made of it.
pub fn front_of(
    alloc: Global,
    imports: Vec<Piece<'_>>,
    first: Component,
    bytes: &[u8],
    between: Vec<Piece<'_>>,
) -> Result<Front, PairFault>
    requires { SpellsBare 0 (plain first) bytes.now }
    ensures front { IfOk result (IsFront (plain first)) }
    ensures placed { IfOk result (λ f. HasSection bytes.now f.bytes.items) }
{
    let mut out = start_component(alloc)?;
    let mut sections = Vec::new(alloc);
    put_all(alloc, &mut out, &mut sections, imports)?;
    put_component(alloc, &mut out, &mut sections, first, bytes)?;
    put_all(alloc, &mut out, &mut sections, between)?;
    Ok(Front {
        sections,
        bytes: out,
    })
}

/// The whole, with the second component in it, which has that many bytes.
pub fn assemble(
    alloc: Global,
    front: Front,
    second: Component,
    size: u32,
    after: Vec<Piece<'_>>,
) -> Result<Assembled, PairFault>
    ensures whole { IfOk result (λ a. (first : Tree) → IsFront first front → IsAssembled first (plain second) size a) }
    ensures head { IfOk result (λ a. a.front.items ≡ front.bytes.items ++ head_of_component size) }
{
    let Front {
        sections: before,
        bytes,
    } = front;
    let mut sections = before;
    let mut out = bytes;
    put_component_head(alloc, &mut out, size)?;
    push(&mut sections, nested(second))?;
    let mut back = Vec::new(alloc);
    put_all(alloc, &mut back, &mut sections, after)?;
    Ok(Assembled {
        whole: Component { sections },
        front: out,
        back,
    })
}
