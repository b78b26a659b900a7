//! Components in components, read by recursion up to a depth (Component Model, Binary.md, "Component Definitions").

ghost use Rattle.std.specs.Prelude.{◌≡◌, length, OnOk};
ghost use Rattle.virt_base.specs.Place.{place, rest};
ghost use Rattle.wasm_format.specs.Format.{sized};
ghost use Rattle.wasm_format.specs.Reads.{ReadsAs};
ghost use Rattle.wasm_format.specs.Sections.{run, ended};
ghost use Rattle.comp_grammar.specs.Trees.{End, plain, plain_section};
ghost use Rattle.comp_grammar.specs.Components.{placed, section, sections, component};
ghost use Rattle.comp_read.specs.Runs.{RanAs, plain_placed};

use crate::sections::{high_section, low_section};
use core_read::SelectLists;
use std::alloc::Global;
use virt_base::{Cursor, next_byte};
use wasm_ast::{Component, Section, Span};
use wasm_format::{Reader, Stop, U32, expect_bytes, trimmed};

/// The magic number, the version and the layer (Component Model, Binary.md, "Component Definitions").
pub const PREAMBLE: [u8; 8] = [0x00, 0x61, 0x73, 0x6D, 0x0D, 0x00, 0x01, 0x00];

/// Reads sections to the end of the bytes, where components stand in these at most so deep. `good` is left as the end of the last
/// whole section. The instructions of all modules share these lists.
#[cycle(reader)]
pub fn read_sections(
    selects: &SelectLists,
    alloc: Global,
    c: &mut Cursor<'_>,
    depth: u32,
    good: &mut usize,
) -> Result<Component, Stop>
    ensures input { c.new.bytes ≡ c.old.bytes }
    ensures ran { RanAs plain result good.new (run (sections (component depth)) (length (rest c.old)) End good.old c.old.at (rest c.old)) }
    ensures end { OnOk result (c.new.at ≡ length c.new.bytes.now) }
{
    let mut sections = Vec::new(alloc);
    for _ in 0..c.bytes.len() - c.at {
        *good = c.at;
        if c.at == c.bytes.len() {
            let whole = trimmed(alloc, sections)?;
            return Ok(Component { sections: whole });
        }
        let section = read_section(selects, alloc, c, depth)?;
        sections.push(section)?;
    }
    *good = c.at;
    if c.at < c.bytes.len() {
        return Err(Stop::Malformed);
    }
    let whole = trimmed(alloc, sections)?;
    Ok(Component { sections: whole })
}

/// A section, in which components stand at most so deep.
#[cycle(reader)]
#[tactic(auto, unfolding(comp_grammar::specs::Components::section, comp_grammar::specs::Components::nested_section), using(comp_grammar::proofs::PlainLemmas::plains))]
fn read_section(
    selects: &SelectLists,
    alloc: Global,
    c: &mut Cursor<'_>,
    depth: u32,
) -> Result<Section, Stop>
    ensures input { c.new.bytes ≡ c.old.bytes }
    ensures value { ReadsAs plain_section result c.new ((section (component depth)).read (place c.old)) }
{
    match next_byte(c) {
        None => Err(Stop::Malformed),
        Some(4) => {
            let nested = read_nested(selects, alloc, c, depth)?;
            Ok(Section::Nested(nested.0, nested.1))
        }
        Some(id) => {
            if id < 5 {
                low_section(selects, alloc, c, id)
            } else {
                high_section(alloc, c, id)
            }
        }
    }
}

/// The size of a component, and it. One that stands too deep is reached where its size fits.
#[cycle(reader)]
fn read_nested(
    selects: &SelectLists,
    alloc: Global,
    c: &mut Cursor<'_>,
    depth: u32,
) -> Result<(Span, Component), Stop>
    ensures input { c.new.bytes ≡ c.old.bytes }
    ensures value { ReadsAs plain_placed result c.new ((sized (placed (component depth))).read (place c.old)) }
{
    let size = U32.read(alloc, c)? as usize;
    if c.bytes.len() - c.at < size {
        return Err(Stop::Malformed);
    }
    let end = c.at + size;
    let mut inside = Cursor {
        bytes: &c.bytes[..end],
        at: c.at,
    };
    let nested = read_placed(selects, alloc, &mut inside, depth)?;
    if inside.at != end {
        return Err(Stop::Malformed);
    }
    c.at = end;
    Ok(nested)
}

/// A component to the end of the bytes, with the part of the input where it stands.
#[cycle(reader)]
fn read_placed(
    selects: &SelectLists,
    alloc: Global,
    c: &mut Cursor<'_>,
    depth: u32,
) -> Result<(Span, Component), Stop>
    ensures input { c.new.bytes ≡ c.old.bytes }
    ensures value { ReadsAs plain_placed result c.new ((placed (component depth)).read (place c.old)) }
{
    if depth == 0 {
        return Err(Stop::TooNested);
    }
    let from = c.at as u64;
    expect_bytes(c, PREAMBLE.as_slice())?;
    let component = read_all(selects, alloc, c, depth - 1)?;
    let to = c.at as u64;
    Ok((Span { from, to }, component))
}

/// Sections to the end of the bytes.
#[cycle(reader)]
fn read_all(
    selects: &SelectLists,
    alloc: Global,
    c: &mut Cursor<'_>,
    depth: u32,
) -> Result<Component, Stop>
    ensures input { c.new.bytes ≡ c.old.bytes }
    ensures value { ReadsAs plain result c.new (ended (place c.old) (run (sections (component depth)) (length (rest c.old)) End 0 c.old.at (rest c.old)).outcome) }
{
    let mut good = 0;
    read_sections(selects, alloc, c, depth, &mut good)
}
