//! Readers of canonical functions and their options (Component Model, Binary.md, "Canonical Definitions").

ghost use Rattle.std.specs.Prelude.{◌≡◌};
ghost use Rattle.virt_base.specs.Place.{place};
ghost use Rattle.wasm_format.specs.Format.{Format};
ghost use Rattle.wasm_format.specs.Reads.{Reads};
ghost use Rattle.comp_grammar.specs.Items.{canon_option, lift, lower, canon};

use crate::externs::lacks;
use std::alloc::Global;
use virt_base::{Cursor, next_byte};
use wasm_ast::{Canon, CanonOption};
use wasm_format::{Reader, Stop, U32, Vecs, expect_tag};

/// Options of canonical functions.
#[derive(Clone, Copy)]
struct CanonOptionReader;

impl Reader for CanonOptionReader {
    type Value = CanonOption;

    ghost format = { λ _. canon_option };

    #[tactic(auto, unfolding(comp_grammar::specs::Items::canon_option))]
    fn read(&self, alloc: Global, c: &mut Cursor<'_>) -> Result<CanonOption, Stop> {
        match next_byte(c) {
            None => Err(Stop::Malformed),
            Some(0) => Ok(CanonOption::Utf8),
            Some(3) => Ok(CanonOption::Memory(U32.read(alloc, c)?)),
            Some(4) => Ok(CanonOption::Realloc(U32.read(alloc, c)?)),
            Some(5) => Ok(CanonOption::PostReturn(U32.read(alloc, c)?)),
            Some(byte) => Err(lacks(c, byte)),
        }
    }
}

fn lift(alloc: Global, c: &mut Cursor<'_>) -> Result<Canon, Stop>
    ensures input { c.new.bytes ≡ c.old.bytes }
    ensures value { Reads result c.new (lift.read (place c.old)) }
{
    let func = U32.read(alloc, c)?;
    let options = Vecs(CanonOptionReader).read(alloc, c)?;
    let ty = U32.read(alloc, c)?;
    Ok(Canon::Lift { func, options, ty })
}

fn lower(alloc: Global, c: &mut Cursor<'_>) -> Result<Canon, Stop>
    ensures input { c.new.bytes ≡ c.old.bytes }
    ensures value { Reads result c.new (lower.read (place c.old)) }
{
    let func = U32.read(alloc, c)?;
    let options = Vecs(CanonOptionReader).read(alloc, c)?;
    Ok(Canon::Lower { func, options })
}

/// Canonical functions.
#[derive(Clone, Copy)]
pub struct CanonReader;

impl Reader for CanonReader {
    type Value = Canon;

    ghost format = { λ _. canon };

    #[tactic(auto, unfolding(comp_grammar::specs::Items::canon))]
    fn read(&self, alloc: Global, c: &mut Cursor<'_>) -> Result<Canon, Stop> {
        match next_byte(c) {
            None => Err(Stop::Malformed),
            Some(0) => {
                expect_tag(c, 0)?;
                lift(alloc, c)
            }
            Some(1) => {
                expect_tag(c, 0)?;
                lower(alloc, c)
            }
            Some(2) => Ok(Canon::ResourceNew(U32.read(alloc, c)?)),
            Some(3) => Ok(Canon::ResourceDrop(U32.read(alloc, c)?)),
            Some(4) => Ok(Canon::ResourceRep(U32.read(alloc, c)?)),
            Some(byte) => Err(lacks(c, byte)),
        }
    }
}
