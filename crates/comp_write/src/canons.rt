//! Writers of canonical functions and their options (Component Model, Binary.md, "Canonical Definitions").

ghost use Rattle.wasm_format.specs.Format.{Format};
ghost use Rattle.comp_grammar.specs.Items.{canon_option, canon};

use std::alloc::Global;
use virt_base::NoMemory;
use wasm_ast::{Canon, CanonOption};
use wasm_format::{U32, Vecs, Writer, put_byte};

/// The options of canonical functions.
#[derive(Clone, Copy)]
struct CanonOptionWriter;

impl Writer for CanonOptionWriter {
    type Value = CanonOption;

    ghost format = { λ _. canon_option };

    #[tactic(auto, unfolding(comp_grammar::specs::Items::canon_option))]
    fn write(&self, alloc: Global, out: &mut Vec<u8>, value: &CanonOption) -> Result<(), NoMemory> {
        match value {
            CanonOption::Utf8 => put_byte(alloc, out, 0),
            CanonOption::Memory(memory) => {
                put_byte(alloc, out, 3)?;
                U32.write(alloc, out, memory)
            }
            CanonOption::Realloc(function) => {
                put_byte(alloc, out, 4)?;
                U32.write(alloc, out, function)
            }
            CanonOption::PostReturn(function) => {
                put_byte(alloc, out, 5)?;
                U32.write(alloc, out, function)
            }
        }
    }
}

/// Canonical functions.
#[derive(Clone, Copy)]
pub struct CanonWriter;

impl Writer for CanonWriter {
    type Value = Canon;

    ghost format = { λ _. canon };

    #[tactic(auto, unfolding(comp_grammar::specs::Items::canon))]
    fn write(&self, alloc: Global, out: &mut Vec<u8>, value: &Canon) -> Result<(), NoMemory> {
        match value {
            Canon::Lift { func, options, ty } => {
                put_byte(alloc, out, 0)?;
                put_byte(alloc, out, 0)?;
                U32.write(alloc, out, func)?;
                Vecs(CanonOptionWriter).write(alloc, out, options)?;
                U32.write(alloc, out, ty)
            }
            Canon::Lower { func, options } => {
                put_byte(alloc, out, 1)?;
                put_byte(alloc, out, 0)?;
                U32.write(alloc, out, func)?;
                Vecs(CanonOptionWriter).write(alloc, out, options)
            }
            Canon::ResourceNew(ty) => {
                put_byte(alloc, out, 2)?;
                U32.write(alloc, out, ty)
            }
            Canon::ResourceDrop(ty) => {
                put_byte(alloc, out, 3)?;
                U32.write(alloc, out, ty)
            }
            Canon::ResourceRep(ty) => {
                put_byte(alloc, out, 4)?;
                U32.write(alloc, out, ty)
            }
        }
    }
}
