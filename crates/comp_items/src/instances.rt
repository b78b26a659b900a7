//! Readers of instances (Component Model, Binary.md, "Instance Definitions").

ghost use Rattle.std.specs.Prelude.{◌≡◌};
ghost use Rattle.virt_base.specs.Place.{place};
ghost use Rattle.wasm_format.specs.Format.{Format};
ghost use Rattle.wasm_format.specs.Reads.{Reads};
ghost use Rattle.wasm_ast.specs.ComponentItems.{argument, inline_export, instance};

use crate::externs::{ExternNames, SortReader, lacks};
use std::alloc::Global;
use virt_base::{Cursor, next_byte};
use wasm_ast::{Instance, NamedItem};
use wasm_format::{Names, Reader, Stop, U32, Vecs};

/// Items that meet a component's imports.
#[derive(Clone, Copy)]
struct ArgumentReader;

impl Reader for ArgumentReader {
    type Value = NamedItem;

    ghost format = { λ _. argument };

    #[tactic(auto, unfolding(wasm_ast::specs::ComponentItems::argument))]
    fn read(&self, alloc: Global, c: &mut Cursor<'_>) -> Result<NamedItem, Stop> {
        let name = Names.read(alloc, c)?;
        let sort = SortReader.read(alloc, c)?;
        let index = U32.read(alloc, c)?;
        Ok(NamedItem { name, sort, index })
    }
}

/// Items of instances that are written out.
#[derive(Clone, Copy)]
struct InlineExportReader;

impl Reader for InlineExportReader {
    type Value = NamedItem;

    ghost format = { λ _. inline_export };

    #[tactic(auto, unfolding(wasm_ast::specs::ComponentItems::inline_export))]
    fn read(&self, alloc: Global, c: &mut Cursor<'_>) -> Result<NamedItem, Stop> {
        let name = ExternNames.read(alloc, c)?;
        let sort = SortReader.read(alloc, c)?;
        let index = U32.read(alloc, c)?;
        Ok(NamedItem { name, sort, index })
    }
}

/// Instances.
#[derive(Clone, Copy)]
pub struct InstanceReader;

impl Reader for InstanceReader {
    type Value = Instance;

    ghost format = { λ _. instance };

    #[tactic(auto, unfolding(wasm_ast::specs::ComponentItems::instance))]
    fn read(&self, alloc: Global, c: &mut Cursor<'_>) -> Result<Instance, Stop> {
        match next_byte(c) {
            None => Err(Stop::Malformed),
            Some(0) => {
                let component = U32.read(alloc, c)?;
                let args = Vecs(ArgumentReader).read(alloc, c)?;
                Ok(Instance::Instantiate { component, args })
            }
            Some(1) => {
                let exports = Vecs(InlineExportReader).read(alloc, c)?;
                Ok(Instance::Inline { exports })
            }
            Some(byte) => Err(lacks(c, byte)),
        }
    }
}
