//! A component is written: the preamble, and then its sections (Component Model, Binary.md, "Component Definitions").

ghost use Rattle.std.specs.Prelude.{◌≡◌, IfOk};
ghost use Rattle.comp_grammar.specs.Trees.{Tree, plain};
ghost use Rattle.comp_grammar.specs.Components.{SpellsComponent};
ghost use Rattle.comp_write.specs.Copying.{MayWrite, SpellsBare, bare, component_bytes};

use crate::sections::put_sections;
use std::alloc::Global;
use virt_base::NoMemory;
use wasm_ast::Component;
use wasm_format::put_bytes;

/// The magic number, the version and the layer (Component Model, Binary.md, "Component Definitions").
const PREAMBLE: [u8; 8] = [0x00, 0x61, 0x73, 0x6D, 0x0D, 0x00, 0x01, 0x00];

/// Writes a component (Component Model, Binary.md). Its sections keep their order. Items are written in their shortest spelling; a
/// nested module, a nested component and a custom section are the bytes of their span in `source`, which are not read.
#[tactic(auto, using(crate::proofs::SectionForms::is_written, crate::proofs::SectionForms::is_spelled))]
pub fn write_component(
    alloc: Global,
    component: &Component,
    source: &[u8],
) -> Result<Vec<u8>, NoMemory>
    requires { MayWrite source.now (plain component.now) }
    ensures spelled { IfOk result (λ out. SpellsBare 0 (plain component.now) out.items) }
    ensures read_back { IfOk result (λ out. (u : Tree) → SpellsComponent u out.items → bare u ≡ bare (plain component.now)) }
    ensures written { IfOk result (λ out. out.items ≡ component_bytes source.now (plain component.now)) }
{
    let mut out = Vec::new(alloc);
    put_bytes(alloc, &mut out, PREAMBLE.as_slice())?;
    put_sections(alloc, &mut out, source, component.sections.as_slice())?;
    Ok(out)
}
