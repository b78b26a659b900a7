//! A module is validated: its items are asked one after another, up to the first at fault (core WebAssembly, "Validation", "Modules").

ghost use Rattle.std.specs.Prelude.{◌≡◌, length, IfOk};
ghost use Rattle.core_body.specs.Views.{context_at};
ghost use Rattle.core_validate.specs.Answer.{Answers};
ghost use Rattle.core_validate.specs.Faults.{first_fault};
ghost use Rattle.core_validate.specs.Items.{items, first_items, later_items};
ghost use Rattle.core_validate.specs.Spaces.{imported_memories};

use crate::contents::{bodies_fault, data_faults, globals_fault, segments_fault};
use crate::item::{CoreFault, ModuleType};
use crate::items::{
    exports_fault, functions_fault, imports_fault, memories_fault, start_fault, tables_fault,
};
use crate::spaces::{find, lend, type_lists};
use crate::types::{export_types, import_types};
use core_body::Spaces;
use std::alloc::Global;
use virt_base::{Items, NoMemory};
use wasm_ast::Module;

/// The first fault among imports, functions, tables, memories and globals.
fn first_items_fault(
    alloc: Global,
    spaces: &Spaces<'_>,
    imported: usize,
    core: &Module,
) -> Result<Option<u32>, NoMemory>
    requires { imported ≡ length (imported_memories core.now.imports) }
    ensures { IfOk result (λ rule. rule ≡ first_fault (context_at spaces.now) (first_items core.now)) }
{
    let rule = imports_fault(spaces, core.imports.as_slice());
    if rule.is_some() {
        return Ok(rule);
    }
    let rule = functions_fault(spaces, core.functions.as_slice());
    if rule.is_some() {
        return Ok(rule);
    }
    let rule = tables_fault(spaces, core.tables.as_slice());
    if rule.is_some() {
        return Ok(rule);
    }
    let rule = memories_fault(spaces, imported, core.memories.as_slice());
    if rule.is_some() {
        return Ok(rule);
    }
    globals_fault(alloc, spaces, core.globals.as_slice())
}

/// The first fault among exports, the start function, segments and bodies.
fn later_items_fault(
    alloc: Global,
    spaces: &Spaces<'_>,
    core: &Module,
) -> Result<Option<u32>, NoMemory>
    requires { spaces.now.types.now ≡ core.now.types }
    ensures { IfOk result (λ rule. rule ≡ first_fault (context_at spaces.now) (later_items core.now)) }
{
    let rule = exports_fault(alloc, spaces, core.exports.as_slice())?;
    if rule.is_some() {
        return Ok(rule);
    }
    let rule = start_fault(spaces, core.start);
    if rule.is_some() {
        return Ok(rule);
    }
    let rule = segments_fault(alloc, spaces, core.elements.as_slice())?;
    if rule.is_some() {
        return Ok(rule);
    }
    let rule = bodies_fault(alloc, spaces, core, core.code.as_slice())?;
    if rule.is_some() {
        return Ok(rule);
    }
    data_faults(alloc, spaces, core.segments.as_slice())
}

fn module_fault(
    alloc: Global,
    spaces: &Spaces<'_>,
    imported: usize,
    core: &Module,
) -> Result<Option<u32>, NoMemory>
    requires imported { imported ≡ length (imported_memories core.now.imports) }
    requires types { spaces.now.types.now ≡ core.now.types }
    ensures { IfOk result (λ rule. rule ≡ first_fault (context_at spaces.now) (items core.now)) }
{
    let rule = first_items_fault(alloc, spaces, imported, core)?;
    if rule.is_some() {
        return Ok(rule);
    }
    later_items_fault(alloc, spaces, core)
}

/// The type of a module, where each of the sixteen rules holds of each of its items; else the least rule that fails of
/// the first item of which one fails. Items are asked in this order: imports, the function section, tables, memories,
/// globals, exports, the start function, element segments, bodies, data segments (WebAssembly Core 2.0, section 3.4).
pub fn validate(alloc: Global, core: &Module) -> Result<ModuleType, CoreFault>
    ensures { Answers core.now result }
{
    let found = find(alloc, core)?;
    let types = type_lists(alloc, core)?;
    let spaces = lend(&found, &types, core);
    match module_fault(alloc, &spaces, found.imported_memories, core)? {
        Some(rule) => Err(CoreFault::Invalid(rule)),
        None => {
            let imports = import_types(alloc, &spaces, core.imports.as_slice())?;
            let exports = export_types(
                alloc,
                &spaces,
                found.memories.as_slice(),
                core.exports.as_slice(),
            )?;
            Ok(ModuleType {
                imports: Items::new(imports),
                exports: Items::new(exports),
            })
        }
    }
}
