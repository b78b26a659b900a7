//! The type of a module.

ghost use Rattle.std.specs.Prelude.{◌≡◌, IfOk, OnOk, map, slice_get, length};
ghost use Rattle.std.specs.Option.{option_map};
ghost use Rattle.core_body.specs.Context.{function_type};
ghost use Rattle.core_body.specs.Views.{context_at};
ghost use Rattle.core_validate.specs.Typed.{nothing, found, func_item, table_item, global_item, import_type, export_type, core_import, core_export};

use crate::item::{CoreExport, CoreImport, CoreItem};
use crate::shared_types::SharedTypes;
use core_body::{Spaces, value_of};
use std::alloc::Global as Heap;
use virt_base::{Items, NoMemory};
use wasm_ast::{
    CoreFunc, Export, ExportItem, GlobalType, Import, ImportItem, Limits, Shared, TableType,
};

fn nothing(alloc: Heap) -> Result<CoreItem, NoMemory>
    ensures { IfOk result (λ item. item ≡ nothing) }
{
    let params = Items::empty(alloc);
    let results = Items::empty(alloc);
    let ty = Shared::new(alloc, CoreFunc { params, results })?;
    Ok(CoreItem::Func(ty))
}

fn func_item(alloc: Heap, types: &mut SharedTypes<'_>, n: u32) -> Result<CoreItem, NoMemory>
    ensures same { types.new ≡ types.old }
    ensures item { IfOk result (λ item. item ≡ func_item (slice_get types.old n)) }
{
    match types.at(alloc, n)? {
        Some(ty) => Ok(CoreItem::Func(ty)),
        None => nothing(alloc),
    }
}

fn table_item(t: TableType) -> CoreItem
    ensures { result ≡ table_item t }
{
    CoreItem::Table(value_of(t.element), t.limits)
}

fn global_item(g: GlobalType) -> CoreItem
    ensures { result ≡ global_item g }
{
    CoreItem::Global(g.value, g.variable)
}

fn import_item(
    alloc: Heap,
    spaces: &Spaces<'_>,
    types: &mut SharedTypes<'_>,
    item: ImportItem,
) -> Result<CoreItem, NoMemory>
    requires { types.old ≡ spaces.now.types.now }
    ensures same { types.new ≡ types.old }
    ensures item { IfOk result (λ ty. ty ≡ import_type (context_at spaces.now) item) }
{
    match item {
        ImportItem::Func(n) => func_item(alloc, types, n),
        ImportItem::Table(t) => Ok(table_item(t)),
        ImportItem::Memory(l) => Ok(CoreItem::Memory(l)),
        ImportItem::Global(g) => Ok(global_item(g)),
    }
}

fn func_export(
    alloc: Heap,
    spaces: &Spaces<'_>,
    types: &mut SharedTypes<'_>,
    n: u32,
) -> Result<CoreItem, NoMemory>
    requires { types.old ≡ spaces.now.types.now }
    ensures same { types.new ≡ types.old }
    ensures item { IfOk result (λ ty. ty ≡ func_item (function_type (context_at spaces.now) n)) }
{
    match spaces.functions.get(n as usize) {
        Some(ty) => func_item(alloc, types, *ty),
        None => nothing(alloc),
    }
}

fn table_export(alloc: Heap, spaces: &Spaces<'_>, n: u32) -> Result<CoreItem, NoMemory>
    ensures { IfOk result (λ item. item ≡ found (option_map table_item (slice_get spaces.now.tables.now n))) }
{
    match spaces.tables.get(n as usize) {
        Some(t) => Ok(table_item(*t)),
        None => nothing(alloc),
    }
}

fn memory_export(alloc: Heap, memories: &[Limits], n: u32) -> Result<CoreItem, NoMemory>
    ensures { IfOk result (λ item. item ≡ found (option_map (λ x. CoreItem.Memory x) (slice_get memories.now n))) }
{
    match memories.get(n as usize) {
        Some(l) => Ok(CoreItem::Memory(*l)),
        None => nothing(alloc),
    }
}

fn global_export(alloc: Heap, spaces: &Spaces<'_>, n: u32) -> Result<CoreItem, NoMemory>
    ensures { IfOk result (λ item. item ≡ found (option_map global_item (slice_get spaces.now.globals.now n))) }
{
    match spaces.globals.get(n as usize) {
        Some(g) => Ok(global_item(*g)),
        None => nothing(alloc),
    }
}

fn export_item(
    alloc: Heap,
    spaces: &Spaces<'_>,
    types: &mut SharedTypes<'_>,
    memories: &[Limits],
    item: ExportItem,
) -> Result<CoreItem, NoMemory>
    requires { types.old ≡ spaces.now.types.now }
    ensures same { types.new ≡ types.old }
    ensures item { IfOk result (λ ty. ty ≡ export_type (context_at spaces.now) memories.now item) }
{
    match item {
        ExportItem::Func(n) => func_export(alloc, spaces, types, n),
        ExportItem::Table(n) => table_export(alloc, spaces, n),
        ExportItem::Memory(n) => memory_export(alloc, memories, n),
        ExportItem::Global(n) => global_export(alloc, spaces, n),
    }
}

fn import_of(
    alloc: Heap,
    spaces: &Spaces<'_>,
    types: &mut SharedTypes<'_>,
    import: &Import,
) -> Result<CoreImport, NoMemory>
    requires { types.old ≡ spaces.now.types.now }
    ensures same { types.new ≡ types.old }
    ensures value { IfOk result (λ i. i ≡ core_import (context_at spaces.now) import.now) }
{
    let item = import_item(alloc, spaces, types, import.item)?;
    let module = import.module.copy(alloc)?;
    let name = import.name.copy(alloc)?;
    Ok(CoreImport { module, name, item })
}

fn export_of(
    alloc: Heap,
    spaces: &Spaces<'_>,
    types: &mut SharedTypes<'_>,
    memories: &[Limits],
    export: &Export,
) -> Result<CoreExport, NoMemory>
    requires { types.old ≡ spaces.now.types.now }
    ensures same { types.new ≡ types.old }
    ensures value { IfOk result (λ e. e ≡ core_export (context_at spaces.now) memories.now export.now) }
{
    let item = export_item(alloc, spaces, types, memories, export.item)?;
    let name = export.name.copy(alloc)?;
    Ok(CoreExport { name, item })
}

/// The types of the imports.
pub fn import_types(
    alloc: Heap,
    spaces: &Spaces<'_>,
    imports: &[Import],
) -> Result<Vec<CoreImport>, NoMemory>
    ensures { IfOk result (λ list. list.items ≡ map (core_import (context_at spaces.now)) imports.now) }
{
    let mut types = SharedTypes::new(alloc, spaces.types.as_slice());
    let mut list = Vec::new(alloc);
    for import in imports {
        list.push(import_of(alloc, spaces, &mut types, import)?)?;
    }
    Ok(list)
}

/// The types of the exports.
pub fn export_types(
    alloc: Heap,
    spaces: &Spaces<'_>,
    memories: &[Limits],
    exports: &[Export],
) -> Result<Vec<CoreExport>, NoMemory>
    ensures { IfOk result (λ list. list.items ≡ map (core_export (context_at spaces.now) memories.now) exports.now) }
{
    let mut types = SharedTypes::new(alloc, spaces.types.as_slice());
    let mut list = Vec::new(alloc);
    for export in exports {
        list.push(export_of(alloc, spaces, &mut types, memories, export)?)?;
    }
    Ok(list)
}
