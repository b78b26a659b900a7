//! The state module, put together: types, imports, memory, global, static data and functions.

ghost use Rattle.std.specs.Prelude.{◌≡◌, ◌≤◌, length, IfOk};
ghost use Rattle.core_validate.specs.Validity.{IsValidModule};
ghost use Rattle.adapter_code.specs.Layout.{Fits};
ghost use Rattle.adapter_state.specs.State.{state_parts, state_types, state_globals, state_segments, constant_code, state_of};

use crate::functions::functions;
use crate::imports::put_drop_imports;
use crate::parts::{Posts, Presence};
use adapter_code::Layout;
use adapter_transfer::{Parts, assemble};
use std::alloc::Global;
use virt_base::{Bytes, CoreType, Items, NoMemory, Text};
use wasm_ast::{
    ConstExpr, CoreFunc, Data, Export, ExportItem, Few, Global as GlobalItem, GlobalType, Instr,
    Limits, Module, Op,
};

/// The module of the adapter's memory, of which the kinds of its world are given by their number: realloc, the destructors of
/// these kinds, and post-returns.
///
/// The memory holds the parts of the layout, with the static data in its place, and never grows. Global 0 is the end of the
/// used part of the transfer area, at first its start. Imported is what drops a handle of each kind that the host has.
pub fn state_module(
    alloc: Global,
    kinds: &[Presence],
    layout: &Layout,
    image: Bytes,
    posts: Posts,
) -> Result<Module, NoMemory>
    requires kinds { length kinds.now ≤ 14 }
    requires fits { Fits layout.now }
    ensures tree { IfOk result (λ m. m ≡ state_of kinds.now layout.now image posts) }
    ensures valid { IfOk result (λ m. IsValidModule m) }
{
    let parts = parts_of(alloc, kinds, layout, image)?;
    let list = functions(alloc, kinds, layout, posts)?;
    assemble(alloc, parts, list)
}

// The end of the used part of the transfer area.
fn globals(alloc: Global, layout: &Layout) -> Result<Items<GlobalItem>, NoMemory>
    requires { Fits layout.now }
    ensures { IfOk result (λ list. list ≡ state_globals layout.now) }
{
    let end = GlobalItem {
        ty: GlobalType {
            value: CoreType::I32,
            variable: true,
        },
        init: constant(alloc, layout.transfer_at())?,
    };
    Ok(Items::new(vec![in alloc; end]?))
}

// The static data in its place.
fn segments(alloc: Global, layout: &Layout, image: Bytes) -> Result<Items<Data>, NoMemory>
    requires { Fits layout.now }
    ensures { IfOk result (λ list. list ≡ state_segments layout.now image) }
{
    let data = Data::Active {
        offset: constant(alloc, layout.image_at())?,
        bytes: Few::new(alloc, image)?,
    };
    Ok(Items::new(vec![in alloc; data]?))
}

fn parts_of(
    alloc: Global,
    kinds: &[Presence],
    layout: &Layout,
    image: Bytes,
) -> Result<Parts, NoMemory>
    requires kinds { length kinds.now ≤ 14 }
    requires fits { Fits layout.now }
    ensures { IfOk result (λ parts. parts ≡ state_parts kinds.now layout.now image) }
{
    let mut imports = Items::empty(alloc);
    put_drop_imports(alloc, &mut imports, kinds)?;
    let imported = imports.len() as u32;
    let pages = layout.pages();
    let memory = Limits {
        min: pages,
        max: Some(pages),
    };
    let exported = Export {
        name: Text::from_str(alloc, "memory")?,
        item: ExportItem::Memory(0),
    };
    Ok(Parts {
        types: types(alloc)?,
        imports,
        imported,
        memories: Items::new(vec![in alloc; memory]?),
        globals: globals(alloc, layout)?,
        exports: Items::new(vec![in alloc; exported]?),
        segments: segments(alloc, layout, image)?,
    })
}

// The types of the functions that are imported and defined: a place or a result of 32 bits; realloc; no result; a result of
// 64 bits.
fn types(alloc: Global) -> Result<Items<CoreFunc>, NoMemory>
    ensures { IfOk result (λ list. list ≡ state_types) }
{
    let narrow = CoreType::I32;
    let broad = CoreType::I64;
    let none = Items::empty(alloc);
    let one = CoreFunc {
        params: Items::new(vec![in alloc; narrow]?),
        results: Items::empty(alloc),
    };
    let request = CoreFunc {
        params: Items::new(vec![in alloc; narrow, narrow, narrow, narrow]?),
        results: Items::new(vec![in alloc; narrow]?),
    };
    let bare = CoreFunc {
        params: none,
        results: Items::empty(alloc),
    };
    let long = CoreFunc {
        params: Items::new(vec![in alloc; broad]?),
        results: Items::empty(alloc),
    };
    Ok(Items::new(vec![in alloc; one, request, bare, long]?))
}

// A constant expression of 32 bits.
fn constant(alloc: Global, value: u32) -> Result<ConstExpr, NoMemory>
    ensures { IfOk result (λ code. code ≡ constant_code value) }
{
    let number = Instr::Plain(Op::I32Const(value.cast_signed()));
    let code = Items::new(vec![in alloc; number, Instr::End]?);
    let expr = ConstExpr::new(alloc, code)?;
    Ok(expr)
}
