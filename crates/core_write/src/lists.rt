//! Lists that are not kept as they are read.

ghost use Rattle.std.specs.Prelude.{◌≡◌, ◌++◌, OnOk};
ghost use Rattle.std.specs.List.{AllByRecursion};
ghost use Rattle.wasm_format.specs.Format.{Format, vec, write_items, sized, anything};

use std::alloc::Global;
use virt_base::{NoMemory, write_u32};
use wasm_ast::{Few, Lean};
use wasm_format::{Writer, put_bytes};

fn put_all<W: Writer>(
    writer: &W,
    alloc: Global,
    out: &mut Vec<u8>,
    items: &[W::Value],
) -> Result<(), NoMemory>
    requires { AllByRecursion (W.format writer.now).Fits items.now }
    ensures { OnOk result (out.new.items ≡ out.old.items ++ write_items (W.format writer.now) items.now) }
{
    for item in items {
        writer.write(alloc, out, item)?;
    }
    Ok(())
}

/// Writes a count, and that many.
#[tactic(auto, unfolding(wasm_format::specs::Format::u32_format))]
pub fn put_list<W: Writer>(
    writer: &W,
    alloc: Global,
    out: &mut Vec<u8>,
    items: &[W::Value],
) -> Result<(), NoMemory>
    requires { (vec (W.format writer.now)).Fits items.now }
    ensures { OnOk result (out.new.items ≡ out.old.items ++ (vec (W.format writer.now)).write items.now) }
{
    write_u32(alloc, out, items.len() as u32)?;
    put_all(writer, alloc, out, items)
}

/// A count, and that many.
#[derive(Drop)]
pub struct Leans<W>(pub W);

impl<W: Writer> Writer for Leans<W> {
    type Value = Lean<W::Value>;

    ghost format = { λ s. vec (W.format s.0) };

    fn write(
        &self,
        alloc: Global,
        out: &mut Vec<u8>,
        value: &Lean<W::Value>,
    ) -> Result<(), NoMemory> {
        put_list(&self.0, alloc, out, value.as_slice())
    }
}

/// A count, and that many.
#[derive(Drop)]
pub struct Fews<W>(pub W);

impl<W: Writer> Writer for Fews<W> {
    type Value = Few<W::Value>;

    ghost format = { λ s. vec (W.format s.0) };

    fn write(
        &self,
        alloc: Global,
        out: &mut Vec<u8>,
        value: &Few<W::Value>,
    ) -> Result<(), NoMemory> {
        put_list(&self.0, alloc, out, value.as_slice())
    }
}

/// A size, and that many bytes.
#[derive(Clone, Copy)]
pub struct FewBytes;

impl Writer for FewBytes {
    type Value = Few<u8>;

    ghost format = { λ _. sized anything };

    #[tactic(auto, unfolding(wasm_format::specs::Format::u32_format))]
    fn write(&self, alloc: Global, out: &mut Vec<u8>, value: &Few<u8>) -> Result<(), NoMemory> {
        let bytes = value.as_slice();
        write_u32(alloc, out, bytes.len() as u32)?;
        put_bytes(alloc, out, bytes)
    }
}
