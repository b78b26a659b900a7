//! What a writer is, and the writers of numbers, names, bytes, counted lists and sized parts. Their formats are those of the readers.

ghost use Rattle.std.specs.Prelude.{◌≡◌, ◌++◌, ◌<◌, ℕ, List, OnOk};
ghost use Rattle.std.specs.List.{AllByRecursion};
ghost use Rattle.wasm_format.specs.Format.{Format, u32_format, vec, vec_of, write_items, sized, anything, name};
ghost use Rattle.wasm_format.specs.Numbers.{s32_format, s33_index, s64_format};

use crate::names::{ByteLists, Names};
use crate::numbers::{S32, S33Index, S64, U32};
use crate::put::put_bytes;
use crate::reader::{CountedVecs, Sized, Vecs};
use std::alloc::Global;
use virt_base::{Bytes, Items, NoMemory, Text, write_s64, write_u32};

/// Writes values of a type.
pub trait Writer {
    type Value;

    /// How they are spelled.
    ghost format: { Self → Format Self.Value };

    /// Adds a spelling at the end. After `NoMemory` a part of it may stand there.
    fn write(&self, alloc: Global, out: &mut Vec<u8>, value: &Self::Value) -> Result<(), NoMemory>
        requires { (format self.now).Fits value.now }
        ensures { OnOk result (out.new.items ≡ out.old.items ++ (format self.now).write value.now) };
}

impl Writer for U32 {
    type Value = u32;

    ghost format = { λ _. u32_format };

    #[tactic(auto, unfolding(crate::specs::Format::u32_format))]
    fn write(&self, alloc: Global, out: &mut Vec<u8>, value: &u32) -> Result<(), NoMemory> {
        write_u32(alloc, out, *value)
    }
}

impl Writer for S32 {
    type Value = i32;

    ghost format = { λ _. s32_format };

    #[tactic(auto, unfolding(crate::specs::Numbers::s32_format))]
    fn write(&self, alloc: Global, out: &mut Vec<u8>, value: &i32) -> Result<(), NoMemory> {
        write_s64(alloc, out, i64::from(*value))
    }
}

impl Writer for S64 {
    type Value = i64;

    ghost format = { λ _. s64_format };

    #[tactic(auto, unfolding(crate::specs::Numbers::s64_format))]
    fn write(&self, alloc: Global, out: &mut Vec<u8>, value: &i64) -> Result<(), NoMemory> {
        write_s64(alloc, out, *value)
    }
}

impl Writer for S33Index {
    type Value = u32;

    ghost format = { λ _. s33_index };

    #[tactic(auto, unfolding(crate::specs::Numbers::s33_format, crate::specs::Numbers::s33_index))]
    fn write(&self, alloc: Global, out: &mut Vec<u8>, value: &u32) -> Result<(), NoMemory> {
        write_s64(alloc, out, i64::from(*value))
    }
}

fn write_all<W: Writer>(
    writer: &W,
    alloc: Global,
    out: &mut Vec<u8>,
    items: &[W::Value],
) -> Result<(), NoMemory>
    requires { AllByRecursion (W.format writer.now).Fits items.now }
    ensures { OnOk result (out.new.items ≡ out.old.items ++ write_items (W.format writer.now) items.now) }
{
    for item in items {
        writer.write(alloc, out, item)?;
    }
    Ok(())
}

impl<W: Writer> Writer for Vecs<W> {
    type Value = Items<W::Value>;

    ghost format = { λ s. vec (W.format s.0) };

    #[tactic(auto, unfolding(crate::specs::Format::u32_format))]
    fn write(
        &self,
        alloc: Global,
        out: &mut Vec<u8>,
        value: &Items<W::Value>,
    ) -> Result<(), NoMemory> {
        let items = value.as_slice();
        write_u32(alloc, out, items.len() as u32)?;
        write_all(&self.0, alloc, out, items)
    }
}

impl<W: Writer> Writer for CountedVecs<W> {
    type Value = Items<W::Value>;

    ghost format = { λ s. vec_of s.count (W.format s.item) };

    #[tactic(auto, unfolding(crate::specs::Format::u32_format))]
    fn write(
        &self,
        alloc: Global,
        out: &mut Vec<u8>,
        value: &Items<W::Value>,
    ) -> Result<(), NoMemory> {
        let items = value.as_slice();
        write_u32(alloc, out, items.len() as u32)?;
        write_all(&self.item, alloc, out, items)
    }
}

impl<W: Writer> Writer for Sized<W> {
    type Value = W::Value;

    ghost format = { λ s. sized (W.format s.0) };

    #[tactic(auto, unfolding(crate::specs::Format::u32_format))]
    fn write(&self, alloc: Global, out: &mut Vec<u8>, value: &W::Value) -> Result<(), NoMemory> {
        let mut content = Vec::new(alloc);
        self.0.write(alloc, &mut content, value)?;
        write_u32(alloc, out, content.len() as u32)?;
        put_bytes(alloc, out, content.as_slice())
    }
}

impl Writer for ByteLists {
    type Value = Bytes;

    ghost format = { λ _. sized anything };

    #[tactic(auto, unfolding(crate::specs::Format::u32_format))]
    fn write(&self, alloc: Global, out: &mut Vec<u8>, value: &Bytes) -> Result<(), NoMemory> {
        let bytes = value.as_slice();
        write_u32(alloc, out, bytes.len() as u32)?;
        put_bytes(alloc, out, bytes)
    }
}

impl Writer for Names {
    type Value = Text;

    ghost format = { λ _. name };

    #[tactic(auto, unfolding(crate::specs::Format::u32_format, crate::specs::Format::name))]
    fn write(&self, alloc: Global, out: &mut Vec<u8>, value: &Text) -> Result<(), NoMemory> {
        let bytes = value.bytes();
        write_u32(alloc, out, bytes.len() as u32)?;
        put_bytes(alloc, out, bytes)
    }
}
