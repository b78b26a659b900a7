//! A reader of values that are kept on the heap. Their format is that of the value itself.

use std::alloc::Global;
use virt_base::Cursor;
use wasm_ast::Apart;
use wasm_format::{Reader, Stop};

/// Values that lie on the heap, so that what holds them is small.
#[derive(Drop)]
pub struct Aparts<R>(pub R);

impl<R: Reader> Reader for Aparts<R> {
    type Value = Apart<R::Value>;

    ghost format = { λ s. R.format s.0 };

    fn read(&self, alloc: Global, c: &mut Cursor<'_>) -> Result<Apart<R::Value>, Stop> {
        let value = self.0.read(alloc, c)?;
        Ok(Apart::new(alloc, value)?)
    }
}
