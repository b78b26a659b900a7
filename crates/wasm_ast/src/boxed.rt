//! A value on the heap, which contracts see as a record that holds the value. In `apart` they see the value itself.

ghost use Rattle.std.specs.Prelude.{◌≡◌, IfOk};

use std::alloc::Global;
use std::marker::Model;
use std::ops::Deref;
use virt_base::NoMemory;

/// A value on the heap, which contracts see as `value`.
#[derive(Debug, Drop)]
pub struct Boxed<T> {
    inner: Box<T>,
}

impl<T> Model for Boxed<T> {
    ghost use Rattle.wasm_ast.specs.Boxed.{Held};

    ghost Value = { Held T };

    ghost view = { λ b. record { value = b.inner.value } };
}

impl<T: Drop> Boxed<T> {
    pub fn new(alloc: Global, value: T) -> Result<Self, NoMemory>
        ensures { IfOk result (λ b. b.value ≡ value) }
    {
        let inner = Box::new(alloc, value)?;
        Ok(Boxed { inner })
    }
}

impl<T> Deref for Boxed<T> {
    type Target = T;

    ghost deref_gives = { λ b x. x ≡ b.value };

    fn deref(&self) -> &T
        ensures { result.now ≡ self.now.value }
    {
        &self.inner
    }
}
