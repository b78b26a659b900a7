//! A value on the heap, so that what holds it is small. Contracts see the value itself.

ghost use Rattle.std.specs.Prelude.{◌≡◌, IfOk};

use std::alloc::Global;
use std::marker::Model;
use std::ops::Deref;
use virt_base::NoMemory;

/// A value that lies on the heap, so that what holds it is small. Contracts see the value.
#[derive(Debug, Drop)]
pub struct Apart<T> {
    inner: Box<T>,
}

impl<T> Model for Apart<T> {
    ghost Value = { T };

    ghost view = { λ a. a.inner.value };
}

impl<T: Drop> Apart<T> {
    pub fn new(alloc: Global, value: T) -> Result<Self, NoMemory>
        ensures { IfOk result (λ a. a ≡ value) }
    {
        let inner = Box::new(alloc, value)?;
        Ok(Apart { inner })
    }
}

impl<T> Deref for Apart<T> {
    type Target = T;

    ghost deref_gives = { λ a x. x ≡ a };

    fn deref(&self) -> &T
        ensures { result.now ≡ self.now }
    {
        &self.inner
    }
}
