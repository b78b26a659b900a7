//! A value with several owners, which contracts see as the value itself.

ghost use Rattle.std.specs.Prelude.{◌≡◌, IfOk};

use std::alloc::Global;
use std::marker::Model;
use std::rc::Rc;
use virt_base::NoMemory;

/// A value with several owners, which contracts see as the value.
#[derive(Debug, Drop)]
pub struct Shared<T> {
    kept: Rc<T>,
}

impl<T> Model for Shared<T> {
    ghost Value = { T };

    ghost view = { λ s. s.kept.value };
}

impl<T> Shared<T> {
    /// The value.
    #[inline]
    pub fn get(&self) -> &T
        ensures { result.now ≡ self.now }
    {
        &self.kept
    }
}

impl<T: Drop> Shared<T> {
    /// A value with one owner.
    pub fn new(alloc: Global, value: T) -> Result<Shared<T>, NoMemory>
        ensures { IfOk result (λ shared. shared ≡ value) }
    {
        match Rc::new(alloc, value) {
            Ok(kept) => Ok(Shared { kept }),
            Err(_) => Err(NoMemory),
        }
    }

    /// One owner more of the same value.
    #[inline]
    pub fn share(&self) -> Result<Shared<T>, NoMemory>
        ensures { IfOk result (λ shared. shared ≡ self.now) }
    {
        let kept = self.kept.clone()?;
        Ok(Shared { kept })
    }
}
