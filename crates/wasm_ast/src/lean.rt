//! A list that is mostly empty. The empty one takes no memory of its own.

ghost use Rattle.std.specs.Prelude.{◌≡◌, ◌==◌, [], length, IfOk};
ghost use Rattle.wasm_ast.specs.Leans.{lean_kept};

use crate::apart::Apart;
use std::alloc::Global;
use std::marker::Model;
use std::ops::DerefSlice;
use virt_base::{Items, NoMemory};

/// A list without items takes no memory of its own.
#[derive(Debug, Drop)]
enum Kept<T> {
    Empty,
    Apart(Apart<Items<T>>),
}

/// A list that is mostly empty, which contracts see as one.
#[derive(Debug, Drop)]
pub struct Lean<T> {
    kept: Kept<T>,
}

impl<T> Model for Lean<T> {
    ghost use Rattle.std.specs.Prelude.{List};
    ghost use Rattle.wasm_ast.specs.Leans.{lean_kept};

    ghost Value = { List T };

    ghost view = { λ l. lean_kept l.kept };
}

impl<T> DerefSlice for Lean<T> {
    type Elem = T;

    ghost deref_gives = { λ list slice. slice ≡ list };

    fn deref(&self) -> &[T] {
        self.as_slice()
    }
}

impl<T: Drop> Lean<T> {
    /// The list of these items.
    pub fn new(alloc: Global, items: Items<T>) -> Result<Self, NoMemory>
        ensures { IfOk result (λ l. l ≡ items) }
    {
        let kept = match items.as_slice() {
            [] => Kept::Empty,
            _ => Kept::Apart(Apart::new(alloc, items)?),
        };
        Ok(Lean { kept })
    }
}

impl<T> Lean<T> {
    /// The list without items.
    pub fn empty() -> Self
        ensures { result ≡ [] }
    {
        Lean { kept: Kept::Empty }
    }

    pub fn as_slice(&self) -> &[T]
        ensures { result.now ≡ self.now }
    {
        match &self.kept {
            Kept::Empty => &[],
            Kept::Apart(items) => items.as_slice(),
        }
    }

    pub fn len(&self) -> usize
        ensures { result ≡ length self.now }
    {
        self.as_slice().len()
    }

    pub fn is_empty(&self) -> bool
        ensures { result ≡ (length self.now == 0) }
    {
        self.as_slice().is_empty()
    }
}
