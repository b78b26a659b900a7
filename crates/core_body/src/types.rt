//! The function types of a module, with numbers for their lists of operand types.

ghost use Rattle.std.specs.Prelude.{◌≡◌, ◌↔◌, ◌≤◌, ◌+◌, IfOk, IsTrue, length, slice_get, option_copied};
ghost use Rattle.core_body.specs.Numbers.{Distinguish};
ghost use Rattle.core_body.specs.Parts.{SameTypes};
ghost use Rattle.core_body.specs.Sources.{listed_in};
ghost use Rattle.std.specs.Bool.{OnTrue};

use crate::numbers::{ListNumbers, number_of, number_types};
use crate::parts::{Parts, parts_of, same_slices};
use crate::source::Source;
use std::alloc::Global;
use std::marker::Model;
use virt_base::NoMemory;
use wasm_ast::CoreFunc;

/// Function types, which contracts see as their list. Two lists of operand types are compared by number.
#[derive(Drop)]
pub struct TypeLists<'a> {
    types: &'a [CoreFunc],
    numbers: Vec<ListNumbers>,
    parts: Parts,
}

impl<'a> Model for TypeLists<'a> {
    ghost use Rattle.std.specs.Prelude.{List};
    ghost use Rattle.wasm_ast.specs.declared.module.CoreFunc.{CoreFunc};
    ghost use Rattle.core_body.specs.Numbers.{Distinguish};
    ghost use Rattle.core_body.specs.Parts.{Indexes};

    ghost Value = { List CoreFunc };

    ghost view = { λ l. l.types.now };

    ghost invariant = { λ l. Distinguish l.types.now l.numbers.items × Indexes l.types.now l.parts };
}

impl<'a> TypeLists<'a> {
    /// These types, with a number for each list, in a time that grows with the lists and the logarithm of their count.
    pub fn new(alloc: Global, types: &'a [CoreFunc]) -> Result<TypeLists<'a>, NoMemory>
        ensures { IfOk result (λ lists. lists ≡ types.now) }
    {
        let numbers = number_types(alloc, types)?;
        let parts = parts_of(alloc, types, numbers.as_slice())?;
        Ok(TypeLists {
            types,
            numbers,
            parts,
        })
    }

    pub fn as_slice(&self) -> &'a [CoreFunc]
        ensures { result.now ≡ self.now }
    {
        self.types
    }

    pub fn len(&self) -> usize
        ensures { result ≡ length self.now }
    {
        self.types.len()
    }

    pub fn numbers(&self) -> &[ListNumbers]
        ensures { Distinguish self.now result.now }
    {
        self.numbers.as_slice()
    }

    /// Whether that many types from two places of lists on are known for the same, in a few steps.
    pub fn same_slices(
        &self,
        a: Source,
        from_a: usize,
        b: Source,
        from_b: usize,
        len: usize,
    ) -> bool
        ensures { OnTrue result (from_a + len ≤ length (listed_in self.now a) → from_b + len ≤ length (listed_in self.now b) → SameTypes (listed_in self.now a) from_a (listed_in self.now b) from_b len) }
    {
        same_slices(&self.parts, a, from_a, b, from_b, len)
    }

    /// Whether two names stand for equal lists.
    pub fn same(&self, a: Source, b: Source) -> bool
        ensures { IsTrue result ↔ (listed_in self.now a ≡ listed_in self.now b) }
    {
        let numbers = self.numbers();
        number_of(numbers, a) == number_of(numbers, b)
    }
}
