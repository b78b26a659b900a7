//! The instance types that are open while a section of types is judged, by the number of declarations that each still has.

ghost use Rattle.std.specs.Prelude.{◌≡◌, [], ◌∷◌, OnOk};
ghost use Rattle.comp_validate.specs.Stack.{IsPopped, one_less};

use std::alloc::Global;
use std::marker::Model;
use virt_base::NoMemory;

/// How many declarations each open instance type still has. Contracts see the innermost first.
#[derive(Drop)]
pub struct OpenTypes {
    counts: Vec<u32>,
}

impl Model for OpenTypes {
    ghost use Rattle.std.specs.Prelude.{List, ℕ, reverse};

    ghost Value = { List ℕ };

    ghost view = { λ o. reverse o.counts.items };
}

impl OpenTypes {
    /// None is open.
    pub fn none(alloc: Global) -> OpenTypes
        ensures { result ≡ [] }
    {
        OpenTypes {
            counts: Vec::new(alloc),
        }
    }

    /// Opens one in the innermost.
    #[tactic(auto, using(comp_defining::proofs::AroundLemmas::rev_push))]
    pub fn push(&mut self, count: u32) -> Result<(), NoMemory>
        ensures { OnOk result (self.new ≡ count ∷ self.old) }
    {
        self.counts.push(count)?;
        Ok(())
    }

    /// Takes out the innermost.
    #[tactic(auto, using(comp_defining::proofs::AroundLemmas::rev_push))]
    pub fn pop(&mut self) -> Option<u32>
        ensures { IsPopped self.old result self.new }
    {
        self.counts.pop()
    }

    /// Takes a declaration off the innermost.
    pub fn take_one(&mut self) -> Result<(), NoMemory>
        ensures { OnOk result (self.new ≡ one_less self.old) }
    {
        match self.pop() {
            None => Ok(()),
            Some(count) => self.push(count.saturating_sub(1)),
        }
    }
}
