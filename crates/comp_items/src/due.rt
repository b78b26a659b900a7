//! What is still to come at a place in a section of types. The section is a flat list, so this says where instance types end, and where
//! the section does.

ghost use Rattle.std.specs.Prelude.{◌≡◌, ◌-◌, OnOk, if◌then◌else◌};
ghost use Rattle.comp_grammar.specs.TypeSections.{all_due, is_none_open, is_complete, declared, opened};

use std::alloc::Global;
use std::marker::Model;
use virt_base::NoMemory;

/// What is due at a place in a section of types: definitions of the section, and declarations of each instance type that is open
/// there. It grows with the instance types that are met, and not with the numbers that they claim.
#[derive(Drop)]
pub struct Due {
    types: u32,
    innermost: Option<u32>,
    /// Those around the innermost one, from the outside in.
    outer: Vec<u32>,
}

impl Model for Due {
    ghost use Rattle.comp_grammar.specs.TypeSections.{Due};
    ghost use Rattle.comp_items.specs.Views.{open_of};

    ghost Value = { Due };

    ghost view = { λ d. record { types = d.types; open_types = open_of d.innermost d.outer.items } };
}

impl Due {
    pub fn all(alloc: Global, types: u32) -> Due
        ensures { result ≡ all_due types }
    {
        Due {
            types,
            innermost: None,
            outer: Vec::new(alloc),
        }
    }

    pub fn is_none_open(&self) -> bool
        ensures { result ≡ is_none_open self.now.open_types }
    {
        self.innermost.is_none()
    }

    pub fn is_complete(&self) -> bool
        ensures { result ≡ is_complete self.now }
    {
        self.types == 0 && self.innermost.is_none()
    }

    /// One definition less, or one declaration less of the innermost instance type that is open.
    pub fn take_one(&mut self)
        ensures types { self.new.types ≡ if is_none_open self.old.open_types then self.old.types - 1 else self.old.types }
        ensures open_types { self.new.open_types ≡ declared self.old.open_types }
    {
        match self.innermost {
            None => self.types = self.types.saturating_sub(1),
            Some(1) => self.innermost = self.outer.pop(),
            Some(count) => self.innermost = Some(count.saturating_sub(1)),
        }
    }

    /// An instance type of that many declarations is met.
    pub fn open(&mut self, declarations: u32) -> Result<(), NoMemory>
        ensures types { OnOk result (self.new.types ≡ self.old.types) }
        ensures open_types { OnOk result (self.new.open_types ≡ opened declarations self.old.open_types) }
    {
        if declarations == 0 {
            return Ok(());
        }
        match self.innermost {
            None => self.outer.clear(),
            Some(count) => self.outer.push(count)?,
        }
        self.innermost = Some(declarations);
        Ok(())
    }
}
