//! The facts of a function type, and what a canonical function of this type needs: a memory, a realloc, parameters or results in memory
//! (Component Model, Explainer.md, "Canonical ABI"; CanonicalABI.md, "Flattening").

ghost use Rattle.std.specs.Prelude.{◌≡◌, ◌≤◌, false, min, nat_lt, IfSome};
ghost use Rattle.wit_types.specs.Plain.{PlainFunc};
ghost use Rattle.abi_layout.specs.Functions.{params_spill, result_spills};
ghost use Rattle.comp_facts.specs.Measures.{func_depth, func_parts, answer_depth, answer_parts};
ghost use Rattle.comp_facts.specs.Handles.{func_has_handle};
ghost use Rattle.comp_facts.specs.Needs.{needs_memory, lift_needs_realloc, lower_needs_realloc, is_pointed_answer};

use crate::facts::Facts;
use crate::parts::PartFacts;

/// What is kept of a function type.
#[derive(Debug, Clone, Copy)]
pub struct FuncFacts {
    pub params: PartFacts,
    pub answer: Option<Facts>,
}

impl FuncFacts {
    ghost use Rattle.comp_facts.specs.Facts.{IsFuncFactsOf};

    /// How deep it is; 101 stands for more than 100.
    pub fn depth(&self) -> u32
        ensures { (ty : PlainFunc) → IsFuncFactsOf ty self.now → result ≡ min (func_depth ty) 101 }
    {
        let answer = match &self.answer {
            None => 0,
            Some(answer) => answer.depth,
        };
        u32::min(u32::max(self.params.depth, answer) + 1, 101)
    }

    /// How many parts it has; 1,000,001 stands for more than 1,000,000.
    pub fn parts(&self) -> u32
        ensures { (ty : PlainFunc) → IsFuncFactsOf ty self.now → result ≡ min (func_parts ty) 1000001 }
    {
        let answer = match &self.answer {
            None => 0,
            Some(answer) => answer.parts,
        };
        u32::min(self.params.parts + answer + 1, 1_000_001)
    }

    /// Whether the flat parameters go through one place.
    pub fn params_spill(&self) -> bool
        ensures spills { (ty : PlainFunc) → IsFuncFactsOf ty self.now → result ≡ params_spill ty }
        ensures many { result ≡ nat_lt 16 self.now.params.fields.count }
    {
        self.params.fields.count > 16
    }

    /// Whether the flat results go through memory.
    pub fn result_spills(&self) -> bool
        ensures spills { (ty : PlainFunc) → IsFuncFactsOf ty self.now → result ≡ result_spills ty }
        ensures few { result ≡ false → IfSome self.now.answer (λ a. a.flat.count ≤ 1) }
    {
        match &self.answer {
            None => false,
            Some(answer) => answer.flat.count > 1,
        }
    }

    fn is_pointed_answer(&self) -> bool
        ensures { (ty : PlainFunc) → IsFuncFactsOf ty self.now → result ≡ is_pointed_answer ty.answer }
    {
        match &self.answer {
            None => false,
            Some(answer) => answer.pointed,
        }
    }

    /// Whether it has a handle, owned or borrowed.
    pub fn has_handle(&self) -> bool
        ensures { (ty : PlainFunc) → IsFuncFactsOf ty self.now → result ≡ func_has_handle ty }
    {
        let answer = match &self.answer {
            None => false,
            Some(answer) => answer.handles,
        };
        self.params.handles || answer
    }

    /// Whether a canonical function of this type needs a memory.
    pub fn needs_memory(&self) -> bool
        ensures { (ty : PlainFunc) → IsFuncFactsOf ty self.now → result ≡ needs_memory ty }
    {
        self.params.pointed
            || self.is_pointed_answer()
            || self.params_spill()
            || self.result_spills()
    }

    /// Whether a lifted function of this type needs a realloc.
    pub fn lift_needs_realloc(&self) -> bool
        ensures { (ty : PlainFunc) → IsFuncFactsOf ty self.now → result ≡ lift_needs_realloc ty }
    {
        self.params.pointed || self.params_spill()
    }

    /// Whether a lowered function of this type needs a realloc.
    pub fn lower_needs_realloc(&self) -> bool
        ensures { (ty : PlainFunc) → IsFuncFactsOf ty self.now → result ≡ lower_needs_realloc ty }
    {
        self.is_pointed_answer()
    }
}
