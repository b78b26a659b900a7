//! Lists of operand types by the name of where they stand, so that equal names need no walk along equal lists.

ghost use Rattle.std.specs.Prelude.{◌≡◌, ◌↔◌, IsTrue};

use crate::spaces::Scope;
use virt_base::CoreType;
use wasm_ast::BlockType;

/// Where a list of operand types stands.
#[derive(Clone, Copy)]
pub enum Source {
    Nothing,
    Only(CoreType),
    /// The parameters of the type at an index.
    Params(u32),
    Results(u32),
}

/// The front of a list.
#[derive(Clone, Copy)]
pub struct Run {
    pub of: Source,
    pub len: usize,
}

/// A function's type, by the names of its lists.
#[derive(Clone, Copy)]
pub struct Named {
    pub params: Source,
    pub results: Source,
}

pub fn same_types(a: &[CoreType], b: &[CoreType]) -> bool
    ensures { IsTrue result ↔ (a.now ≡ b.now) }
{
    *a == *b
}

impl<'a> Scope<'a> {
    ghost use Rattle.std.specs.Prelude.{◌≡◌, ◌↔◌, IsTrue, Some, None, MatchOption, slice_get};
    ghost use Rattle.std.specs.Bool.{OnTrue};
    ghost use Rattle.core_body.specs.Context.{arrow, block_type, function_type};
    ghost use Rattle.core_body.specs.Sources.{listed, front};
    ghost use Rattle.core_body.specs.Views.{context_of};

    pub fn listed(&self, source: Source) -> &'a [CoreType]
        ensures { result.now ≡ listed (context_of self.now) source }
    {
        self.spaces.listed(source)
    }

    /// The types of a run.
    pub fn front(&self, run: Run) -> &'a [CoreType]
        ensures { result.now ≡ front (context_of self.now) run }
    {
        let list = self.listed(run.of);
        if run.len < list.len() {
            list.split_at(run.len).0
        } else {
            list
        }
    }

    /// Whether two names are of equal lists.
    pub fn same_lists(&self, a: Source, b: Source) -> bool
        ensures { IsTrue result ↔ (listed (context_of self.now) a ≡ listed (context_of self.now) b) }
    {
        self.spaces.types.same(a, b)
    }

    /// Whether two runs are known for equal by their names.
    pub fn same_fronts(&self, a: Run, b: Run) -> bool
        ensures { OnTrue result (front (context_of self.now) a ≡ front (context_of self.now) b) }
    {
        a.len == b.len && self.same_lists(a.of, b.of)
    }

    #[tactic(auto, using(crate::proofs::NameLemmas::named_some))]
    fn type_named(&self, n: u32) -> Option<Named>
        ensures { MatchOption result (slice_get self.now.spaces.types.now n ≡ None) (λ a. slice_get self.now.spaces.types.now n ≡ Some (arrow (listed (context_of self.now) a.params) (listed (context_of self.now) a.results))) }
    {
        match self.spaces.types.as_slice().get(n as usize) {
            Some(_) => Some(Named {
                params: Source::Params(n),
                results: Source::Results(n),
            }),
            None => None,
        }
    }

    /// The type of a block, if its index is there.
    pub fn block_named(&self, ty: BlockType) -> Option<Named>
        ensures { MatchOption result (block_type (context_of self.now) ty ≡ None) (λ a. block_type (context_of self.now) ty ≡ Some (arrow (listed (context_of self.now) a.params) (listed (context_of self.now) a.results))) }
    {
        match ty {
            BlockType::Empty => Some(Named {
                params: Source::Nothing,
                results: Source::Nothing,
            }),
            BlockType::Value(t) => Some(Named {
                params: Source::Nothing,
                results: Source::Only(t),
            }),
            BlockType::Index(n) => self.type_named(n),
        }
    }

    /// The type of a function, if the function and the type are there.
    pub fn function_named(&self, n: u32) -> Option<Named>
        ensures { MatchOption result (function_type (context_of self.now) n ≡ None) (λ a. function_type (context_of self.now) n ≡ Some (arrow (listed (context_of self.now) a.params) (listed (context_of self.now) a.results))) }
    {
        match self.spaces.functions.get(n as usize) {
            Some(t) => self.type_named(*t),
            None => None,
        }
    }
}
