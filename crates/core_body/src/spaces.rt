//! What code may name: the index spaces of its module, the locals of its function, and the operands that it has to leave (core
//! WebAssembly, "Validation", "Contexts").

ghost use Rattle.std.specs.Prelude.{◌≡◌, ◌∷◌, [], Some, None, MatchOption, slice_get};

use crate::locals::Locals;
use crate::source::Source;
use crate::types::TypeLists;
use virt_base::CoreType;
use wasm_ast::{BlockType, GlobalType, RefType, TableType};

/// What the code of a module may name.
#[derive(Clone, Copy)]
pub struct Spaces<'a> {
    pub types: &'a TypeLists<'a>,
    /// The index of each function's type, imported functions first.
    pub functions: &'a [u32],
    pub tables: &'a [TableType],
    /// How many memories there are.
    pub memories: usize,
    pub globals: &'a [GlobalType],
    /// How many of the globals are imported: these stand first.
    pub imported_globals: usize,
    /// The type of each element segment.
    pub elements: &'a [RefType],
    pub data_count: Option<u32>,
    /// Of each function, whether a body's `ref.func` may name it.
    pub refs: &'a [bool],
}

/// What one body, or one constant expression, may name and has to leave.
#[derive(Drop)]
pub struct Scope<'a> {
    pub spaces: Spaces<'a>,
    pub locals: Locals<'a>,
    /// A constant expression has no function around it.
    pub in_body: bool,
    pub due: Source,
}

/// A function's type, lent.
#[derive(Clone, Copy)]
pub struct Arrow<'a> {
    pub params: &'a [CoreType],
    pub results: &'a [CoreType],
}

/// The list of one type.
pub fn only(t: CoreType) -> &'static [CoreType]
    ensures { result.now ≡ t ∷ [] }
{
    match t {
        CoreType::I32 => &[CoreType::I32],
        CoreType::I64 => &[CoreType::I64],
        CoreType::Funcref => &[CoreType::Funcref],
        CoreType::Externref => &[CoreType::Externref],
    }
}

impl<'a> Spaces<'a> {
    ghost use Rattle.core_body.specs.Context.{arrow, block_type, function_type};
    ghost use Rattle.core_body.specs.Sources.{listed_in};
    ghost use Rattle.core_body.specs.Views.{context_at};

    fn type_at(&self, n: u32) -> Option<Arrow<'a>>
        ensures { MatchOption result (slice_get self.now.types.now n ≡ None) (λ a. slice_get self.now.types.now n ≡ Some (arrow a.params.now a.results.now)) }
    {
        let types = self.types.as_slice();
        match types.get(n as usize) {
            Some(f) => Some(Arrow {
                params: f.params.as_slice(),
                results: f.results.as_slice(),
            }),
            None => None,
        }
    }

    /// The type of a block, if its index is there.
    pub fn block_type(&self, ty: BlockType) -> Option<Arrow<'a>>
        ensures { MatchOption result (block_type (context_at self.now) ty ≡ None) (λ a. block_type (context_at self.now) ty ≡ Some (arrow a.params.now a.results.now)) }
    {
        match ty {
            BlockType::Empty => Some(Arrow {
                params: &[],
                results: &[],
            }),
            BlockType::Value(t) => Some(Arrow {
                params: &[],
                results: only(t),
            }),
            BlockType::Index(n) => self.type_at(n),
        }
    }

    /// The type of a function, if the function and the type are there.
    pub fn function_type(&self, n: u32) -> Option<Arrow<'a>>
        ensures { MatchOption result (function_type (context_at self.now) n ≡ None) (λ a. function_type (context_at self.now) n ≡ Some (arrow a.params.now a.results.now)) }
    {
        let functions = self.functions;
        match functions.get(n as usize) {
            Some(t) => self.type_at(*t),
            None => None,
        }
    }

    /// The list that a name stands for.
    pub fn listed(&self, source: Source) -> &'a [CoreType]
        ensures { result.now ≡ listed_in self.now.types.now source }
    {
        match source {
            Source::Nothing => &[],
            Source::Only(t) => only(t),
            Source::Params(n) => match self.type_at(n) {
                Some(f) => f.params,
                None => &[],
            },
            Source::Results(n) => match self.type_at(n) {
                Some(f) => f.results,
                None => &[],
            },
        }
    }
}
