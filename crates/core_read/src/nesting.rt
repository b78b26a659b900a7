//! What constructs are open at a place in an expression, which says whether an `else` may come and where the expression ends.

ghost use Rattle.std.specs.Prelude.{◌≡◌, ◌∷◌, [], true, false, OnOk};
ghost use Rattle.wasm_ast.specs.Expressions.{is_closed, may_else, closed};

use crate::select_lists::SelectLists;
use std::alloc::Global;
use std::marker::Model;
use virt_base::NoMemory;

/// What is open at a place in an expression, which contracts see as a list, the innermost first: of each construct, whether its
/// `else` may come. There is no more of it than one byte a construct. The instructions share these lists.
#[derive(Drop)]
pub struct Nesting<'a> {
    pub(crate) selects: &'a SelectLists,
    may_else: bool,
    outer: Vec<bool>,
    over: bool,
}

impl<'a> Model for Nesting<'a> {
    ghost use Rattle.std.specs.Prelude.{List, Bool, [], ◌∷◌, reverse, if◌then◌else◌};

    ghost Value = { List Bool };

    ghost view = { λ n. if n.over then [] else (n.may_else ∷ reverse n.outer.items) };
}

impl<'a> Nesting<'a> {
    /// The expression itself is open, and no `else` may come.
    pub fn start(alloc: Global, selects: &'a SelectLists) -> Nesting<'a>
        ensures { result ≡ false ∷ [] }
    {
        Nesting {
            selects,
            may_else: false,
            outer: Vec::new(alloc),
            over: false,
        }
    }

    pub fn is_over(&self) -> bool
        ensures { result ≡ is_closed self.now }
    {
        self.over
    }

    pub fn may_else(&self) -> bool
        ensures { result ≡ may_else self.now }
    {
        !self.over && self.may_else
    }

    /// One construct more.
    pub fn open(&mut self, may_else: bool) -> Result<(), NoMemory>
        ensures { OnOk result (self.new ≡ may_else ∷ self.old) }
    {
        if self.over {
            self.over = false;
            self.outer.clear();
        } else {
            self.outer.push(self.may_else)?;
        }
        self.may_else = may_else;
        Ok(())
    }

    /// One construct less, if there is one.
    pub fn close(&mut self)
        ensures { self.new ≡ closed self.old }
    {
        match self.outer.pop() {
            Some(may_else) => self.may_else = may_else,
            None => self.over = true,
        }
    }
}
