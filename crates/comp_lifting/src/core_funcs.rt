//! The core functions of a scope, as the options of canonical functions look them up.

ghost use Rattle.std.specs.Prelude.{ℕ};

use crate::CoreFuncs;
use comp_scopes::CoreScope;
use wasm_ast::CoreFunc;

/// The types of a scope's core functions.
#[derive(Clone, Copy)]
pub struct CoreOf<'a>(pub &'a CoreScope);

impl CoreFuncs for CoreOf<'_> {
    ghost use Rattle.std.specs.Prelude.{ℕ};
    ghost use Rattle.comp_scopes.specs.Scopes.{func_in as core_func_in};

    ghost at = { λ c i. core_func_in c.0.now i };

    fn at(&self, index: u32) -> Option<&CoreFunc> {
        self.0.func_at(index)
    }
}
