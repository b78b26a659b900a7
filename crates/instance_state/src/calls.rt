//! One call of a core function in progress, and the test that a function can be called.

ghost use Rattle.std.specs.Prelude.{◌≡◌, IsTrue, ◌↔◌, slice_get};
ghost use Rattle.core_store.specs.Fine.{params_of};
ghost use Rattle.core_interp.specs.Session.{IsCallable};

use core_interp::Machine;
use core_store::{Store, StoreFunc, function, functions};

/// A call in progress.
#[derive(Drop)]
pub struct CoreCall {
    pub machine: Machine,
    /// How many calls were in progress when it last asked for one.
    pub nesting: u32,
}

fn count_params(function: &StoreFunc) -> usize
    ensures { result ≡ params_of function.now }
{
    match function {
        StoreFunc::Inside { ty, .. } => ty.get().params.len(),
        StoreFunc::Outside { ty, .. } => ty.get().params.len(),
    }
}

/// Whether there is a function at the place, and it takes `args` arguments.
pub fn is_callable(store: &Store, at: u32, args: usize) -> bool
    ensures { IsTrue result ↔ IsCallable (slice_get store.now.functions at) args }
{
    if at >= functions(store) {
        return false;
    }
    count_params(function(store, at)) == args
}
