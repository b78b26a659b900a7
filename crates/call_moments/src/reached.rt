//! The memory that a canonical function names, and whether it is there where values of a type need one.

ghost use Rattle.std.specs.Prelude.{◌≡◌, ◌<◌, IfSome, IfNone, IsTrue, IsFalse, Some, true, length};
ghost use Rattle.wit_types.specs.Plain.{plain};
ghost use Rattle.instance_state.specs.Passed.{needs_memory, IsInStore};

use instance_state::{CallOptions, CoreRuns, PassedType};

/// The memory that a canonical function names.
pub fn memory_in(code: &CoreRuns, options: CallOptions) -> Option<u32>
    ensures there { IfSome result (λ at. (options.memory ≡ Some at) × (at < length code.now.store.memories)) }
    ensures none { IfNone result (IsInStore options.memory code.now.store → ⊥) }
{
    let at = options.memory?;
    if code.has_memory(at) { Some(at) } else { None }
}

/// The memory to which storing goes on; where it does not come to memory, any.
pub fn memory_for(code: &CoreRuns, options: CallOptions, writes: bool) -> Option<u32>
    ensures named { IfSome result (λ at. IsInStore options.memory code.now.store → options.memory ≡ Some at) }
    ensures there { IfSome result (λ at. writes ≡ true → at < length code.now.store.memories) }
    ensures none { IfNone result ((writes ≡ true) × (IsInStore options.memory code.now.store → ⊥)) }
{
    match memory_in(code, options) {
        Some(at) => Some(at),
        None => { if writes { None } else { Some(0) } }
    }
}

/// The memory is there in which values of a type lie, if they do.
pub fn has_memory_for(code: &CoreRuns, options: CallOptions, passed: &PassedType) -> bool
    ensures there { IsTrue result → needs_memory passed.now.most (plain passed.now.ty) ≡ true → IsInStore options.memory code.now.store }
    ensures none { IsFalse result → (needs_memory passed.now.most (plain passed.now.ty) ≡ true → IsInStore options.memory code.now.store) → ⊥ }
{
    if !passed.in_memory {
        return true;
    }
    match memory_in(code, options) {
        Some(_) => true,
        None => false,
    }
}
