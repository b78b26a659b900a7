//! Reading and setting the globals of the store, by place.

ghost use Rattle.std.specs.Prelude.{◌≡◌, ◌<◌, Some, length, slice_get, slice_index_or, slice_set};
ghost use Rattle.core_store.specs.State.{IsSameType, IsStoreValue};

use crate::state::Store;
use crate::value::CoreValue;

/// The value of the global at a place.
pub fn global_get(store: &Store, at: u32) -> CoreValue
    requires { at < length store.now.globals }
    ensures value { slice_get store.now.globals at ≡ Some result }
    ensures names { IsStoreValue (length store.now.functions) result }
{
    store.globals[at as usize]
}

/// Sets the global at a place. The value has the type of the one that it replaces.
pub fn global_set(store: &mut Store, at: u32, value: CoreValue)
    requires there { at < length store.old.globals }
    requires names { IsStoreValue (length store.old.functions) value }
    requires same { IsSameType (slice_index_or store.old.globals at value) value }
    ensures { store.new ≡ record store.old { globals = slice_set store.old.globals at value } }
{
    store.globals[at as usize] = value;
}
