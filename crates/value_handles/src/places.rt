//! Values are taken out of the places where they stand, and put back, so that a value is changed without a copy.

#![tactic(auto)]

ghost use Rattle.std.specs.Prelude.{◌≡◌, ◌<◌, false, length, Some, slice_get, slice_set};
ghost use Rattle.wit_types.specs.declared.value.Value.TheVariants.{Bool};

use std::mem;
use wit_types::Value;

/// What stands at a place of a list; a truth stands there meanwhile.
pub fn take_item(items: &mut Vec<Value>, i: usize) -> Value
    requires { i < length items.old.items }
    ensures item { slice_get items.old.items i ≡ Some result }
    ensures others { items.new.items ≡ slice_set items.old.items i (Bool false) }
{
    mem::replace(&mut items[i], Value::Bool(false))
}

/// Puts a value at a place of a list.
pub fn put_item(items: &mut Vec<Value>, i: usize, value: Value)
    requires { i < length items.old.items }
    ensures { items.new.items ≡ slice_set items.old.items i value }
{
    items[i] = value;
}

/// What stands in a box; a truth stands there meanwhile.
pub fn take_boxed(place: &mut Box<Value>) -> Value
    ensures { result ≡ place.old.value }
{
    mem::replace(&mut **place, Value::Bool(false))
}

/// Puts a value into a box.
pub fn put_boxed(place: &mut Box<Value>, value: Value)
    ensures { place.new.value ≡ value }
{
    **place = value;
}
