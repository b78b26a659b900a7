//! Arguments with other numbers in the places of their handles.

#![tactic(auto, using(wit_types::proofs::ValueLemmas::values))]

ghost use Rattle.std.specs.Prelude.{◌≡◌, ◌≤◌, ◌<◌, length, slice_get, slice_set, Some, false};
ghost use Rattle.wit_types.specs.declared.value.Value.TheVariants.{Bool};
ghost use Rattle.wit_types.specs.Plain.{fields_of};
ghost use Rattle.wit_types.specs.PlainValue.{plain_values, values_of};
ghost use Rattle.abi_layout.specs.Handles.{field_handles, renumbered_fields};
ghost use Rattle.host_port.specs.Calls.{fields_in};
ghost use Rattle.reference_step.specs.Atoms.{atoms_of, handles, renumbered_of};

use std::mem;
use value_handles::renumber;
use wit_types::{Field, Fields, Value, Values};

/// What stands at a place of a list; a truth stands there meanwhile.
fn take_item(items: &mut Vec<Value>, i: usize) -> Value
    requires { i < length items.old.items }
    ensures item { slice_get items.old.items i ≡ Some result }
    ensures others { items.new.items ≡ slice_set items.old.items i (Bool false) }
{
    mem::replace(&mut items[i], Value::Bool(false))
}

/// Puts a value at a place of a list.
fn put_item(items: &mut Vec<Value>, i: usize, value: Value)
    requires { i < length items.old.items }
    ensures { items.new.items ≡ slice_set items.old.items i value }
{
    items[i] = value;
}

fn renumber_each(values: Vec<Value>, params: &[Field], numbers: &[u32]) -> Vec<Value>
    requires { length (field_handles (fields_of params.now) (values_of values.items)) ≤ length numbers.now }
    ensures { values_of result.items ≡ renumbered_fields (fields_of params.now) (values_of values.items) numbers.now }
{
    let mut items = values;
    let mut at = 0;
    for i in 0..params.len() {
        if i >= items.len() {
            return items;
        }
        let value = take_item(&mut items, i);
        put_item(
            &mut items,
            i,
            renumber(value, &params[i].ty, numbers, &mut at),
        );
    }
    items
}

/// The arguments with these numbers for their handles, in order.
pub fn renumber_arguments(args: Values, params: &Fields, numbers: &[u32]) -> Values
    requires { length (handles (atoms_of (fields_in params.now) (plain_values args))) ≤ length numbers.now }
    ensures { plain_values result ≡ (renumbered_of (fields_in params.now) (plain_values args) numbers.now).0 }
{
    match args {
        Values::Each(values) => Values::Each(renumber_each(values, &params.items, numbers)),
        Values::Bytes(bytes) => Values::Bytes(bytes),
    }
}
