//! An answer with other numbers in the places of its handles.

ghost use Rattle.std.specs.Prelude.{◌≡◌, ◌≤◌, length};
ghost use Rattle.wit_types.specs.Plain.{plain, plain_result};
ghost use Rattle.wit_types.specs.PlainValue.{plain_value};
ghost use Rattle.host_port.specs.Calls.{plain_option};
ghost use Rattle.reference_step.specs.Atoms.{atoms, handles, renumbered, renumbered_result, result_atoms};

use value_handles::renumber;
use wit_types::{Value, WitType};

/// The value with these numbers for its handles, in order.
fn renumber_value(ty: &WitType, value: Value, numbers: &[u32]) -> Value
    requires { length (handles (atoms (plain ty.now) (plain_value value))) ≤ length numbers.now }
    ensures { plain_value result ≡ (renumbered (plain ty.now) (plain_value value) numbers.now).0 }
{
    let mut at = 0;
    renumber(value, ty, numbers, &mut at)
}

/// The same of an answer, where the call has a result.
pub fn renumber_result(ty: &Option<WitType>, value: Option<Value>, numbers: &[u32]) -> Option<Value>
    requires { length (handles (result_atoms (plain_result ty.now) (plain_option value))) ≤ length numbers.now }
    ensures { plain_option result ≡ renumbered_result (plain_result ty.now) (plain_option value) numbers.now }
{
    match ty {
        None => value,
        Some(ty) => match value {
            None => None,
            Some(value) => Some(renumber_value(ty, value, numbers)),
        },
    }
}
