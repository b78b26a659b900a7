//! Whether two addresses begin alike, bit by bit from the greatest. One is a policy's, the other stands in values.

#![tactic(auto, using(wit_types::proofs::ValueLemmas::values))]

ghost use Rattle.std.specs.Prelude.{◌≡◌, ◌≤◌, ◌<◌};
ghost use Rattle.std.specs.List.{flat_map};
ghost use Rattle.policy_data.specs.Addresses.{bits};
ghost use Rattle.wit_types.specs.PlainValue.{plain_value, values_of};
ghost use Rattle.net_policy.specs.Allowed.{number_in, all_numbers, same_front};
ghost use Rattle.net_policy.specs.Seen.{seen};

use wit_types::{Value, Values};

/// The number that a value is; 0 for what is no number.
pub fn number_in(value: &Value) -> u128
    ensures { result ≡ number_in (plain_value value.now) }
{
    match value {
        Value::Int(n) => n.unsigned_abs(),
        Value::Bool(_)
        | Value::Char(_)
        | Value::Str(_)
        | Value::List(_)
        | Value::Record(_)
        | Value::Variant(_, _)
        | Value::Flags(_)
        | Value::Handle(_) => 0,
    }
}

/// Whether the bits of two numbers of this width begin alike, for that many bits.
fn same_bits(a: u128, b: u128, width: u32, left: u32) -> bool
    requires { width ≤ 16 }
    ensures { result ≡ same_front left (bits width a) (bits width b) }
{
    if left == 0 || width == 0 {
        return true;
    }
    let bit = width - 1;
    let same = ((a >> bit) % 2 == 1) == ((b >> bit) % 2 == 1);
    same && same_bits(a, b, bit, left - 1)
}

#[tactic(auto, using(crate::proofs::NumberLemmas::none_left, crate::proofs::NumberLemmas::some_left, crate::proofs::NumberLemmas::both_left))]
/// Whether the bits of two lists of numbers of this width begin alike, for that many bits.
fn same_numbers(ours: &[u16], theirs: &[Value], width: u32, left: u32) -> bool
    requires some { 0 < width }
    requires most { width ≤ 16 }
    ensures { result ≡ same_front left (flat_map (bits width) ours.now) (flat_map (bits width) (all_numbers (values_of theirs.now))) }
{
    if left == 0 {
        return true;
    }
    if ours.is_empty() {
        return theirs.is_empty();
    }
    if theirs.is_empty() {
        return false;
    }
    same_bits(u128::from(ours[0]), number_in(&theirs[0]), width, left)
        && same_numbers(&ours[1..], &theirs[1..], width, left.saturating_sub(width))
}

/// The same of numbers that are bytes.
#[tactic(auto, using(crate::proofs::ByteLemmas::none_left, crate::proofs::ByteLemmas::some_left, crate::proofs::ByteLemmas::both_left))]
fn same_bytes(ours: &[u16], theirs: &[u8], width: u32, left: u32) -> bool
    requires some { 0 < width }
    requires most { width ≤ 16 }
    ensures { result ≡ same_front left (flat_map (bits width) ours.now) (flat_map (bits width) theirs.now) }
{
    if left == 0 {
        return true;
    }
    if ours.is_empty() {
        return theirs.is_empty();
    }
    if theirs.is_empty() {
        return false;
    }
    same_bits(u128::from(ours[0]), u128::from(theirs[0]), width, left)
        && same_bytes(&ours[1..], &theirs[1..], width, left.saturating_sub(width))
}

/// Whether the bits of the numbers begin alike, for that many bits.
#[tactic(auto, using(wit_types::proofs::ValueLemmas::values, crate::proofs::ByteLemmas::all_bytes))]
pub fn are_alike(ours: &[u16], theirs: Option<&Values>, width: u32, left: u32) -> bool
    requires some { 0 < width }
    requires most { width ≤ 16 }
    ensures { result ≡ same_front left (flat_map (bits width) ours.now) (flat_map (bits width) (all_numbers (seen theirs.entry))) }
{
    match theirs {
        None => same_bytes(ours, &[], width, left),
        Some(Values::Each(items)) => same_numbers(ours, items, width, left),
        Some(Values::Bytes(bytes)) => same_bytes(ours, bytes.as_slice(), width, left),
    }
}
