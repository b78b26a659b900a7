//! Keys of value types, by which equal ones are found again.

ghost use Rattle.std.specs.Prelude.{◌≡◌};
ghost use Rattle.comp_facts.specs.Keys.{and_number, and_name, and_names};

use virt_base::Text;

/// An odd number without a pattern, near 2^64 divided by the golden ratio.
const FACTOR: u64 = 11_400_714_819_323_198_485;

/// One number more.
#[tactic(auto, unfolding(crate::specs::Keys::and_number))]
pub fn and_number(key: u64, number: u64) -> u64
    ensures { result ≡ and_number key number }
{
    key.wrapping_mul(FACTOR).wrapping_add(number)
}

/// A name, and its end.
pub fn and_name(key: u64, name: &[u8]) -> u64
    ensures { result ≡ and_name key name.now }
{
    let mut key = key;
    for byte in name {
        key = and_number(key, u64::from(*byte));
    }
    and_number(key, 256)
}

/// Names in order.
pub fn and_names(key: u64, names: &[Text]) -> u64
    ensures { result ≡ and_names key names.now }
{
    let mut key = key;
    for name in names {
        key = and_name(key, name.bytes());
    }
    key
}
