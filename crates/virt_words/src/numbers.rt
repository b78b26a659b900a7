//! Numbers among words: decimal digits without a sign or a leading zero, within a limit.

ghost use Rattle.std.specs.Prelude.{◌≡◌, ◌≤◌};
ghost use Rattle.virt_words.specs.Numbers.{digits_within, number_in};

/// The number that digits spell, where it is within a limit.
fn digits_within(digits: &[u8], greatest: u64) -> Option<u64>
    requires { greatest ≤ 10000000000 }
    ensures { result ≡ digits_within greatest 0 digits.now }
{
    let mut number: u64 = 0;
    let mut rest = digits;
    while let Some((digit, more)) = rest.split_first() {
        if *digit < b'0' || *digit > b'9' {
            return None;
        }
        number = number * 10 + u64::from(*digit - b'0');
        if number > greatest {
            return None;
        }
        rest = more;
    }
    Some(number)
}

/// A number from 1 on and within a limit: decimal digits without a sign or a leading zero.
pub fn number_in(text: &str, greatest: u64) -> Option<u64>
    requires { greatest ≤ 10000000000 }
    ensures { result ≡ number_in greatest text.now }
{
    match text.as_bytes() {
        [] => None,
        [b'0', ..] => None,
        digits => digits_within(digits, greatest),
    }
}
