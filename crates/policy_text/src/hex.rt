//! Bytes spelled by pairs of hexadecimal digits, in lower or upper case.

ghost use Rattle.std.specs.Prelude.{◌≡◌, ◌<◌, IfOk, IfSome};
ghost use Rattle.policy_text.specs.Hex.{hex_bytes, hex_digit};

use std::alloc::Global;
use virt_base::{Bytes, Items, NoMemory};

fn hex_digit(digit: u8) -> Option<u8>
    ensures value { result ≡ hex_digit digit }
    ensures small { IfSome result (λ value. value < 16) }
{
    match digit {
        b'0'..=b'9' => Some(digit - b'0'),
        b'A'..=b'F' => Some(digit - b'A' + 10),
        b'a'..=b'f' => Some(digit - b'a' + 10),
        _ => None,
    }
}

/// The bytes that pairs of digits spell; none for other text.
pub fn hex_bytes(alloc: Global, digits: &[u8]) -> Result<Option<Bytes>, NoMemory>
    ensures { IfOk result (λ bytes. bytes ≡ hex_bytes digits.now) }
{
    let mut bytes = Items::empty(alloc);
    let mut rest = digits;
    while let Some((high, more)) = rest.split_first() {
        let Some((low, more)) = more.split_first() else {
            return Ok(None);
        };
        match (hex_digit(*high), hex_digit(*low)) {
            (Some(high), Some(low)) => bytes.push(high * 16 + low)?,
            _ => return Ok(None),
        }
        rest = more;
    }
    Ok(Some(bytes))
}
