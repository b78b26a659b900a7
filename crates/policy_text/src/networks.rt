//! Networks as a policy spells them: an address of IPv4 or IPv6 in full, a slash, and how many of its first bits count.

ghost use Rattle.std.specs.Prelude.{◌≡◌, ◌<◌, true, false, IfOk, IfSome, option_and_then, if◌then◌else◌};
ghost use Rattle.path_names.specs.Parts.{parts_of};
ghost use Rattle.policy_text.specs.Networks.{address_of, all_numbers, decimal_digit, decimal_of, group_digit, group_of, network_at, network_by, network_of, number_of, upto};

use path_names::cut;
use policy_data::{Network, Numbers};
use std::alloc::Global;
use virt_base::{Items, NoMemory};

fn decimal_digit(digit: u8) -> Option<u32>
    ensures value { result ≡ decimal_digit digit }
    ensures small { IfSome result (λ d. d < 10) }
{
    match digit {
        b'0'..=b'9' => Some(u32::from(digit - b'0')),
        _ => None,
    }
}

fn group_digit(digit: u8) -> Option<u32>
    ensures value { result ≡ group_digit digit }
    ensures small { IfSome result (λ d. d < 16) }
{
    match digit {
        b'0'..=b'9' => Some(u32::from(digit - b'0')),
        b'a'..=b'f' => Some(u32::from(digit - b'a' + 10)),
        _ => None,
    }
}

/// A decimal number of 1 to 3 digits without a leading zero.
fn decimal_of(text: &[u8]) -> Option<u32>
    ensures value { result ≡ decimal_of text.now }
    ensures small { IfSome result (λ n. n < 1000) }
{
    match text {
        [] => None,
        [a] => decimal_digit(*a),
        [b'0', _, ..] => None,
        [a, b] => Some(decimal_digit(*a)? * 10 + decimal_digit(*b)?),
        [a, b, c] => Some((decimal_digit(*a)? * 10 + decimal_digit(*b)?) * 10 + decimal_digit(*c)?),
        [_, _, _, _, ..] => None,
    }
}

/// A hexadecimal number of 1 to 4 digits in lower case.
fn group_of(text: &[u8]) -> Option<u32>
    ensures value { result ≡ group_of text.now }
    ensures small { IfSome result (λ n. n < 65536) }
{
    match text {
        [] => None,
        [a] => group_digit(*a),
        [a, b] => Some(group_digit(*a)? * 16 + group_digit(*b)?),
        [a, b, c] => Some((group_digit(*a)? * 16 + group_digit(*b)?) * 16 + group_digit(*c)?),
        [a, b, c, d] => {
            let high = group_digit(*a)? * 16 + group_digit(*b)?;
            Some((high * 16 + group_digit(*c)?) * 16 + group_digit(*d)?)
        }
        [_, _, _, _, _, ..] => None,
    }
}

/// A number of an address of IPv4, or of IPv6.
fn number_of(six: bool, text: &[u8]) -> Option<u16>
    ensures { result ≡ number_of six text.now }
{
    if six {
        let number = group_of(text)?;
        return Some(number as u16);
    }
    let number = decimal_of(text)?;
    if number > 255 {
        return None;
    }
    Some(number as u16)
}

/// The numbers of the parts that a byte joins; none where a part is no number.
fn all_numbers(
    alloc: Global,
    six: bool,
    joiner: u8,
    text: &[u8],
) -> Result<Option<Numbers>, NoMemory>
    ensures { IfOk result (λ numbers. numbers ≡ all_numbers (number_of six) (parts_of joiner text.now)) }
{
    let mut numbers = Items::empty(alloc);
    let mut rest = text;
    while let Some((part, more)) = cut(rest, joiner) {
        let Some(number) = number_of(six, part) else {
            return Ok(None);
        };
        numbers.push(number)?;
        rest = more;
    }
    let Some(number) = number_of(six, rest) else {
        return Ok(None);
    };
    numbers.push(number)?;
    Ok(Some(numbers))
}

/// Four decimal numbers that `.` joins, or eight groups that `:` joins.
fn address_of(alloc: Global, six: bool, text: &[u8]) -> Result<Option<Numbers>, NoMemory>
    ensures { IfOk result (λ numbers. numbers ≡ address_of six text.now) }
{
    let (joiner, count) = if six { (b':', 8) } else { (b'.', 4) };
    match all_numbers(alloc, six, joiner, text)? {
        Some(numbers) => {
            if numbers.len() == count {
                Ok(Some(numbers))
            } else {
                Ok(None)
            }
        }
        None => Ok(None),
    }
}

/// An address, and a decimal number of its bits that is not above the greatest.
fn network_by(six: bool, numbers: Numbers, length: Option<u32>) -> Option<Network>
    ensures { result ≡ network_by six numbers (option_and_then (upto (if six then 128 else 32)) length) }
{
    let length = length?;
    let greatest = if six { 128 } else { 32 };
    if length > greatest {
        return None;
    }
    Some(Network {
        six,
        numbers,
        length: length as u8,
    })
}

/// The network of an address of either kind, and of its length.
fn network_at(
    alloc: Global,
    address: &[u8],
    length: Option<u32>,
) -> Result<Option<Network>, NoMemory>
    ensures { IfOk result (λ network. network ≡ network_at (address_of false address.now) (address_of true address.now) length) }
{
    if let Some(numbers) = address_of(alloc, false, address)? {
        return Ok(network_by(false, numbers, length));
    }
    match address_of(alloc, true, address)? {
        Some(numbers) => Ok(network_by(true, numbers, length)),
        None => Ok(None),
    }
}

/// The network of a text; none where it has another form.
pub fn network_of(alloc: Global, text: &[u8]) -> Result<Option<Network>, NoMemory>
    ensures { IfOk result (λ network. network ≡ network_of text.now) }
{
    match cut(text, b'/') {
        None => Ok(None),
        Some((address, length)) => network_at(alloc, address, decimal_of(length)),
    }
}
