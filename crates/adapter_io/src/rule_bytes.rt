//! Rules on addresses in the static data.
//!
//! A rule is its family in a word, 0 for IPv4 and 1 for IPv6, and how many ranges of ports it has; then the mask of the bits that count,
//! and those bits of the network, each as a high and a low word of 64 bits; then the ranges, each in two words. The bits of an IPv4
//! address are the low 32.

use adapter_pass::{ListAt, StaticData};
use policy_data::{PortRange, Rule};
use virt_base::NoMemory;

/// 128 bits.
#[derive(Clone, Copy)]
struct Bits {
    high: u64,
    low: u64,
}

// The first bits of 64, that many of them.
fn first_bits(count: u8) -> u64 {
    if count < 64 {
        !(u64::MAX >> count)
    } else {
        u64::MAX
    }
}

fn mask_of(rule: &Rule) -> Bits {
    if rule.six {
        Bits {
            high: first_bits(rule.length),
            low: first_bits(rule.length.saturating_sub(64)),
        }
    } else {
        Bits {
            high: 0,
            low: first_bits(rule.length) >> 32,
        }
    }
}

// Numbers after one another, the first in the highest bits: of 16 bits each, or of 8.
fn joined(numbers: &[u16], six: bool) -> u64 {
    let mut bits: u64 = 0;
    for number in numbers {
        let before = if six { bits << 16 } else { bits << 8 };
        bits = before | (*number as u64);
    }
    bits
}

fn network_of(rule: &Rule) -> Bits {
    let numbers = rule.numbers.as_slice();
    if rule.six && numbers.len() >= 4 {
        Bits {
            high: joined(&numbers[..4], true),
            low: joined(&numbers[4..], true),
        }
    } else {
        Bits {
            high: 0,
            low: joined(numbers, false),
        }
    }
}

fn put_bits(data: &mut StaticData, bits: Bits) -> Result<(), NoMemory> {
    data.put_long(bits.high)?;
    data.put_long(bits.low)
}

fn put_range(data: &mut StaticData, range: PortRange) -> Result<(), NoMemory> {
    data.put_word(range.from as u32)?;
    data.put_word(range.to as u32)
}

fn capped(len: usize) -> u32 {
    u32::try_from(len).unwrap_or(u32::MAX)
}

fn put_rule(data: &mut StaticData, rule: &Rule) -> Result<(), NoMemory> {
    let mask = mask_of(rule);
    let network = network_of(rule);
    let family: u32 = if rule.six { 1 } else { 0 };
    data.put_word(family)?;
    data.put_word(capped(rule.ports.len()))?;
    put_bits(data, mask)?;
    put_bits(
        data,
        Bits {
            high: network.high & mask.high,
            low: network.low & mask.low,
        },
    )?;
    for range in rule.ports.as_slice() {
        put_range(data, *range)?;
    }
    Ok(())
}

/// Adds rules in order.
pub fn put_rules(data: &mut StaticData, rules: &[Rule]) -> Result<ListAt, NoMemory> {
    data.align(8)?;
    let place = data.place();
    for rule in rules {
        put_rule(data, rule)?;
    }
    Ok(ListAt {
        place,
        count: capped(rules.len()),
    })
}
