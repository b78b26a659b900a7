//! Whether some rule allows an address.

use crate::addresses::Address;
use adapter_code::IntOp;
use adapter_pass::{Frame, ListAt, Routine, long, number};

/// Repeats by their names.
const RULES: u32 = 10;

const RANGES: u32 = 11;

/// Where the parts of a rule stand: its family, how many ranges it has, its mask and its network; and then its ranges.
const FAMILY: u32 = 0;

const COUNT: u32 = 4;

const MASK: u32 = 8;

const NETWORK: u32 = 24;

const FROM: u32 = 40;

const TO: u32 = 44;

/// The bytes of a rule without ranges, and of a range.
const RULE: u64 = 40;

const RANGE: u64 = 8;

/// The locals of a search among rules.
#[derive(Clone, Copy)]
struct Searched {
    /// The next rule, how many rules there are, and how many ranges that rule has.
    at: u32,
    count: u32,
    ranges: u32,
    /// What stands before the next range by as much as a rule is long without ranges.
    range: u32,
    port: u32,
    test: u32,
    other: u32,
    /// Two of 64 bits.
    bits: u32,
    network: u32,
}

impl Searched {
    fn of(f: &Frame) -> Searched {
        Searched {
            at: f.spare.narrow(0),
            count: f.spare.narrow(1),
            ranges: f.spare.narrow(2),
            range: f.spare.narrow(3),
            port: f.spare.narrow(4),
            test: f.spare.narrow(5),
            other: f.spare.narrow(6),
            bits: f.spare.broad(0),
            network: f.spare.broad(1),
        }
    }
}

// Where the next range holds the port, the address is allowed.
fn try_range(f: &Frame, address: &Address, found: u32, l: &Searched) -> Routine {
    let allowed = f.routine().constant(found, 1).leave(RULES);
    f.routine()
        .load(l.port, l.range, number(FROM))
        .at_most(l.test, l.port, address.port)
        .load(l.port, l.range, number(TO))
        .at_most(l.other, address.port, l.port)
        .both_bits(l.test, l.test, l.other)
        .when(l.test, allowed)
        .with(IntOp::Add, l.range, l.range, RANGE, l.port)
}

fn try_ranges(f: &Frame, address: &Address, found: u32, l: &Searched) -> Routine {
    f.routine()
        .copy(l.range, l.at)
        .repeat(RANGES, l.ranges, try_range(f, address, found, l))
}

// Says whether 64 bits of the address are those of the rule's network, where they count.
fn same_bits(f: &Frame, bits: u32, offset: u32, test: u32, l: &Searched) -> Routine {
    f.routine()
        .load(l.bits, l.at, long(MASK.saturating_add(offset)))
        .both_bits(l.bits, l.bits, bits)
        .load(l.network, l.at, long(NETWORK.saturating_add(offset)))
        .equal(test, l.bits, l.network)
}

fn try_network(f: &Frame, address: &Address, found: u32, l: &Searched) -> Routine {
    same_bits(f, address.high, 0, l.test, l)
        .part(same_bits(f, address.low, 8, l.other, l))
        .both_bits(l.test, l.test, l.other)
        .when(l.test, try_ranges(f, address, found, l))
}

/// Sets `found` to 1 where some rule of the list allows the address, and else to 0. Seven spare locals of 32 bits are lost, and two of
/// 64 bits.
pub fn find_rule(f: &Frame, rules: ListAt, address: &Address, found: u32) -> Routine {
    let l = Searched::of(f);
    let turn = f
        .routine()
        .load(l.ranges, l.at, number(COUNT))
        .load(l.test, l.at, number(FAMILY))
        .equal(l.test, l.test, address.family)
        .when(l.test, try_network(f, address, found, &l))
        .with(IntOp::Mul, l.ranges, l.ranges, RANGE, l.test)
        .add(l.at, l.at, l.ranges)
        .with(IntOp::Add, l.at, l.at, RULE, l.test);
    f.routine()
        .constant(found, 0)
        .constant(l.at, rules.place as u64)
        .constant(l.count, rules.count as u64)
        .repeat(RULES, l.count, turn)
}
