//! The address of a socket, among the arguments or in memory.

use adapter_pass::{Frame, Routine, byte, half};

/// The bits of a number of an IPv4 and of an IPv6 address.
const FOUR_BITS: u64 = 8;

const SIX_BITS: u64 = 16;

/// Where a datagram's parts stand: whether it has an address; the address's case, its port, and the numbers of an IPv4 address, one
/// byte each, or of an IPv6 address, two bytes each.
const SOME: u32 = 8;

const FAMILY: u32 = 12;

const PORT: u32 = 16;

const FOUR_NUMBERS: u32 = 18;

const SIX_NUMBERS: u32 = 24;

/// The locals of an address.
#[derive(Clone, Copy)]
pub struct Address {
    /// 0 for IPv4 and 1 for IPv6; of 32 bits.
    pub family: u32,
    /// Of 32 bits.
    pub port: u32,
    /// Its bits, the low 32 for IPv4: two of 64 bits.
    pub high: u32,
    pub low: u32,
    /// These are lost: one of 32 bits, and two of 64.
    number: u32,
    part: u32,
    width: u32,
}

/// How many pairs of spare locals an address takes.
pub const ADDRESS_PAIRS: u8 = 4;

/// The locals of an address: the first four pairs of spare ones.
pub fn address_of(f: &Frame) -> Address {
    Address {
        family: f.spare.narrow(0),
        port: f.spare.narrow(1),
        number: f.spare.narrow(2),
        high: f.spare.broad(0),
        low: f.spare.broad(1),
        part: f.spare.broad(2),
        width: f.spare.broad(3),
    }
}

// Puts a number after others.
fn append(f: &Frame, number: u32, to: u32, l: &Address) -> Routine {
    f.routine()
        .shift_left(to, to, l.width)
        .copy(l.part, number)
        .either_bits(to, to, l.part)
}

// Four numbers that stand in locals from one on, of that many bits each.
fn four_locals(f: &Frame, from: u32, bits: u64, to: u32, l: &Address) -> Routine {
    let mut routine = f.routine().constant(to, 0).constant(l.width, bits);
    for i in 0u32..4 {
        routine = routine.part(append(f, from.saturating_add(i), to, l));
    }
    routine
}

// Among the arguments: the case, the port, and then four numbers; or the flow's number, eight numbers, and the scope's.
fn flat_six(f: &Frame, from: u32, l: &Address) -> Routine {
    four_locals(f, from.saturating_add(3), SIX_BITS, l.high, l).part(four_locals(
        f,
        from.saturating_add(7),
        SIX_BITS,
        l.low,
        l,
    ))
}

fn flat_four(f: &Frame, from: u32, l: &Address) -> Routine {
    four_locals(f, from.saturating_add(2), FOUR_BITS, l.low, l).constant(l.high, 0)
}

/// Reads the address that stands in the arguments from a local on.
pub fn flat_address(f: &Frame, from: u32, l: &Address) -> Routine {
    f.routine()
        .copy(l.family, from)
        .copy(l.port, from.saturating_add(1))
        .choose(l.family, flat_six(f, from, l), flat_four(f, from, l))
}

fn four_bytes(f: &Frame, at: u32, l: &Address) -> Routine {
    let mut routine = f
        .routine()
        .constant(l.high, 0)
        .constant(l.low, 0)
        .constant(l.width, FOUR_BITS);
    for i in 0u32..4 {
        routine = routine
            .load(l.number, at, byte(FOUR_NUMBERS + i))
            .part(append(f, l.number, l.low, l));
    }
    routine
}

fn four_halves(f: &Frame, at: u32, offset: u32, to: u32, l: &Address) -> Routine {
    let mut routine = f.routine().constant(to, 0).constant(l.width, SIX_BITS);
    for i in 0u32..4 {
        let number = half(offset.saturating_add(2 * i));
        routine = routine
            .load(l.number, at, number)
            .part(append(f, l.number, to, l));
    }
    routine
}

fn eight_halves(f: &Frame, at: u32, l: &Address) -> Routine {
    four_halves(f, at, SIX_NUMBERS, l.high, l).part(four_halves(f, at, SIX_NUMBERS + 8, l.low, l))
}

/// Says in a local of 32 bits whether the datagram at a place has an address.
pub fn has_address(f: &Frame, at: u32, some: u32) -> Routine {
    f.routine().load(some, at, byte(SOME))
}

/// Reads the address of the datagram at a place, which has one.
pub fn datagram_address(f: &Frame, at: u32, l: &Address) -> Routine {
    f.routine()
        .load(l.family, at, byte(FAMILY))
        .load(l.port, at, half(PORT))
        .choose(l.family, eight_halves(f, at, l), four_bytes(f, at, l))
}
