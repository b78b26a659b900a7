//! The name that a path gives to a file.

use crate::locals::Led;
use crate::names::LOOP;
use adapter_code::IntOp;
use adapter_pass::{Frame, Routine, byte, fs_code};

/// The most bytes of a name.
const MOST: u64 = 255;

/// Ends the row with an error where a path that leads nowhere gives no new name: of one name alone, of at most 255 bytes, without a
/// byte 0. Three spare locals of 32 bits are lost.
pub fn check_name(f: &Frame, led: Led) -> Routine {
    let at = f.spare.narrow(0);
    let letter = f.spare.narrow(1);
    let one = f.spare.narrow(2);
    let body = f
        .routine()
        .load(letter, at, byte(0))
        .unless(letter, f.err(fs_code::ILLEGAL_BYTE_SEQUENCE))
        .add(at, at, one);
    f.routine()
        .unless(led.fresh, f.err(fs_code::NO_ENTRY))
        .with(IntOp::LeU, letter, led.part.length, MOST, f.scratch)
        .unless(letter, f.err(fs_code::NAME_TOO_LONG))
        .copy(at, led.part.place)
        .constant(one, 1)
        .repeat(LOOP, led.part.length, body)
}
