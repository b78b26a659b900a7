//! Bytes that are copied, moved and cleared. Each routine changes the locals that it is given, and loses the first three spare pairs.

use crate::names::LOOP;
use adapter_code::IntOp;
use adapter_pass::{Frame, Routine, byte, long};

// Copies that many words of 64 bits.
fn words(f: &Frame, to: u32, from: u32, count: u8) -> Routine {
    let word = f.spare.broad(0);
    let mut routine = f.routine();
    for i in 0..count {
        let field = long(8 * i as u32);
        routine = routine.load(word, from, field).store(word, to, field);
    }
    routine
}

// Writes a word of 64 bits so often, one after the other.
fn same_words(f: &Frame, word: u32, to: u32, count: u8) -> Routine {
    let mut routine = f.routine();
    for i in 0..count {
        routine = routine.store(word, to, long(8 * i as u32));
    }
    routine
}

/// Copies that many bytes to a place that they don't overlap.
pub fn copy_bytes(f: &Frame, to: u32, from: u32, count: u32) -> Routine {
    let turns = f.spare.narrow(0);
    let step = f.spare.narrow(1);
    let letter = f.spare.narrow(2);
    let four = words(f, to, from, 4)
        .add(from, from, step)
        .add(to, to, step);
    let one = f
        .routine()
        .load(letter, from, byte(0))
        .store(letter, to, byte(0))
        .add(from, from, step)
        .add(to, to, step);
    f.routine()
        .with(IntOp::ShrU, turns, count, 5, f.scratch)
        .constant(step, 32)
        .repeat(LOOP, turns, four)
        .with(IntOp::And, count, count, 31, f.scratch)
        .constant(step, 1)
        .repeat(LOOP, count, one)
}

/// Sets that many bytes to zero.
pub fn clear_bytes(f: &Frame, at: u32, count: u32) -> Routine {
    let turns = f.spare.narrow(0);
    let step = f.spare.narrow(1);
    let word = f.spare.broad(0);
    let eight = same_words(f, word, at, 8).add(at, at, step);
    let one = f.routine().store(word, at, byte(0)).add(at, at, step);
    f.routine()
        .constant(word, 0)
        .with(IntOp::ShrU, turns, count, 6, f.scratch)
        .constant(step, 64)
        .repeat(LOOP, turns, eight)
        .with(IntOp::And, count, count, 63, f.scratch)
        .constant(step, 1)
        .repeat(LOOP, count, one)
}

/// Moves whole blocks to a lesser place, the first words first. `count` stays.
pub fn move_down(f: &Frame, to: u32, from: u32, count: u32) -> Routine {
    let turns = f.spare.narrow(0);
    let step = f.spare.narrow(1);
    let eight = words(f, to, from, 8)
        .add(from, from, step)
        .add(to, to, step);
    f.routine()
        .with(IntOp::ShrU, turns, count, 6, f.scratch)
        .constant(step, 64)
        .repeat(LOOP, turns, eight)
}

/// Moves whole blocks to a greater place, the last words first. `count` stays.
pub fn move_up(f: &Frame, to: u32, from: u32, count: u32) -> Routine {
    let turns = f.spare.narrow(0);
    let step = f.spare.narrow(1);
    let eight = f
        .routine()
        .subtract(from, from, step)
        .subtract(to, to, step)
        .part(words(f, to, from, 8));
    f.routine()
        .with(IntOp::ShrU, turns, count, 6, f.scratch)
        .constant(step, 64)
        .add(from, from, count)
        .add(to, to, count)
        .repeat(LOOP, turns, eight)
}
