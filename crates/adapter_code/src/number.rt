//! Operators of the table language on numbers of 32 or 64 bits, and numbers of one width as those of the other.

ghost use Rattle.std.specs.Prelude.{◌≡◌, ◌<◌, ◌^◌};
ghost use Rattle.adapter_code.specs.declared.statement.Width.TheVariants.{Narrow, Broad};
ghost use Rattle.adapter_code.specs.Number.{result_of, low as low_of, moved as moved_of, given_by};

use crate::statement::{IntOp, Width};

/// An operator's result.
pub fn apply(op: IntOp, width: Width, x: u64, y: u64) -> u64
    requires x_fits { width ≡ Narrow → x < 2 ^ 32 }
    requires y_fits { width ≡ Narrow → y < 2 ^ 32 }
    ensures value { result ≡ result_of op width x y }
    ensures fits { given_by op width ≡ Narrow → result < 2 ^ 32 }
{
    match op {
        IntOp::Eq => (x == y) as u64,
        IntOp::Ne => (x != y) as u64,
        IntOp::LtU => (x < y) as u64,
        IntOp::LeU => (x <= y) as u64,
        _ => match width {
            Width::Narrow => apply_narrow(op, x as u32, y as u32) as u64,
            Width::Broad => apply_broad(op, x, y),
        },
    }
}

fn apply_narrow(op: IntOp, x: u32, y: u32) -> u32
    requires { given_by op Broad ≡ Broad }
    ensures { result ≡ result_of op Narrow x y }
{
    match op {
        IntOp::Add => x.wrapping_add(y),
        IntOp::Sub => x.wrapping_sub(y),
        IntOp::Mul => x.wrapping_mul(y),
        IntOp::And => x & y,
        IntOp::Or => x | y,
        IntOp::Xor => x ^ y,
        IntOp::Shl => x << (y % 32),
        IntOp::ShrU => x >> (y % 32),
        IntOp::Eq | IntOp::Ne | IntOp::LtU | IntOp::LeU => unreachable!(),
    }
}

fn apply_broad(op: IntOp, x: u64, y: u64) -> u64
    requires { given_by op Broad ≡ Broad }
    ensures { result ≡ result_of op Broad x y }
{
    match op {
        IntOp::Add => x.wrapping_add(y),
        IntOp::Sub => x.wrapping_sub(y),
        IntOp::Mul => x.wrapping_mul(y),
        IntOp::And => x & y,
        IntOp::Or => x | y,
        IntOp::Xor => x ^ y,
        IntOp::Shl => x << (y % 64),
        IntOp::ShrU => x >> (y % 64),
        IntOp::Eq | IntOp::Ne | IntOp::LtU | IntOp::LeU => unreachable!(),
    }
}

/// The low bits, with zeros above.
pub fn moved(to: Width, from: Width, number: u64) -> u64
    requires { from ≡ Narrow → number < 2 ^ 32 }
    ensures value { result ≡ moved_of to from number }
    ensures fits { to ≡ Narrow → result < 2 ^ 32 }
{
    match (to, from) {
        (Width::Narrow, Width::Broad) => number % 0x1_0000_0000,
        _ => number,
    }
}

/// The low bits.
pub fn low(width: Width, number: u64) -> u64
    ensures value { result ≡ low_of width number }
    ensures fits { width ≡ Narrow → result < 2 ^ 32 }
{
    match width {
        Width::Narrow => number % 0x1_0000_0000,
        Width::Broad => number,
    }
}
