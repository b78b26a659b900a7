//! `wasi:clocks/wall-clock` and `wasi:clocks/monotonic-clock` (WASI 0.2), where the policy fixes the clock.

ghost use Rattle.std.specs.Prelude.{◌≡◌, IfOk};
ghost use Rattle.wit_types.specs.PlainValue.{plain_value, PlainValues};
ghost use Rattle.reference_step.specs.Clocks.{datetime, wall_time, instant};
ghost use Rattle.reference_step.specs.State.{View};
ghost use Rattle.reference_step.specs.Rows.{wall_rows, monotonic_rows};
ghost use Rattle.tree_table.specs.Tables.{Forest};
ghost use Rattle.ref_answers.specs.Shown.{shown};
ghost use Rattle.ref_answers.specs.Found.{found};

use crate::row::{Row, gives, returns};
use crate::values::{number, pair};
use policy_data::{MonotonicClock, Policy, WallClock};
use ref_rules::Content;
use std::alloc::Global;
use virt_base::NoMemory;
use wit_types::Value;

fn datetime(alloc: Global, seconds: u64, nanoseconds: u32) -> Result<Value, NoMemory>
    ensures { IfOk result (λ v. plain_value v ≡ datetime seconds nanoseconds) }
{
    pair(alloc, number(seconds), number(u64::from(nanoseconds)))
}

fn wall_time(alloc: Global, clock: WallClock) -> Result<Value, NoMemory>
    ensures { IfOk result (λ v. plain_value v ≡ wall_time clock) }
{
    match clock {
        WallClock::Fixed(time) => datetime(alloc, time.seconds, time.nanoseconds),
        WallClock::Allow => datetime(alloc, 0, 0),
        WallClock::Deny => datetime(alloc, 0, 0),
    }
}

/// The row of a function of wasi:clocks/wall-clock.
pub fn wall_row(alloc: Global, policy: &Policy, function: &str) -> Result<Row, NoMemory>
    ensures { IfOk result (λ row. (f : Forest) (v : View) (args : PlainValues) → shown f row ≡ found wall_rows function.now (record v { policy = policy.now }) args) }
{
    if "now" == function {
        Ok(returns(wall_time(alloc, policy.clocks_wall)?))
    } else if "resolution" == function {
        Ok(returns(datetime(alloc, 0, 1)?))
    } else {
        Ok(Row::Traps)
    }
}

fn instant(clock: MonotonicClock) -> u64
    ensures { result ≡ instant clock }
{
    match clock {
        MonotonicClock::Fixed(n) => n,
        MonotonicClock::Allow => 0,
        MonotonicClock::Deny => 0,
    }
}

/// The row of a function of wasi:clocks/monotonic-clock, which takes no memory.
pub fn monotonic_row(policy: &Policy, function: &str) -> Row
    ensures { (f : Forest) (v : View) (args : PlainValues) → shown f result ≡ found monotonic_rows function.now (record v { policy = policy.now }) args }
{
    if "now" == function {
        returns(number(instant(policy.clocks_monotonic)))
    } else if "resolution" == function {
        returns(number(1))
    } else if "subscribe-instant" == function {
        gives(Content::Always)
    } else if "subscribe-duration" == function {
        gives(Content::Always)
    } else {
        Row::Traps
    }
}
