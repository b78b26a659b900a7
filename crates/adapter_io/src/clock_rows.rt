//! Clocks that stand still.

use crate::stream_rows::always;
use adapter_pass::{Frame, Routine, long, number};
use policy_data::WallTime;

/// What a clock that stands still gives as its resolution, in nanoseconds.
const RESOLUTION: WallTime = WallTime {
    seconds: 0,
    nanoseconds: 1,
};

fn datetime(f: &Frame, time: WallTime) -> Routine {
    f.routine()
        .store_value(time.seconds, f.at, long(0), f.scratch_long)
        .store_value(time.nanoseconds as u64, f.at, number(8), f.scratch)
        .part(f.done())
}

/// `now` and `resolution` of a wall clock that stands at a time.
pub fn wall_clock(f: &Frame, time: WallTime, name: &str) -> Routine {
    if name == "now" {
        datetime(f, time)
    } else {
        datetime(f, RESOLUTION)
    }
}

/// The functions of a monotonic clock that stands at that many nanoseconds: each time that is waited for has come.
pub fn monotonic_clock(f: &Frame, nanoseconds: u64, name: &str) -> Routine {
    if name == "now" {
        f.flat_value(nanoseconds)
    } else if name == "resolution" {
        f.flat_value(RESOLUTION.nanoseconds as u64)
    } else {
        always(f)
    }
}
