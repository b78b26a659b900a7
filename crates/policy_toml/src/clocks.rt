//! The table `clocks` of a policy: its wall clock and its monotonic clock.

ghost use Rattle.policy_toml.specs.Clocks.{clocks_keys, clocks_of, monotonic_in, time_keys, time_of, wall_in};

use crate::keys::bad_value;
use crate::reader::{Known, Reader, TableReader, optional, required};
use crate::values::{Natural, Number};
use policy_data::{MonotonicClock, ReadPolicyFault, WallClock, WallTime, Word};
use std::alloc::Global;
use toml::{Table, Value};

/// What `clocks` says.
#[derive(Debug, Drop)]
pub struct Clocks {
    pub wall: WallClock,
    pub monotonic: MonotonicClock,
}

#[derive(Drop)]
pub struct ClocksReader;

impl TableReader for ClocksReader {
    type Item = Clocks;

    ghost known = { λ _. clocks_keys };

    ghost fields = { λ _. clocks_of };

    fn known(&self) -> &'static [&'static str] {
        &["wall", "monotonic"]
    }

    fn fields(&self, alloc: Global, path: &str, table: &Table) -> Result<Clocks, ReadPolicyFault> {
        let wall = optional(alloc, path, "wall", WallClock::Deny, &WallReader, table)?;
        let monotonic = optional(
            alloc,
            path,
            "monotonic",
            MonotonicClock::Deny,
            &MonotonicReader,
            table,
        )?;
        Ok(Clocks { wall, monotonic })
    }
}

#[derive(Drop)]
struct WallReader;

impl Reader for WallReader {
    type Item = WallClock;

    ghost reads = { λ _. wall_in };

    fn read(&self, alloc: Global, path: &str, value: &Value) -> Result<WallClock, ReadPolicyFault> {
        match value.as_str() {
            Some(word) => match WallClock::named(word) {
                Some(clock) => Ok(clock),
                None => bad_value(alloc, path),
            },
            None => {
                let time = Known(TimeReader).read(alloc, path, value)?;
                Ok(WallClock::Fixed(time))
            }
        }
    }
}

#[derive(Drop)]
struct TimeReader;

impl TableReader for TimeReader {
    type Item = WallTime;

    ghost known = { λ _. time_keys };

    ghost fields = { λ _. time_of };

    fn known(&self) -> &'static [&'static str] {
        &["seconds", "nanoseconds"]
    }

    fn fields(
        &self,
        alloc: Global,
        path: &str,
        table: &Table,
    ) -> Result<WallTime, ReadPolicyFault> {
        let seconds = required(alloc, path, "seconds", &Natural, table)?;
        let below_a_second = Number {
            least: 0,
            greatest: 999_999_999,
        };
        let nanoseconds = required(alloc, path, "nanoseconds", &below_a_second, table)?;
        Ok(WallTime {
            seconds,
            nanoseconds,
        })
    }
}

#[derive(Drop)]
struct MonotonicReader;

impl Reader for MonotonicReader {
    type Item = MonotonicClock;

    ghost reads = { λ _. monotonic_in };

    fn read(
        &self,
        alloc: Global,
        path: &str,
        value: &Value,
    ) -> Result<MonotonicClock, ReadPolicyFault> {
        match value.as_str() {
            Some(word) => match MonotonicClock::named(word) {
                Some(clock) => Ok(clock),
                None => bad_value(alloc, path),
            },
            None => {
                let nanoseconds = Natural.read(alloc, path, value)?;
                Ok(MonotonicClock::Fixed(nanoseconds))
            }
        }
    }
}
