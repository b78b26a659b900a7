//! The counts of a run: the calls of the host, and the sum of the numbers that called functions returned.

ghost use Rattle.std.specs.Prelude.{◌≡◌, OnOk, map};
ghost use Rattle.wit_types.specs.PlainValue.{plain_value};
ghost use Rattle.host_port.specs.Calls.{plain_observation, plain_option};
ghost use Rattle.virt_engine.specs.Tallies.{and_number, and_result, and_seen, and_value, all_seen, none_counted};

use host_port::Observation;
use virt_base::NoMemory;
use wit_types::Value;

/// What is counted of a run: the calls of the host, and the numbers that called functions returned, added modulo 2^64.
#[derive(Debug, Clone, Copy)]
pub struct Tally {
    pub calls: u64,
    pub sum: u64,
}

/// With a number added.
fn and_number(tally: Tally, number: i128) -> Tally
    ensures { result ≡ and_number tally number }
{
    match u64::try_from(number) {
        Ok(number) => Tally {
            calls: tally.calls,
            sum: tally.sum.wrapping_add(number),
        },
        Err(_) => tally,
    }
}

/// With a value, where it is a number.
#[tactic(auto, using(crate::proofs::Counting::of_number, crate::proofs::Counting::of_another))]
fn and_value(tally: Tally, value: &Value) -> Tally
    ensures { result ≡ and_value tally (plain_value value.now) }
{
    match value {
        Value::Int(number) => and_number(tally, *number),
        _ => tally,
    }
}

/// With the result of a called function.
fn and_result(tally: Tally, value: &Option<Value>) -> Tally
    ensures { result ≡ and_result tally (plain_option value.now) }
{
    match value {
        Some(value) => and_value(tally, value),
        None => tally,
    }
}

impl Tally {
    /// Nothing is counted yet.
    pub fn none() -> Tally
        ensures { result ≡ none_counted }
    {
        Tally { calls: 0, sum: 0 }
    }

    /// Counts what is seen. More calls than 64 bits can count are taken as out of memory.
    pub fn count(&mut self, seen: &Observation) -> Result<(), NoMemory>
        ensures { OnOk result (self.new ≡ and_seen self.old (plain_observation seen.now)) }
    {
        match seen {
            Observation::Called(_) => match self.calls.checked_add(1) {
                Some(calls) => self.calls = calls,
                None => return Err(NoMemory),
            },
            Observation::Returned(value) => *self = and_result(*self, value),
            _ => {}
        }
        Ok(())
    }

    /// Counts all that is seen.
    pub fn count_all(&mut self, seen: &[Observation]) -> Result<(), NoMemory>
        ensures { OnOk result (self.new ≡ all_seen self.old (map plain_observation seen.now)) }
    {
        for observation in seen {
            self.count(observation)?;
        }
        Ok(())
    }
}
