//! The numbers of a policy are within their words, which the numbers do not tell themselves.

ghost use Rattle.std.specs.Prelude.{◌<◌, ◌^◌};
ghost use Rattle.reference_step.specs.Clocks.{instant};
ghost use Rattle.reference_host.specs.Sound.{IsSoundClock};
ghost use Rattle.reference_host.specs.Words.{HasWords};

use policy_data::{MonotonicClock, Policy, WallClock};

fn word(number: u32)
    ensures { number < 2 ^ 32 }
{
    let _number = number;
}

fn long_word(number: u64)
    ensures { number < 2 ^ 64 }
{
    let _number = number;
}

fn wall_has_words(clock: WallClock)
    ensures { IsSoundClock clock }
{
    match clock {
        WallClock::Fixed(time) => {
            long_word(time.seconds);
            word(time.nanoseconds);
        }
        WallClock::Allow => {}
        WallClock::Deny => {}
    }
}

fn monotonic_has_words(clock: MonotonicClock)
    ensures { instant clock < 2 ^ 64 }
{
    match clock {
        MonotonicClock::Fixed(nanoseconds) => long_word(nanoseconds),
        MonotonicClock::Allow => {}
        MonotonicClock::Deny => {}
    }
}

/// A policy's numbers are within their words. It does nothing when it runs.
pub fn policy_has_words(policy: &Policy)
    ensures { HasWords policy.now }
{
    word(policy.transfer_limit);
    wall_has_words(policy.clocks_wall);
    monotonic_has_words(policy.clocks_monotonic);
}
