//! How many calls are in progress, and the most that may be.

ghost use Rattle.std.specs.Prelude.{◌≡◌, ◌≤◌, ◌+◌, IfSome, IfNone};

/// The most calls in progress.
const MOST_CALLS: u32 = 65_536;

/// How many calls are in progress.
#[derive(Debug, Clone, Copy)]
pub struct Depth {
    pub calls: u32,
    pub ghost few: { calls ≤ 65536 },
}

impl Depth {
    /// None is in progress.
    pub fn none() -> Depth
        ensures { result.calls ≡ 0 }
    {
        Depth { calls: 0 }
    }

    /// One more than that many, unless these are the most.
    pub fn above(calls: u32) -> Option<Depth>
        ensures deeper { IfSome result (λ depth. depth.calls ≡ calls + 1) }
        ensures full { IfNone result (65536 ≤ calls) }
    {
        if calls < MOST_CALLS {
            Some(Depth { calls: calls + 1 })
        } else {
            None
        }
    }
}
