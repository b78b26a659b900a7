//! Rows of the clocks that equal the reference host's.
ghost use Rattle.std.specs.Prelude.{◌≡◌, ◌<◌, ◌^◌, ℕ, List, codes};
ghost use Rattle.wit_types.specs.Plain.{Name};
ghost use Rattle.policy_data.specs.declared.data.MonotonicClock.TheVariants.{Fixed as FixedMonotonic};
ghost use Rattle.policy_data.specs.declared.data.WallTime.{WallTime};
ghost use Rattle.policy_data.specs.declared.data.WallClock.TheVariants.{Fixed as FixedWall};
ghost use Rattle.row_runs.specs.Equals.{Fixed, RowEquals};
ghost use Rattle.row_laws.specs.Now.{now_listed, now_row, now_widths};
ghost use Rattle.row_laws.specs.Wall.{wall_listed, wall_row, wall_widths};

use host_port::Host;

/// `now` of the monotonic clock, where the policy fixes it.
pub fn fixed_now_equals<H: Host>()
    ensures { (w : Fixed) (n : ℕ) (names : List Name) → n < 2 ^ 64 → w.setup.policy.clocks_monotonic ≡ FixedMonotonic n → RowEquals w H.step (now_listed names) (now_row n) now_widths }
{}

/// `now` of the wall clock, where the policy fixes it: a value that goes through memory.
pub fn fixed_wall_now_equals<H: Host>()
    ensures { (w : Fixed) (t : WallTime) (names : List Name) → t.seconds < 2 ^ 64 → t.nanoseconds < 2 ^ 32 → w.setup.policy.clocks_wall ≡ FixedWall t → RowEquals w H.step (wall_listed (codes "now") names) (wall_row t.seconds t.nanoseconds) wall_widths }
{}

/// `resolution` of the wall clock, where the policy fixes it.
pub fn fixed_wall_resolution_equals<H: Host>()
    ensures { (w : Fixed) (t : WallTime) (names : List Name) → w.setup.policy.clocks_wall ≡ FixedWall t → RowEquals w H.step (wall_listed (codes "resolution") names) (wall_row 0 1) wall_widths }
{}
