//! Rows of streams that equal the reference host's.
ghost use Rattle.std.specs.Prelude.{◌≡◌, ◌<◌, List};
ghost use Rattle.wit_types.specs.Plain.{Name};
ghost use Rattle.policy_data.specs.declared.words.Stream.TheVariants.{Ignore as IgnoredStream};
ghost use Rattle.row_runs.specs.Equals.{Fixed, RowEquals};
ghost use Rattle.row_laws.specs.Laid.{IsLaid};
ghost use Rattle.row_laws.specs.Stdout.{stdout_listed, stdout_row, stdout_widths};
ghost use Rattle.row_laws.specs.Check.{check_listed, check_row, check_widths};

use host_port::Host;

/// `get-stdout`, where the policy ignores the stream: it takes a place, makes a handle for it, and traps where no place is free.
pub fn ignored_stdout_equals<H: Host>()
    ensures { (w : Fixed) (names : List Name) → IsLaid w → w.setup.policy.stdio_stdout ≡ IgnoredStream → RowEquals w H.step (stdout_listed names) (stdout_row w.layout) stdout_widths }
{}

/// `check-write` over any stream: one of the host asks it, and an error of the host becomes a handle of the adapter's own; any other
/// answers 65536.
pub fn check_write_equals<H: Host>()
    ensures { (w : Fixed) (self_name : Name) (names : List Name) → IsLaid w → 0 < w.layout.slots → RowEquals w H.step (check_listed self_name names) (check_row w.layout) check_widths }
{}
