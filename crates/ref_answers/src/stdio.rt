//! `wasi:cli/stdin`, `stdout` and `stderr` (WASI 0.2), where the policy ignores the stream, and the terminals of streams that are not the
//! host's.

ghost use Rattle.std.specs.Prelude.{◌≡◌, ◌∷◌, []};
ghost use Rattle.wit_types.specs.PlainValue.{PlainValues};
ghost use Rattle.reference_step.specs.State.{View};
ghost use Rattle.reference_step.specs.Stdio as terminals;
ghost use Rattle.reference_step.specs.Rows.{stdin_rows, stdout_rows, stderr_rows};
ghost use Rattle.tree_table.specs.Tables.{Forest};
ghost use Rattle.ref_answers.specs.Shown.{shown};
ghost use Rattle.ref_answers.specs.Found.{found};

use crate::row::{Row, gives, returns};
use crate::values::none;
use ref_rules::Content;

/// The row of a function of wasi:cli/stdin.
pub fn stdin_row(function: &str) -> Row
    ensures { (f : Forest) (v : View) (args : PlainValues) → shown f result ≡ found stdin_rows function.now v args }
{
    if "get-stdin" == function {
        gives(Content::EmptyIn)
    } else {
        Row::Traps
    }
}

/// The row of a function of wasi:cli/stdout.
pub fn stdout_row(function: &str) -> Row
    ensures { (f : Forest) (v : View) (args : PlainValues) → shown f result ≡ found stdout_rows function.now v args }
{
    if "get-stdout" == function {
        gives(Content::Discard)
    } else {
        Row::Traps
    }
}

/// The row of a function of wasi:cli/stderr.
pub fn stderr_row(function: &str) -> Row
    ensures { (f : Forest) (v : View) (args : PlainValues) → shown f result ≡ found stderr_rows function.now v args }
{
    if "get-stderr" == function {
        gives(Content::Discard)
    } else {
        Row::Traps
    }
}

/// The row of the function with this name of wasi:cli/terminal-stdin, -stdout or -stderr.
pub fn terminal_row(name: &str, function: &str) -> Row
    ensures { (f : Forest) (v : View) (args : PlainValues) → shown f result ≡ found ((name.now, λ w a. terminals.get-terminal) ∷ []) function.now v args }
{
    if name == function {
        returns(none())
    } else {
        Row::Traps
    }
}
