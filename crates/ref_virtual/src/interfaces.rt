//! The interfaces of WASI 0.2 whose functions are answered without the host, by their numbers, and the rows of those whose functions take
//! no handles.

ghost use Rattle.std.specs.Prelude.{◌≡◌, IfOk, [], slice_index_or};
ghost use Rattle.wit_types.specs.PlainValue.{PlainValues};
ghost use Rattle.tree_table.specs.Tables.{Forest};
ghost use Rattle.reference_step.specs.Rows.{all_rows};
ghost use Rattle.reference_step.specs.State.{View};
ghost use Rattle.ref_answers.specs.Found.{found};
ghost use Rattle.ref_answers.specs.Shown.{shown};
ghost use Rattle.ref_virtual.specs.Interfaces.{handleless_rows, rows_of};

use policy_data::Policy;
use ref_answers::{
    Row, environment_row, monotonic_row, stderr_row, stdin_row, stdout_row, terminal_row, wall_row,
};
use std::alloc::Global;
use virt_base::NoMemory;

/// An interface whose functions take no handles.
#[derive(Debug, Clone, Copy, PartialEq, Eq)]
pub enum Handleless {
    Environment,
    Stdin,
    Stdout,
    Stderr,
    TerminalStdin,
    TerminalStdout,
    TerminalStderr,
    WallClock,
    MonotonicClock,
}

/// An interface, by whose handles its functions go.
#[derive(Debug, Clone, Copy, PartialEq, Eq)]
pub enum Interface {
    /// None of its functions is answered without the host by a row.
    Rowless,
    Handleless(Handleless),
    Poll,
    Streams,
    FilesystemTypes,
}

/// The interfaces by their numbers.
const INTERFACES: [Interface; 19] = [
    // wasi:io/error, poll, streams
    Interface::Rowless,
    Interface::Poll,
    Interface::Streams,
    // wasi:cli/environment, exit, stdin, stdout, stderr
    Interface::Handleless(Handleless::Environment),
    Interface::Rowless,
    Interface::Handleless(Handleless::Stdin),
    Interface::Handleless(Handleless::Stdout),
    Interface::Handleless(Handleless::Stderr),
    // wasi:cli/terminal-input, terminal-output, terminal-stdin, terminal-stdout, terminal-stderr
    Interface::Rowless,
    Interface::Rowless,
    Interface::Handleless(Handleless::TerminalStdin),
    Interface::Handleless(Handleless::TerminalStdout),
    Interface::Handleless(Handleless::TerminalStderr),
    // wasi:clocks/wall-clock, monotonic-clock
    Interface::Handleless(Handleless::WallClock),
    Interface::Handleless(Handleless::MonotonicClock),
    // wasi:random/random, insecure, insecure-seed
    Interface::Rowless,
    Interface::Rowless,
    Interface::Rowless,
    // wasi:filesystem/types
    Interface::FilesystemTypes,
];

/// The interface of a number; wasi:filesystem/preopens and those of wasi:sockets have no rows.
pub fn interface_at(number: u32) -> Interface
    ensures { rows_of result ≡ slice_index_or all_rows number [] }
{
    let number = number as usize;
    if number < INTERFACES.len() {
        INTERFACES[number]
    } else {
        Interface::Rowless
    }
}

/// The row of a function of an interface whose functions take no handles.
pub fn handleless_row(
    alloc: Global,
    policy: &Policy,
    interface: Handleless,
    function: &str,
) -> Result<Row, NoMemory>
    ensures { IfOk result (λ row. (f : Forest) (v : View) (args : PlainValues) → shown f row ≡ found (handleless_rows interface) function.now (record v { policy = policy.now }) args) }
{
    match interface {
        Handleless::Environment => environment_row(alloc, policy, function),
        Handleless::Stdin => Ok(stdin_row(function)),
        Handleless::Stdout => Ok(stdout_row(function)),
        Handleless::Stderr => Ok(stderr_row(function)),
        Handleless::TerminalStdin => Ok(terminal_row("get-terminal-stdin", function)),
        Handleless::TerminalStdout => Ok(terminal_row("get-terminal-stdout", function)),
        Handleless::TerminalStderr => Ok(terminal_row("get-terminal-stderr", function)),
        Handleless::WallClock => wall_row(alloc, policy, function),
        Handleless::MonotonicClock => Ok(monotonic_row(policy, function)),
    }
}
