//! The text of each status that has one, and the usage text. Each is one line.

ghost use Rattle.std.specs.Prelude.{◌≡◌, IfOk, string_bytes};
ghost use Rattle.virt_engine.specs.Line.{plug_text, done_text, status_text};

use crate::status::{PlugFault, Status};
use std::alloc::{AllocError, Global};
use virt_words::{app_line, policy_line};

fn plug_line(alloc: Global, fault: &PlugFault) -> Result<String, AllocError>
    ensures { IfOk result (λ text. string_bytes text ≡ plug_text fault.now) }
{
    match fault {
        PlugFault::First(fault) => {
            let fault = app_line(alloc, fault)?;
            format!(in alloc; "first {fault}")
        }
        PlugFault::Second(fault) => {
            let fault = app_line(alloc, fault)?;
            format!(in alloc; "second {fault}")
        }
        PlugFault::NothingMet => String::from_str(alloc, "nothing met"),
    }
}

/// The line of a call that wrote an output: how many bytes it read and wrote, and how many functions the output imports.
pub fn done_line(
    alloc: Global,
    in_bytes: usize,
    out_bytes: usize,
    functions: usize,
) -> Result<String, AllocError>
    ensures { IfOk result (λ text. string_bytes text ≡ done_text in_bytes out_bytes functions) }
{
    format!(in alloc;
        "done: {in_bytes} bytes in, {out_bytes} bytes out, {functions} functions imported\n"
    )
}

const USAGE: &str =
    "usage: wasi-virt virt APP -p POLICY -o OUT; run COMPONENT -s SCRIPT [-p POLICY] [--steps N]; gen N OUT; plug A B -p POLICY -o OUT\n";

/// The text of a status that is no success.
pub fn line_of(alloc: Global, status: &Status) -> Result<String, AllocError>
    ensures { IfOk result (λ text. string_bytes text ≡ status_text status.now) }
{
    match status {
        Status::PolicyRefused(fault) => {
            let fault = policy_line(alloc, fault)?;
            format!(in alloc; "policy refused: {fault}\n")
        }
        Status::AppRefused(fault) => {
            let fault = app_line(alloc, fault)?;
            format!(in alloc; "application refused: {fault}\n")
        }
        Status::FileFault(name) => {
            let name = name.as_str();
            format!(in alloc; "file fault: {name}\n")
        }
        Status::OverLimit(what, value) => {
            let what = what.as_str();
            format!(in alloc; "over limit: {what} {value}\n")
        }
        Status::ScriptRefused(path) => {
            let path = path.as_str();
            format!(in alloc; "script refused: {path}\n")
        }
        Status::Usage => String::from_str(alloc, USAGE),
        Status::PlugRefused(fault) => {
            let fault = plug_line(alloc, fault)?;
            format!(in alloc; "plug refused: {fault}\n")
        }
        Status::Done
        | Status::SinkFault
        | Status::NoMemory
        | Status::Trapped
        | Status::ScriptEnded
        | Status::StepsSpent
        | Status::BadAnswer
        | Status::TooDeep => Ok(String::new(alloc)),
    }
}
