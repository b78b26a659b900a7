//! The text of a refusal, one line.

ghost use Rattle.std.specs.Prelude.{◌≡◌, IfOk, string_bytes};
ghost use Rattle.inspect_engine.specs.Status.{status_text};

use crate::status::Status;
use std::alloc::{AllocError, Global};
use virt_words::{app_line, policy_line};

const USAGE: &str = "usage: wasi-inspect COMPONENT [-p POLICY]\n";

/// The text of a status that is no success.
pub fn line_of(alloc: Global, status: &Status) -> Result<String, AllocError>
    ensures { IfOk result (λ text. string_bytes text ≡ status_text status.now) }
{
    match status {
        Status::PolicyRefused(fault) => {
            let fault = policy_line(alloc, fault)?;
            format!(in alloc; "policy refused: {fault}\n")
        }
        Status::ComponentRefused(fault) => {
            let fault = app_line(alloc, fault)?;
            format!(in alloc; "application refused: {fault}\n")
        }
        Status::FileFault(name) => {
            let name = name.as_str();
            format!(in alloc; "file fault: {name}\n")
        }
        Status::OverLimit(what, value) => {
            let what = what.as_str();
            format!(in alloc; "over limit: {what} {value}\n")
        }
        Status::Usage => String::from_str(alloc, USAGE),
        Status::Done | Status::SinkFault | Status::NoMemory => Ok(String::new(alloc)),
    }
}
