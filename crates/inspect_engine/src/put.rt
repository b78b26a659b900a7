//! Putting text on the sink, and a refusal's text where memory allows.

ghost use Rattle.std.specs.Prelude.{◌≡◌, string_bytes};
ghost use Rattle.inspect_engine.specs.Inspected.{Puts, Reports};
ghost use Rattle.inspect_engine.specs.Status.{status_text};

use crate::line::line_of;
use crate::status::Status;
use outside::Sink;
use std::alloc::Global;

/// Puts the text of a status that is due.
pub fn put_text<S: Sink>(text: String, due: Status, out: &mut S) -> Status
    ensures { Puts due (string_bytes text) (S.state out.old) (S.state out.new) result }
{
    match out.put(text.as_bytes()) {
        Ok(()) => due,
        Err(_) => Status::SinkFault,
    }
}

/// Puts the text of a refusal; nothing where memory runs out, or ran out before.
pub fn refuse<S: Sink>(alloc: Global, due: Status, out: &mut S) -> Status
    ensures report { Reports due (status_text due) (S.state out.old) (S.state out.new) result }
    ensures silent { result ≡ Status.NoMemory → S.state out.new ≡ S.state out.old }
{
    match due {
        Status::NoMemory => Status::NoMemory,
        due => match line_of(alloc, &due) {
            Ok(text) => put_text(text, due, out),
            Err(_) => Status::NoMemory,
        },
    }
}
