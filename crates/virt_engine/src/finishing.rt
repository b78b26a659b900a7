//! The last part of each call that writes an output: the file is written, and the line of its end is put.

ghost use Rattle.virt_engine.specs.Plan.{Finishes};

use crate::plan::Ready;
use crate::report::put_text;
use crate::status::Status;
use crate::write_out::write_out;
use outside::{Files, Sink};
use virt_base::Text;

/// Writes the output, and puts the text of what came of it.
pub fn finish<F: Files, S: Sink>(ready: Ready, name: &Text, files: &mut F, out: &mut S) -> Status
    ensures { Finishes name.now ready (F.state files.old) (F.state files.new) (S.state out.old) (S.state out.new) result }
{
    let Ready {
        front,
        app,
        back,
        done_line,
        fault,
        fault_line,
    } = ready;
    match write_out(
        name,
        front.as_slice(),
        app.as_slice(),
        back.as_slice(),
        files,
    ) {
        Ok(()) => put_text(done_line, Status::Done, out),
        Err(_) => put_text(fault_line, fault, out),
    }
}
