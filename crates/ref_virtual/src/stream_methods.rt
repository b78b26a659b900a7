//! The methods of wasi:io/streams by their WIT names.

ghost use Rattle.std.specs.Prelude.{◌≡◌};
ghost use Rattle.wit_types.specs.PlainValue.{PlainValues};
ghost use Rattle.reference_step.specs.State.{View};
ghost use Rattle.reference_step.specs.Rows.{stream_rows, handle};
ghost use Rattle.ref_answers.specs.Found.{found};
ghost use Rattle.ref_virtual.specs.Methods.{stream_row, row_by};

use crate::named::method_among;

/// A method of `input-stream`; one that blocks does what the other does.
#[derive(Debug, Clone, Copy, PartialEq, Eq)]
pub enum InputMethod {
    Read,
    Skip,
    Subscribe,
}

/// A method of `output-stream`; one that blocks does what the other does.
#[derive(Debug, Clone, Copy, PartialEq, Eq)]
pub enum OutputMethod {
    CheckWrite,
    Write,
    Flush,
    WriteZeroes,
    Splice,
    Subscribe,
}

/// A method of a stream.
#[derive(Debug, Clone, Copy, PartialEq, Eq)]
pub enum StreamMethod {
    Input(InputMethod),
    Output(OutputMethod),
}

const METHODS: [(&str, StreamMethod); 15] = [
    (
        "[method]input-stream.read",
        StreamMethod::Input(InputMethod::Read),
    ),
    (
        "[method]input-stream.blocking-read",
        StreamMethod::Input(InputMethod::Read),
    ),
    (
        "[method]input-stream.skip",
        StreamMethod::Input(InputMethod::Skip),
    ),
    (
        "[method]input-stream.blocking-skip",
        StreamMethod::Input(InputMethod::Skip),
    ),
    (
        "[method]input-stream.subscribe",
        StreamMethod::Input(InputMethod::Subscribe),
    ),
    (
        "[method]output-stream.check-write",
        StreamMethod::Output(OutputMethod::CheckWrite),
    ),
    (
        "[method]output-stream.write",
        StreamMethod::Output(OutputMethod::Write),
    ),
    (
        "[method]output-stream.blocking-write-and-flush",
        StreamMethod::Output(OutputMethod::Write),
    ),
    (
        "[method]output-stream.flush",
        StreamMethod::Output(OutputMethod::Flush),
    ),
    (
        "[method]output-stream.blocking-flush",
        StreamMethod::Output(OutputMethod::Flush),
    ),
    (
        "[method]output-stream.subscribe",
        StreamMethod::Output(OutputMethod::Subscribe),
    ),
    (
        "[method]output-stream.write-zeroes",
        StreamMethod::Output(OutputMethod::WriteZeroes),
    ),
    (
        "[method]output-stream.blocking-write-zeroes-and-flush",
        StreamMethod::Output(OutputMethod::WriteZeroes),
    ),
    (
        "[method]output-stream.splice",
        StreamMethod::Output(OutputMethod::Splice),
    ),
    (
        "[method]output-stream.blocking-splice",
        StreamMethod::Output(OutputMethod::Splice),
    ),
];

/// The method of a WIT name; without one the function traps.
pub fn stream_method_named(function: &str) -> Option<StreamMethod>
    ensures { (v : View) (args : PlainValues) → found stream_rows function.now v args ≡ row_by stream_row result v (handle v 0 args) args }
{
    method_among(&METHODS, function)
}
