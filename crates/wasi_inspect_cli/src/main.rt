//! The program `wasi-inspect`: the machine's files, standard output and words, around one call.
#![tactic(auto)]

mod reasons;

use inspect_engine::{Status, code, wasi_inspect};
use program_parts::{WordsError, words_of};
use real_outside::{RealFiles, RealSink};
use reasons::say_why;
use std::io;
use std::io::BufWriter;
use std::process::ExitCode;
use virt_base::Text;

/// What the words ask for, over the machine's files and standard output.
fn run_words(rt: &HostRuntime, words: &[Text]) -> Status {
    let Ok(writer) = BufWriter::new(rt.alloc(), io::writer(rt)) else {
        return Status::NoMemory;
    };
    let mut files = RealFiles::new(rt);
    let mut out = RealSink::new(writer);
    let status = wasi_inspect(rt.alloc(), words, &mut files, &mut out);
    let status = match out.finish() {
        Ok(()) => status,
        Err(_) => Status::SinkFault,
    };
    // What can not be said to people is no fault.
    let _ = say_why(rt, words, &status, &files);
    status
}

fn main(rt: HostRuntime) -> ExitCode {
    let status = match words_of(&rt) {
        Ok(words) => run_words(&rt, words.as_slice()),
        Err(WordsError::NotUtf8) => Status::Usage,
        Err(WordsError::NoMemory) => Status::NoMemory,
    };
    ExitCode::from(code(&status))
}
