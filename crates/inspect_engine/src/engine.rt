//! One call of the program, from its words to its status.

ghost use Rattle.inspect_engine.specs.Inspected.{Accepts, Inspected, InspectedFor, Inspects};

use crate::policy::fetch_asked;
use crate::put::{put_text, refuse};
use crate::report::report_for;
use crate::status::Status;
use component_judge::fetch_wrapped;
use outside::{Files, Sink};
use std::alloc::Global;
use virt_base::{NoMemory, Text};
use virt_words::{InspectWords, WordsFault, read_inspect};

/// Reads the policy, where one is asked for, and then the component, and makes the report.
fn inspect<F: Files>(alloc: Global, words: &InspectWords, files: &mut F) -> Result<String, Status>
    ensures { Inspects words.now (F.state files.old) (F.state files.new) result }
{
    let policy = fetch_asked(alloc, &words.policy, files)?;
    let fetched = fetch_wrapped(alloc, &words.component, files)?;
    match report_for(alloc, &policy, fetched.application.listed.uses.as_slice()) {
        Ok(text) => Ok(text),
        Err(NoMemory) => Err(Status::NoMemory),
    }
}

fn inspect_named<F: Files, S: Sink>(
    alloc: Global,
    words: &InspectWords,
    files: &mut F,
    out: &mut S,
) -> Status
    ensures { InspectedFor words.now (F.state files.old) (F.state files.new) (S.state out.old) (S.state out.new) result }
{
    match inspect(alloc, words, files) {
        Ok(text) => put_text(text, Status::Done, out),
        Err(status) => refuse(alloc, status, out),
    }
}

fn inspect_words<F: Files, S: Sink>(
    alloc: Global,
    words: &[Text],
    files: &mut F,
    out: &mut S,
) -> Status
    ensures { Inspected words.now (F.state files.old) (F.state files.new) (S.state out.old) (S.state out.new) result }
{
    match read_inspect(alloc, words) {
        Ok(words) => inspect_named(alloc, &words, files, out),
        Err(WordsFault::Usage) => refuse(alloc, Status::Usage, out),
        Err(WordsFault::NoMemory) => Status::NoMemory,
    }
}

/// Does what the words after the program's name say: `COMPONENT [-p POLICY]`, the option before or after and in any form.
///
/// COMPONENT is read, validated and matched as `virt` does it, and refused for the same causes. Then its imported functions are put, a line
/// each, in the order of the listed interfaces. With POLICY each line says what becomes of the function's calls, and lines follow of all
/// that an output would import. The last line has the counts. POLICY is read first; the files that it names are not read.
pub fn wasi_inspect<F: Files, S: Sink>(
    alloc: Global,
    words: &[Text],
    files: &mut F,
    out: &mut S,
) -> Status
    // why the status was due, and what was put for it; no file has changed
    ensures ran { Inspected words.now (F.state files.old) (F.state files.new) (S.state out.old) (S.state out.new) result }
    // what can be inspected is inspected, where nothing failed
    ensures accepts { Accepts words.now (F.state files.old) (F.state files.new) (S.state out.old) (S.state out.new) result }
{
    inspect_words(alloc, words, files, out)
}
