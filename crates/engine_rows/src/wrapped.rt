//! Rows of runs under a policy, once more: the component is wrapped by `virt` under the policy, and what that wrote runs without one.

use crate::calling::said;
use crate::stored::{files_for, sink, wanted};
use outside::MemFiles;
use std::alloc::Global;
use virt_base::Text;

/// What `virt` writes has at most that many bytes.
pub const ROOM: usize = 2_097_152;

/// The name of what `virt` writes.
pub const OUT: &str = "out.wasm";

/// The words that wrap the component of a run under a policy, and those that run what was written, with what stands after the policy;
/// none of other words.
pub fn words_for(alloc: Global, words: &str) -> Option<(String, String)> {
    let (run, rest) = words.split_once(" -p ")?;
    let (component, script) = run.strip_prefix("run ")?.split_once(" -s ")?;
    let (policy, more) = rest.split_once(' ').unwrap_or((rest, ""));
    let wrap = format!(in alloc; "virt {component} -p {policy} -o {OUT}").ok()?;
    let run = format!(in alloc; "run {OUT} -s {script} {more}").ok()?;
    Some((wrap, run))
}

/// What the words come to over these files.
fn came(alloc: Global, words: &str, files: &mut MemFiles) -> Option<String> {
    let mut out = sink(alloc)?;
    said(alloc, words, files, &mut out)
}

/// What the words of a row come to where its component is wrapped: what the run of the output says, or why nothing was written.
fn came_wrapped(rt: &HostRuntime, words: &str) -> Option<String> {
    let alloc = rt.alloc();
    let (wrap, run) = words_for(alloc, words)?;
    let mut files = files_for(rt, words)?;
    files
        .reserve(alloc, &Text::from_str(alloc, OUT).ok()?, ROOM)
        .ok()?;
    let done = came(alloc, wrap.as_str(), &mut *files)?;
    if done.as_str().starts_with("0 ") {
        came(alloc, run.as_str(), &mut *files)
    } else {
        Some(done)
    }
}

/// Whether a row comes to its status and its lines where its component is wrapped.
pub fn comes_out_wrapped(rt: &HostRuntime, status: &str, name: &str, words: &str) -> bool {
    match (came_wrapped(rt, words), wanted(rt, status, name)) {
        (Some(came), Some(wanted)) => came == wanted,
        _ => false,
    }
}
