//! What is wrong with a policy, in the words of the readers that refused it, for standard error.

use inspect_engine::Status;
use program_parts::{say_fault, say_no_memory, say_policy};
use real_outside::RealFiles;
use std::alloc::Global;
use std::io;
use virt_base::Text;
use virt_words::{InspectWords, PolicyFault, read_inspect};

const PROGRAM: &str = "wasi-inspect";

/// The policy that the words name.
fn policy_in(alloc: Global, words: &[Text]) -> Option<Text> {
    match read_inspect(alloc, words) {
        Ok(named) => {
            let InspectWords { policy, .. } = named;
            policy
        }
        _ => None,
    }
}

fn say_any_policy(rt: &HostRuntime, words: &[Text]) -> io::Result<()> {
    match policy_in(rt.alloc(), words) {
        Some(name) => say_policy(rt, PROGRAM, &name),
        None => Ok(()),
    }
}

/// Says on standard error why a call ended so, where there is more to say than what was put.
pub fn say_why(
    rt: &HostRuntime,
    words: &[Text],
    status: &Status,
    files: &RealFiles<'_, HostRuntime>,
) -> io::Result<()> {
    match status {
        Status::FileFault(name) => match files.reason() {
            Some(e) => say_fault(rt, PROGRAM, name, e),
            None => Ok(()),
        },
        Status::PolicyRefused(PolicyFault::NotToml) => say_any_policy(rt, words),
        Status::NoMemory => say_no_memory(rt, PROGRAM),
        _ => Ok(()),
    }
}
