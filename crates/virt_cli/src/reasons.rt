//! Why a call ended so, for standard error: the place where a policy is no TOML or a script no JSON, or the machine's reason of a
//! fault. Files are read once more for it, and no contract speaks of it.

use program_parts::{bytes_of, say_fault, say_no_memory, say_policy};
use real_outside::RealFiles;
use serde_json::Value as Json;
use std::alloc::Global;
use std::io;
use virt_base::Text;
use virt_engine::Status;
use virt_words::{Command, PlugWords, PolicyFault, RunWords, VirtWords, read_words};

const PROGRAM: &str = "wasi-virt";

/// The policy that the words name.
fn policy_in(alloc: Global, words: &[Text]) -> Option<Text> {
    match read_words(alloc, words) {
        Ok(Command::Virt(named)) => {
            let VirtWords { policy, .. } = named;
            Some(policy)
        }
        Ok(Command::Run(named)) => {
            let RunWords { policy, .. } = named;
            policy
        }
        Ok(Command::Plug(named)) => {
            let PlugWords { policy, .. } = named;
            Some(policy)
        }
        _ => None,
    }
}

/// The script that the words name.
fn script_in(alloc: Global, words: &[Text]) -> Option<Text> {
    match read_words(alloc, words) {
        Ok(Command::Run(named)) => {
            let RunWords { script, .. } = named;
            Some(script)
        }
        _ => None,
    }
}

/// Where a script is no JSON, and why, in the words of its reader.
fn say_script(rt: &HostRuntime, name: &Text) -> io::Result<()> {
    let Some(bytes) = bytes_of(rt, name) else {
        return Ok(());
    };
    let name = name.as_str();
    match Json::from_slice(rt.alloc(), bytes.as_slice()) {
        Ok(_) => Ok(()),
        Err(e) => eprintln!(rt; "{PROGRAM}: {name}: {e}"),
    }
}

fn say_any_policy(rt: &HostRuntime, words: &[Text]) -> io::Result<()> {
    match policy_in(rt.alloc(), words) {
        Some(name) => say_policy(rt, PROGRAM, &name),
        None => Ok(()),
    }
}

fn say_any_script(rt: &HostRuntime, words: &[Text]) -> io::Result<()> {
    match script_in(rt.alloc(), words) {
        Some(name) => say_script(rt, &name),
        None => Ok(()),
    }
}

/// Says on standard error why a call ended so, where there is more to say than what was put.
pub fn say_why(
    rt: &HostRuntime,
    words: &[Text],
    status: &Status,
    files: &RealFiles<'_, HostRuntime>,
) -> io::Result<()> {
    match status {
        Status::FileFault(name) => match files.reason() {
            Some(e) => say_fault(rt, PROGRAM, name, e),
            None => Ok(()),
        },
        Status::PolicyRefused(PolicyFault::NotToml) => say_any_policy(rt, words),
        Status::ScriptRefused(path) if path.as_str().is_empty() => say_any_script(rt, words),
        Status::NoMemory => say_no_memory(rt, PROGRAM),
        _ => Ok(()),
    }
}
