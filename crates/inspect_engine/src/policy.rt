//! The policy that the words name, read and checked.

ghost use Rattle.std.specs.Prelude.{◌≡◌, Some};
ghost use Rattle.inspect_engine.specs.Policies.{FetchesAsked, FetchesPolicy, ReadsPolicy, refused_for};

use crate::status::Status;
use component_judge::fetch;
use outside::Files;
use policy_data::{Policy, ReadPolicyFault};
use policy_toml::read_policy;
use std::alloc::Global;
use virt_base::Text;
use virt_words::PolicyFault;

/// A policy has at most that many bytes.
const POLICY_LIMIT: u64 = 16_777_216;

fn refused_for(fault: ReadPolicyFault) -> Status
    ensures { result ≡ refused_for fault }
{
    match fault {
        ReadPolicyFault::NotToml => Status::PolicyRefused(PolicyFault::NotToml),
        ReadPolicyFault::BadKey(path) => Status::PolicyRefused(PolicyFault::BadKey(path)),
        ReadPolicyFault::BadValue(path) => Status::PolicyRefused(PolicyFault::BadValue(path)),
        ReadPolicyFault::BadName(path) => Status::PolicyRefused(PolicyFault::BadName(path)),
        ReadPolicyFault::OverLimit(path, value) => Status::OverLimit(path, value),
        ReadPolicyFault::NoMemory => Status::NoMemory,
    }
}

/// The policy of a text.
fn policy_in(alloc: Global, text: &[u8]) -> Result<Policy, Status>
    ensures { ReadsPolicy text.now result }
{
    match read_policy(alloc, text) {
        Ok(policy) => Ok(policy),
        Err(fault) => Err(refused_for(fault)),
    }
}

/// The policy of a file. Its bytes are let go. Files that it names are not read.
fn fetch_policy<F: Files>(alloc: Global, name: &Text, files: &mut F) -> Result<Policy, Status>
    ensures { FetchesPolicy name.now (F.state files.old) (F.state files.new) result }
{
    let text = fetch(alloc, name, "policy-bytes", POLICY_LIMIT, files)?;
    policy_in(alloc, text.as_slice())
}

/// The policy that is asked for by the name of its file.
fn fetch_named<F: Files>(
    alloc: Global,
    name: &Text,
    files: &mut F,
) -> Result<Option<Policy>, Status>
    ensures { FetchesAsked (Some name.now) (F.state files.old) (F.state files.new) result }
{
    match fetch_policy(alloc, name, files) {
        Ok(policy) => Ok(Some(policy)),
        Err(status) => Err(status),
    }
}

/// The policy of a file, where one is asked for.
#[tactic(auto, using(crate::proofs::PolicyReading::none_asked))]
pub fn fetch_asked<F: Files>(
    alloc: Global,
    asked: &Option<Text>,
    files: &mut F,
) -> Result<Option<Policy>, Status>
    ensures { FetchesAsked asked.now (F.state files.old) (F.state files.new) result }
{
    match asked {
        None => Ok(None),
        Some(name) => fetch_named(alloc, name, files),
    }
}
