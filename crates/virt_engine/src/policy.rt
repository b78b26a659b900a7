//! The policy of a call, read from its file within a limit, with its faults as statuses.

ghost use Rattle.virt_engine.specs.Policies.{FetchesPolicy, IsRefusedFor, ReadsPolicy};

use crate::status::Status;
use component_judge::fetch;
use outside::Files;
use policy_data::{Policy, ReadPolicyFault};
use policy_toml::read_policy;
use std::alloc::Global;
use virt_base::Text;
use virt_words::PolicyFault;

/// A policy has at most this many bytes.
const POLICY_LIMIT: u64 = 16_777_216;

fn refused_for(fault: ReadPolicyFault) -> Status
    ensures { IsRefusedFor fault result }
{
    match fault {
        ReadPolicyFault::NotToml => Status::PolicyRefused(PolicyFault::NotToml),
        ReadPolicyFault::BadKey(path) => Status::PolicyRefused(PolicyFault::BadKey(path)),
        ReadPolicyFault::BadValue(path) => Status::PolicyRefused(PolicyFault::BadValue(path)),
        ReadPolicyFault::BadName(path) => Status::PolicyRefused(PolicyFault::BadName(path)),
        ReadPolicyFault::OverLimit(path, value) => Status::OverLimit(path, value),
        ReadPolicyFault::NoMemory => Status::NoMemory,
    }
}

/// The policy of a text.
pub fn policy_in(alloc: Global, text: &[u8]) -> Result<Policy, Status>
    ensures { ReadsPolicy text.now result }
{
    match read_policy(alloc, text) {
        Ok(policy) => Ok(policy),
        Err(fault) => Err(refused_for(fault)),
    }
}

/// The policy of a file. Its bytes are let go.
pub fn fetch_policy<F: Files>(alloc: Global, name: &Text, files: &mut F) -> Result<Policy, Status>
    ensures { FetchesPolicy name.now (F.state files.old) (F.state files.new) result }
{
    let text = fetch(alloc, name, "policy-bytes", POLICY_LIMIT, files)?;
    policy_in(alloc, text.as_slice())
}
