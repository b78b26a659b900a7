//! The trees of a policy, made over the files outside, with their faults as statuses.

ghost use Rattle.policy_data.specs.Limits.{KeepsLimits};
ghost use Rattle.virt_engine.specs.PolicyTrees.{MakesTrees, IsStoppedBy};

use crate::status::Status;
use mount_tree::{TreeFault, build};
use outside::Files;
use policy_data::Policy;
use std::alloc::Global;
use tree_table::Trees;
use virt_words::PolicyFault;

fn stopped_by(fault: TreeFault) -> Status
    ensures { IsStoppedBy fault result }
{
    match fault {
        TreeFault::FileFault(name) => Status::FileFault(name),
        TreeFault::BadName(name) => Status::PolicyRefused(PolicyFault::BadName(name)),
        TreeFault::OverLimit(what, value) => Status::OverLimit(what, value),
        TreeFault::NoMemory => Status::NoMemory,
    }
}

/// Makes the trees of a policy.
pub fn make_trees<F: Files>(alloc: Global, policy: &Policy, files: &mut F) -> Result<Trees, Status>
    requires { KeepsLimits policy.now }
    ensures { MakesTrees policy.now (F.state files.old) (F.state files.new) result }
{
    match build(alloc, policy, files) {
        Ok(trees) => Ok(trees),
        Err(fault) => Err(stopped_by(fault)),
    }
}
