//! The state of the reference host beside that of the host which is asked, and its beginning.

ghost use Rattle.std.specs.Prelude.{◌≡◌, IfOk, length};
ghost use Rattle.policy_data.specs.Limits.{KeepsLimits};
ghost use Rattle.tree_table.specs.Trees.{AreTrees};
ghost use Rattle.reference_step.specs.State.{opening};
ghost use Rattle.ref_answers.specs.Versions.{version_in};
ghost use Rattle.reference_host.specs.Kept.{LeadToTexts};
ghost use Rattle.reference_host.specs.States.{IsState, reference_of};

use crate::state_kept::{Holding, Setting};
use policy_data::Policy;
use std::alloc::Global;
use tree_table::Trees;
use virt_base::{NoMemory, Text};

/// What the reference host keeps beside the host that is asked.
#[derive(Debug, Drop)]
pub struct State {
    pub setting: Setting,
    pub holding: Holding,
}

impl State {
    /// No handle is live, and the scratch folder is empty. Each interface is listed under the version at the place of its number.
    pub fn new(
        alloc: Global,
        policy: Policy,
        trees: Trees,
        versions: Vec<Text>,
    ) -> Result<State, NoMemory>
        requires limits { KeepsLimits policy }
        requires trees { AreTrees trees }
        requires texts { LeadToTexts trees }
        requires versions { length versions.items ≡ 27 }
        ensures opening { IfOk result (λ s. reference_of s (tt {0}) ≡ opening (record { policy = policy; trees = trees; version = version_in versions.items }) (tt {0})) }
        ensures state { IfOk result (λ s. IsState s) }
    {
        let holding = Holding::new(alloc, &policy)?;
        let setting = Setting::new(alloc, policy, trees, versions)?;
        Ok(State { setting, holding })
    }
}
