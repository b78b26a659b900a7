//! The two parts of the state: what stays as it is, and what calls change. They stand apart, since a call borrows the one and changes the
//! other.

ghost use Rattle.std.specs.Prelude.{◌≡◌, ◌<◌, ◌^◌, [], IfOk, length};
ghost use Rattle.tree_table.specs.Scratches.{empty_scratch};
ghost use Rattle.tree_table.specs.Trees.{AreTrees};
ghost use Rattle.reference_step.specs.State.{scratch_for};
ghost use Rattle.ref_answers.specs.Versions.{version_in};
ghost use Rattle.reference_host.specs.Kept.{IsHolding, IsSetting, LeadToTexts, file_limit, setup_of};

use policy_data::{Policy, Scratch};
use ref_answers::ListedTable;
use ref_rules::LiveHandles;
use ref_scratch::Folder;
use std::alloc::Global;
use tree_table::{Table, Trees};
use virt_base::{NoMemory, Text};

/// What stays as it is: the policy, the listed interfaces, the trees, and their table.
#[derive(Debug, Drop)]
pub struct Setting {
    pub policy: Policy,
    pub listed: ListedTable,
    pub trees: Trees,
    pub table: Table,
}

/// What calls change: the live handles and the scratch folder.
#[derive(Debug, Drop)]
pub struct Holding {
    pub live: LiveHandles,
    pub folder: Folder,
}

/// How many blocks the scratch folder has, and how many files; none of both without one.
fn quota(scratch: &Option<Scratch>) -> (u32, u32)
    ensures folder { empty_scratch result.0 result.1 ≡ scratch_for scratch.now }
    ensures files { result.1 ≡ file_limit scratch.now }
{
    match scratch {
        None => (0, 0),
        Some(scratch) => (scratch.blocks, scratch.files),
    }
}

impl Setting {
    /// The table of these trees, and each interface under the version at the place of its number.
    pub fn new(
        alloc: Global,
        policy: Policy,
        trees: Trees,
        versions: Vec<Text>,
    ) -> Result<Setting, NoMemory>
        requires slots { policy.slots < 2 ^ 16 }
        requires trees { AreTrees trees }
        requires texts { LeadToTexts trees }
        requires versions { length versions.items ≡ 27 }
        ensures setup { IfOk result (λ g. setup_of g ≡ record { policy = policy; trees = trees; version = version_in versions.items }) }
        ensures setting { IfOk result (λ g. IsSetting g) }
    {
        let table = Table::build(alloc, &trees)?;
        let listed = ListedTable::new(alloc, versions)?;
        Ok(Setting {
            policy,
            listed,
            trees,
            table,
        })
    }
}

impl Holding {
    /// Nothing is held.
    pub fn new(alloc: Global, policy: &Policy) -> Result<Holding, NoMemory>
        requires { policy.now.slots < 2 ^ 16 }
        ensures handles { IfOk result (λ h. h.live.handles ≡ []) }
        ensures folder { IfOk result (λ h. h.folder ≡ scratch_for policy.now.fs_scratch) }
        ensures holding { IfOk result (λ h. (g : Setting) → g.policy ≡ policy.now → IsHolding g h) }
    {
        let (blocks, files) = quota(&policy.fs_scratch);
        let live = LiveHandles::new(alloc, policy.slots, files)?;
        let folder = Folder::new(alloc, blocks, files)?;
        Ok(Holding { live, folder })
    }
}
