//! The trees of a policy, made one after another: each of what is mounted, or of what the policy writes out.

ghost use Rattle.std.specs.Prelude.{◌+◌, ◌≤◌, All, IfOk};
ghost use Rattle.tree_table.specs.Trees.{KeepLimits, target_length, total};
ghost use Rattle.mount_tree.specs.Runs.{Gives};
ghost use Rattle.mount_tree.specs.Building.{content_of, tree_step, trees_due};
ghost use Rattle.mount_tree.specs.Ordered.{Builds};
ghost use Rattle.mount_tree.specs.Woods.{AreBuilt, IsWood};
ghost use Rattle.mount_tree.specs.Legal.{IsContent, IsSource};
ghost use Rattle.mount_tree.specs.Targets.{content_targets, made_targets, policy_targets, targets_of};
ghost use Rattle.policy_data.specs.Limits.{KeepsLimits};
ghost use Rattle.policy_data.specs.Sizes.{policy_size};

use crate::fault::TreeFault;
use crate::forest::Forest;
use crate::making::Making;
use crate::mount::add_contents;
use crate::ordered::ordered_trees;
use crate::steps::add_embedded;
use outside::Files;
use policy_data::{Policy, TreeContent, TreeSource};
use std::alloc::Global;
use tree_table::Trees;
use virt_base::{Items, Text};

/// A mounted folder is looked at this many levels deep: at the limit on names nothing stands deeper.
const LEVELS: usize = 65;

fn add_content<F: Files>(
    alloc: Global,
    files: &mut F,
    making: Making,
    content: &TreeContent,
) -> Result<Making, TreeFault>
    requires { IsContent content.now }
    ensures gives { Gives (content_of (F.state files.old).held making content.now) (F.state files.old) (F.state files.new) result }
    ensures targets { IfOk result (λ made. targets_of made ≤ targets_of making + content_targets content.now) }
{
    match content {
        TreeContent::Mount(folder) => {
            let root = Text::from_string(String::new(alloc));
            add_contents(alloc, files, making, folder, &root, LEVELS)
        }
        TreeContent::Embedded(embedded) => add_embedded(alloc, files, making, embedded),
    }
}

fn add_tree<F: Files>(
    alloc: Global,
    files: &mut F,
    forest: Forest,
    source: &TreeSource,
) -> Result<Forest, TreeFault>
    requires wood { IsWood forest }
    requires source { IsSource source.now }
    ensures wood { IfOk result IsWood }
    ensures gives { Gives (tree_step (F.state files.old).held forest source.now) (F.state files.old) (F.state files.new) result }
    ensures targets { IfOk result (λ made. made_targets made.trees ≤ made_targets forest.trees + content_targets source.now.content) }
{
    let making = Making::root(alloc, forest)?;
    let making = add_content(alloc, files, making, &source.content)?;
    let name = source.name.copy(alloc)?;
    Ok(making.into_forest(name)?)
}

/// Makes the trees of a policy, tree by tree.
fn make_trees<F: Files>(alloc: Global, files: &mut F, policy: &Policy) -> Result<Forest, TreeFault>
    requires { All IsSource policy.now.fs_tree }
    ensures gives { Gives (trees_due (F.state files.old).held policy.now) (F.state files.old) (F.state files.new) result }
    ensures wood { IfOk result IsWood }
    ensures targets { IfOk result (λ forest. made_targets forest.trees ≤ policy_targets policy.now) }
{
    let mut forest = Forest {
        nodes: 0,
        bytes: 0,
        trees: Items::empty(alloc),
    };
    let mut rest = policy.fs_tree.as_slice();
    while let Some((source, more)) = rest.split_first() {
        forest = add_tree(alloc, files, forest, source)?;
        rest = more;
    }
    Ok(forest)
}

/// Builds the trees of a policy in its order. A tree's root comes first, and then what is mounted, each entry in byte
/// order and what is in a folder directly after it, or what the policy writes out: files, folders and links. An entry's
/// name is tested first, then how many names its path has, how many nodes there are, and the bytes of the file, which is
/// read then. The targets of all links are together no longer than those that the policy writes out, so trees keep their limits
/// where the policy's strings have at most 16,777,216 bytes, as those of each policy's text have.
pub fn build<F: Files>(alloc: Global, policy: &Policy, files: &mut F) -> Result<Trees, TreeFault>
    requires { KeepsLimits policy.now }
    ensures due { Builds policy.now (F.state files.old) (F.state files.new) result }
    ensures trees { IfOk result AreBuilt }
    ensures targets { IfOk result (λ trees. total target_length trees ≤ policy_targets policy.now) }
    ensures limits { policy_size policy.now ≤ 16777216 → IfOk result KeepLimits }
{
    let forest = make_trees(alloc, files, policy)?;
    let trees = ordered_trees(alloc, forest.trees)?;
    Ok(trees)
}
