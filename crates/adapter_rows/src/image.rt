//! The static data that rows read, and how the memory is cut.

ghost use Rattle.tree_table.specs.Trees.{AreTrees};

use crate::limits::capped;
use adapter_code::Layout;
use adapter_fs::{NodesAt, put_nodes};
use adapter_io::{IoData, NamedRoot, put_static};
use adapter_pass::{Places, StaticData};
use adapter_scratch::{ScratchAt, spare_bytes};
use policy_data::Policy;
use std::alloc::Global;
use tree_table::{NamedTree, Table, Trees};
use virt_base::{Bytes, NoMemory};

/// Why the adapter's rows are not made.
#[derive(Debug, Clone, Copy, PartialEq, Eq)]
pub enum RowsFault {
    NoMemory,
    /// The adapter's memory would pass 4,096 pages. No policy within its limits is so large.
    TooLarge,
}

impl From<NoMemory> for RowsFault {
    fn from(_: NoMemory) -> RowsFault {
        RowsFault::NoMemory
    }
}

/// The static data, and where rows find what in it.
#[derive(Drop)]
pub struct Image {
    pub bytes: Bytes,
    pub io: IoData,
    /// The nodes of the policy's trees, where it has trees.
    pub nodes: Option<NodesAt>,
}

fn put_trees(
    alloc: Global,
    data: &mut StaticData,
    trees: &Trees,
) -> Result<Option<NodesAt>, NoMemory>
    requires { AreTrees trees.now }
{
    if trees.is_empty() {
        return Ok(None);
    }
    let table = Table::build(alloc, trees)?;
    let nodes = put_nodes(data, trees, &table)?;
    Ok(Some(nodes))
}

// The root of a tree is the node of its place.
fn roots_of<'a>(alloc: Global, trees: &'a [NamedTree]) -> Result<Vec<NamedRoot<'a>>, NoMemory> {
    let mut roots = Vec::new(alloc);
    let mut node: u32 = 0;
    for tree in trees {
        roots.push(NamedRoot {
            node,
            name: tree.name.bytes(),
        })?;
        node = node.saturating_add(1);
    }
    Ok(roots)
}

/// The static data of a policy with its trees: the nodes of the trees, and then the texts and lists of the policy.
pub fn make_image(alloc: Global, policy: &Policy, trees: &Trees) -> Result<Image, NoMemory>
    requires { AreTrees trees.now }
{
    let mut data = StaticData::new(alloc, policy.slots);
    let nodes = put_trees(alloc, &mut data, trees)?;
    let roots = roots_of(alloc, trees.as_slice())?;
    let io = put_static(alloc, &mut data, policy, roots.as_slice())?;
    Ok(Image {
        bytes: data.into_bytes(),
        io,
        nodes,
    })
}

fn spare_of(policy: &Policy) -> u32 {
    match &policy.fs_scratch {
        Some(scratch) => spare_bytes(scratch),
        None => 0,
    }
}

/// How the memory is cut for static data of that many bytes. It takes no memory.
pub fn cut(policy: &Policy, image_len: usize) -> Layout {
    Layout {
        slots: policy.slots,
        image_len: capped(image_len),
        spare: spare_of(policy),
        transfer: policy.transfer_limit,
    }
}

/// Where the scratch folder stands, if the policy has one; it comes after that many trees.
pub fn scratch_in(policy: &Policy, places: &Places, trees: u32) -> Option<ScratchAt> {
    match &policy.fs_scratch {
        Some(scratch) => Some(ScratchAt::of(scratch, places, trees)),
        None => None,
    }
}
