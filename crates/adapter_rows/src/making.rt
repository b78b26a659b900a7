//! The rows of all functions of an application.

ghost use Rattle.tree_table.specs.Trees.{AreTrees};

use crate::function_row::{Source, row};
use crate::image::{Image, RowsFault, cut, make_image, scratch_in};
use crate::limits::capped;
use adapter_bytes::Routines;
use adapter_code::Layout;
use adapter_pass::Places;
use adapter_state::Presence;
use adapter_stubs::Stub;
use adapter_world::{World, WorldFunction};
use policy_data::Policy;
use std::alloc::Global;
use tree_table::Trees;
use virt_base::NoMemory;

fn copied(alloc: Global, kinds: &[Presence]) -> Result<Vec<Presence>, NoMemory> {
    let copy = Vec::from_slice(alloc, kinds)?;
    Ok(copy)
}

fn stubs_of(s: &Source<'_>, functions: &[WorldFunction]) -> Result<Vec<Stub>, NoMemory> {
    let mut stubs = Vec::with_capacity(s.alloc, functions.len())?;
    for function in functions {
        stubs.push(row(s, function)?)?;
    }
    Ok(stubs)
}

/// What the adapter of an application is made of under a policy: the row of each function that the application imports, the static
/// data, and how the memory is cut.
pub fn rows_for(
    alloc: Global,
    policy: &Policy,
    trees: &Trees,
    world: &World,
) -> Result<Routines, RowsFault>
    requires { AreTrees trees.now }
{
    let Image { bytes, io, nodes } = make_image(alloc, policy, trees)?;
    let layout: Layout = cut(policy, bytes.len());
    if !layout.fits() {
        return Err(RowsFault::TooLarge);
    }
    let places = Places::of(&layout);
    let source = Source {
        alloc,
        policy,
        places,
        io,
        nodes,
        scratch: scratch_in(policy, &places, capped(trees.len())),
    };
    let stubs = stubs_of(&source, world.functions.as_slice())?;
    Ok(Routines {
        stubs,
        kinds: copied(alloc, world.kinds.as_slice())?,
        image: bytes,
        layout,
    })
}
