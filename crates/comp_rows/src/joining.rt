//! Which components join two others, by their own sections: written by hand by the Component Model's Binary.md.

use crate::rows::{Asked, hold};
use crate::words::said;
use comp_joined::is_joining;
use comp_read::read_component;
use std::alloc::Global;
use std::test::Fail;

pub fn answer(alloc: Global, bytes: &[u8]) -> Result<String, Fail> {
    let Ok(component) = read_component(alloc, bytes) else {
        return said(alloc, "not read");
    };
    if is_joining(&component) {
        said(alloc, "joins")
    } else {
        said(alloc, "does not")
    }
}

const ROWS: &str = "\
# Two empty components, each with its instance
nothing around them: `empty-component``instance-of-0``empty-component``instance-of-1` => joins
an instance with an argument: `empty-component`05080100000101610500`empty-component``instance-of-1` => joins
an import before, an alias between, an export after: `function-type``import-f``empty-component``instance-of-0`0606010100000167`empty-component``instance-of-1`0b0701000167010100 => joins
an outer alias of a type: `empty-component``instance-of-0`06050103020000`empty-component``instance-of-1` => joins
an instance type that exports a resource: 0709014201040001720301`empty-component``instance-of-0``empty-component``instance-of-1` => joins
# One too few, and one too many
whole 0061736d0d000100 => does not
`empty-component``instance-of-0` => does not
`empty-component``instance-of-0``empty-component` => does not
`empty-component``empty-component``instance-of-1` => does not
`empty-component``instance-of-0``empty-component``instance-of-1``empty-component` => does not
# Instances
the first of the second: `empty-component``instance-of-1``empty-component``instance-of-1` => does not
the second of the first: `empty-component``instance-of-0``empty-component``instance-of-0` => does not
two at once: `empty-component`050702000000000000`empty-component``instance-of-1` => does not
one of items: `empty-component`0503010100`empty-component``instance-of-1` => does not
# Sections that make something
a resource: `resource``empty-component``instance-of-0``empty-component``instance-of-1` => does not
an outer alias of a component: `empty-component``instance-of-0`06050104020000`empty-component``instance-of-1` => does not
an alias of a core item: `empty-component``instance-of-0``alias-of-f``empty-component``instance-of-1` => does not
a module: `empty-module``empty-component``instance-of-0``empty-component``instance-of-1` => does not
a custom section: 0003016105`empty-component``instance-of-0``empty-component``instance-of-1` => does not
an instance of items between: `empty-component``instance-of-0`05080101010001660100`empty-component``instance-of-1` => does not";

#[test]
fn components_join_two_others(rt: HostRuntime) -> Result<(), Fail> {
    hold(&rt, rt.alloc(), Asked::Joining, ROWS)
}
