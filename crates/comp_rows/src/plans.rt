//! Plans of linked components, item by item, worked by hand from the definition.

mod printing;

use crate::rows::{Asked, hold};
use crate::words::said;
use comp_linking::link;
use comp_read::read_component;
use comp_validate::validate;
use std::alloc::Global;
use std::test::Fail;

pub fn answer(alloc: Global, bytes: &[u8]) -> Result<String, Fail> {
    let Ok(component) = read_component(alloc, bytes) else {
        return said(alloc, "not read");
    };
    match validate(alloc, &component) {
        Ok(_) => {
            let linked = link(alloc, component)?;
            printing::linked(alloc, &linked)
        }
        Err(_) => said(alloc, "not valid"),
    }
}

const ROWS: &str = "\
# Components that hold components: each has one plan, and is named by its number
nothing: whole 0061736d0d000100 => modules 0 | root
a component that is instantiated twice: 04180061736d0d00010001080061736d01000000020401000000050702000000000000 => modules 1 | own []; module 0 | root; component 0 from 0; component 0 from 0
one that an outer alias names: 04180061736d0d00010001080061736d0100000002040100000004150061736d0d00010006050104020100050401000000`instance-of-1` => modules 1 | own []; module 0 | own []; component 0 from 0 | root; component 1 from 0
a module that an outer alias names: `empty-module`04230061736d0d00010001080061736d010000000606010011020100020702000100000000 => modules 2 | own []; module 0; module 1 | root
# Core instances and items
arguments of a module: `module-of-f``module-without-f`020b0200000000010101611200 => modules 2 | root; module 0; module 1 a=0
an inline instance: `core-f`020701010101670000 => modules 1 | root; module 0; core func f of 0; core items g=func 0
# Functions that are lifted, lowered, imported and exported
a lifted function, exported without and with a type: `core-f``function-type-u32``lift`0b0f020001660100000001670100010100 => modules 1 | root; module 0; core func f of 0; lift 0 with 0 options; export f=func 0; export g=func 0 as stated
a lowered import: 07080140010178790077`import-f`08050101000000 => modules 0 | root; import f; lower 0 with 0 options to 1 and 1
an inline instance and its item: `function-type``import-f`0508010101000167010006060101000001670b0701000169050000 => modules 0 | root; import f; items g=func 0; func g of 0; export i=instance 0
# Resources by their numbers: those of instance types take numbers, too, and own ones of instances get the next
with a destructor and without: 01200061736d0100000001050160017f0003020100070501016400000a040102000b`instance-of-module`06070100000100016407100342010400017203013f7f01003f7f00080703020103020401 => modules 1 | root; module 0; core func d of 0; resource 1 with 0; resource 2; new 1; drop 2; rep 1
own resources of two instances, and one that is given: `component-of-resource`050702000000000000060b020300000172030001017204100061736d0d0001000a0601000172030105080100010101720301 => modules 0 | own [0]; resource 0; export r=resource 0 | own []; import r | root; component 0 from 1; component 0 from 2; type r of 0; type r of 1; component 1 from 4 r=resource 2";

#[test]
fn components_are_linked(rt: HostRuntime) -> Result<(), Fail> {
    hold(&rt, rt.alloc(), Asked::Plans, ROWS)
}
