//! Rows: core modules run from their bytes, with what a call answers, and in how many steps. What is wanted of results and traps
//! is what V8 (node) answers; the steps are counted by hand: one for each instruction but `else` and `end`, and one for a `loop`
//! each time it begins.

use crate::rows::hold;
use crate::running::{embedders, run};
use core_instance::Extern;
use std::alloc::Global;
use std::test::Fail;
use virt_base::Items;

/// A module without imports, that many steps, and the arguments of its first export; and how the call ends, and what is left of the
/// steps. With one step less it stops before the last.
const ROWS: &str = "\
# 1, then 13 a turn, 4 in the last, and 1
sum 136 10 => (Done(Items { items: [I32(55)] }), 0)
sum 135 10 => (Spent, 0)
# 1, then 6 a turn
turns 19 3 => (Done(Items { items: [I32(0)] }), 0)
turns 18 3 => (Spent, 0)
choice 3 0 => (Done(Items { items: [I32(6)] }), 0)
choice 2 0 => (Spent, 0)
choice 3 7 => (Done(Items { items: [I32(5)] }), 0)
choice 2 7 => (Spent, 0)
three 3 8 => (Done(Items { items: [I32(7), I32(8), I32(9)] }), 0)
three 2 8 => (Spent, 0)
unreachable 1 => (Trapped, 0)
unreachable 0 => (Spent, 0)
# tables of labels
labels 7 0 => (Done(Items { items: [I32(10)] }), 0)
labels 6 0 => (Spent, 0)
labels 7 1 => (Done(Items { items: [I32(20)] }), 0)
labels 6 1 => (Spent, 0)
labels 6 2 => (Done(Items { items: [I32(30)] }), 0)
labels 5 2 => (Spent, 0)
labels 6 4294967295 => (Done(Items { items: [I32(30)] }), 0)
labels 5 4294967295 => (Spent, 0)
# calls: 5 below 2, else 13 and those of the two before
fib 5 1 => (Done(Items { items: [I32(1)] }), 0)
fib 4 1 => (Spent, 0)
fib 23 2 => (Done(Items { items: [I32(1)] }), 0)
fib 22 2 => (Spent, 0)
fib 1589 10 => (Done(Items { items: [I32(55)] }), 0)
fib 1588 10 => (Spent, 0)
indirect 6 1 => (Done(Items { items: [I32(78)] }), 0)
indirect 5 1 => (Spent, 0)
indirect 2 0 => (Trapped, 0)
indirect 1 0 => (Spent, 0)
indirect 2 2 => (Trapped, 0)
indirect 1 2 => (Spent, 0)
indirect 2 3 => (Trapped, 0)
indirect 1 3 => (Spent, 0)
# operations
quotient 3 4294967289 2 => (Done(Items { items: [I32(4294967293)] }), 0)
quotient 2 4294967289 2 => (Spent, 0)
quotient 3 7 0 => (Trapped, 0)
quotient 2 7 0 => (Spent, 0)
quotient 3 2147483648 4294967295 => (Trapped, 0)
quotient 2 2147483648 4294967295 => (Spent, 0)
global 9 2 => (Done(Items { items: [I64(2)] }), 0)
global 8 2 => (Spent, 0)
global 9 0 => (Done(Items { items: [I64(40)] }), 0)
global 8 0 => (Spent, 0)
# memories
copy 6 1 0 4 => (Done(Items { items: [I32(1717855074)] }), 0)
copy 5 1 0 4 => (Spent, 0)
copy 6 0 1 4 => (Done(Items { items: [I32(1717921124)] }), 0)
copy 5 0 1 4 => (Spent, 0)
copy 6 65535 0 1 => (Done(Items { items: [I32(1717920867)] }), 0)
copy 5 65535 0 1 => (Spent, 0)
copy 4 65535 0 2 => (Trapped, 0)
copy 3 65535 0 2 => (Spent, 0)
copy 6 65536 0 0 => (Done(Items { items: [I32(1717920867)] }), 0)
copy 5 65536 0 0 => (Spent, 0)
copy 4 65537 0 0 => (Trapped, 0)
copy 3 65537 0 0 => (Spent, 0)
grow 6 0 => (Done(Items { items: [I32(101)] }), 0)
grow 5 0 => (Spent, 0)
grow 6 1 => (Done(Items { items: [I32(102)] }), 0)
grow 5 1 => (Spent, 0)
grow 6 2 => (Done(Items { items: [I32(4294967197)] }), 0)
grow 5 2 => (Spent, 0)
# tables
fill 13 0 4 => (Done(Items { items: [I32(0)] }), 0)
fill 12 0 4 => (Spent, 0)
fill 13 1 2 => (Done(Items { items: [I32(3)] }), 0)
fill 12 1 2 => (Spent, 0)
fill 13 4 0 => (Done(Items { items: [I32(3)] }), 0)
fill 12 4 0 => (Spent, 0)
fill 4 1 4 => (Trapped, 0)
fill 3 1 4 => (Spent, 0)
fill 4 5 0 => (Trapped, 0)
fill 3 5 0 => (Spent, 0)";

/// Runs with many calls in progress, and with a large table.
const LARGE: &str = "\
# the 65,537th call in progress would be begun by the 65,536th step
deep 65537 => (TooDeep, 1)
deep 65536 => (Spent, 0)
entries 5 1048575 => (Done(Items { items: [I32(1048577)] }), 0)
entries 4 1048575 => (Spent, 0)
entries 5 1048576 => (Done(Items { items: [I32(0)] }), 0)
entries 4 1048576 => (Spent, 0)";

/// Modules that ask the embedder's function 9, with what it answers after the arguments; and what they ask with, and how the call
/// goes on, with the calls in progress.
const ASKING: &str = "\
asking 2 0 => ((9, Items { items: [I64(18446744073709551614)] }, 0), (Done(Items { items: [I32(6)] }), 0), 0)
asking 2 3 => ((9, Items { items: [I64(18446744073709551614)] }, 0), (Done(Items { items: [I32(5)] }), 0), 0)
# the export is the embedder's function itself
own 0 18446744073709551614 5 => ((9, Items { items: [I64(18446744073709551614)] }, 0), (Done(Items { items: [I32(5)] }), 0), 0)";

fn ran(alloc: Global, row: &str) -> Result<String, Fail> {
    let mut store = embedders(alloc)?;
    run(alloc, &mut store, row, &Items::empty(alloc))
}

fn asked(alloc: Global, row: &str) -> Result<String, Fail> {
    let imports = Items::new(vec![in alloc; Extern::Func(0)]?);
    let mut store = embedders(alloc)?;
    run(alloc, &mut store, row, &imports)
}

#[test]
fn modules_run(rt: HostRuntime) -> Result<(), Fail> {
    hold(&rt, rt.alloc(), ROWS, ran)?;
    hold(&rt, rt.alloc(), ASKING, asked)
}

#[test]
fn large_runs(rt: HostRuntime) -> Result<(), Fail> {
    hold(&rt, rt.alloc(), LARGE, ran)
}
