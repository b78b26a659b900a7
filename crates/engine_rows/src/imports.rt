//! What outputs import: what the policy leaves to the machine, and nothing else.

use crate::rows::{Over, hold};
use std::test::Fail;

const ROWS: &str = r##"# The clock reader asks the machine only under an allowed clock
c x `clock`
$ virt c -p p -o out.wasm
p : => 0 functions imported&
p : deny = "error" => 0 functions imported&
p : clocks.monotonic = 5 => 0 functions imported&
p : clocks.wall = "allow" => 0 functions imported&
p : clocks.monotonic = "allow" => 1 functions imported&

# Random bytes
c x `passes`
$ virt c -p p -o out.wasm
p : => 0 functions imported&
p : random = "allow" => 1 functions imported&

# A pollable can be the machine's where the clock is
c x `waits`
$ virt c -p p -o out.wasm
p : => 0 functions imported&
p : clocks.monotonic = 0 => 0 functions imported&
p : clocks.monotonic = "allow" => 2 functions imported&

# Folders: those of the machine, or trees alone
c x `opens`
$ virt c -p p -o out.wasm
p : => 0 functions imported&
p : fs.tree = [{ name = "/t", files = { f = { text = "" } } }] => 0 functions imported&
p : fs.scratch = { name = "/s", blocks = 1, files = 1 } => 0 functions imported&
p : fs.pass = [{ host = "/h", as = "/x" }] => 2 functions imported&"##;

#[test]
fn outputs_import_what_is_left_to_the_machine(rt: HostRuntime) -> Result<(), Fail> {
    hold(&rt, rt.alloc(), Over::Imports, ROWS)
}
