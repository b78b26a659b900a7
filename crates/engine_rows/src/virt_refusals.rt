//! Why nothing is written: applications and policies that are refused.

use crate::rows::{Over, hold};
use std::test::Fail;

const ROWS: &str =
    r##"# An instruction that is not supported, a long constant, and a canonical function of another type
$ virt a -p p -o o
p :
a x `empty`01230061736d010000000105016000017f03020100070501016600000a070105004107920b0204010000000607010000010001660705014000007908060100000000000b0701000166010000 => 2 application refused: unsupported at 43 byte 92&
a x `empty`01220061736d010000000105016000017f03020100070501016600000a0601040042070b0204010000000607010000010001660705014000007908060100000000000b0701000166010000 => 2 application refused: invalid rule 1 section 0&
a x `empty`01220061736d010000000105016000017f03020100070501016600000a0601040041070b0204010000000607010000010001660705014000007908060100000000010b0701000166010000 => 2 application refused: invalid rule 3 section 4&

# An instance type without entries, and an import of it; and two imports of it
$ virt a -p p -o o
p :
a x `empty`07030142000a1a010015776173693a687474702f747970657340302e322e300500 => 2 application refused: unlisted wasi:http/types@0.2.0&
a x `empty`07030142000a2d020012776173693a696f2f706f6c6c40302e322e3005000012776173693a696f2f706f6c6c40302e322e330500 => 2 application refused: two-versions wasi:io/poll@0.2.3&

# An instance type with the function `get-random-u64`, which answers a u32, and an import of it
$ virt a -p p -o o
p :
a x `empty`071b014202014000007904000e6765742d72616e646f6d2d75363401000a1d010018776173693a72616e646f6d2f72616e646f6d40302e322e300500 => 2 application refused: wrong-type wasi:random/random@0.2.0&

# A resource, and an export of it; an owned handle of it, and an export of the handle's type; a resource in an instance, and an export of the instance
$ virt a -p p -o o
p :
a x `empty`0704013f7f000b0701000172030000 => 2 application refused: handle-export r&
a x `empty`0706023f7f0069000b070100016f030100 => 2 application refused: handle-export o&
a x `empty`0704013f7f00050801010100017203000b0701000169050000 => 2 application refused: handle-export i&

# Policies
a x `seven`
$ virt a -p p -o o
p : slots = 64 => 0 done: 83 bytes in, 116 bytes out, 0 functions imported& o=`seven_out`
p : [[fs.tree]]&name = "t"&files = { a = { text = "x" }, b = { file = "a" } } => 0 done: 83 bytes in, 116 bytes out, 0 functions imported& o=`seven_out`
p : slots = 0 => 1 policy refused: bad-value slots&
p : stdio.stdin = "yes" => 1 policy refused: bad-value stdio.stdin&
p : env.pas = true => 1 policy refused: bad-key env.pas&
p : a = => 1 policy refused: not-toml&
p : [[fs.tree]]&name = "t"&files = { "a/../b" = { text = "" } } => 1 policy refused: bad-name fs.tree[0].files.a/../b&
p : [[fs.tree]]&name = "t"&files = { "a//b" = { text = "" } } => 1 policy refused: bad-name fs.tree[0].files.a//b&
p : slots = 4097 => 5 over limit: slots 4097&
p : slots = 5000 => 5 over limit: slots 5000&
p : [[fs.tree]]&name = "t"&files = { b = { file = "c" } } => 3 file fault: c&
p : [[fs.tree]]&name = "t"&mount = "f" => 3 file fault: f&
p : [[fs.tree]]&name = "t"&folders = ["a/a/a/a/a/a/a/a/a/a/a/a/a/a/a/a/a/a/a/a/a/a/a/a/a/a/a/a/a/a/a/a/a/a/a/a/a/a/a/a/a/a/a/a/a/a/a/a/a/a/a/a/a/a/a/a/a/a/a/a/a/a/a/a/a"] => 5 over limit: tree-depth 65&

# The policy is refused before the application, and the application before the policy's trees
a :
$ virt a -p p -o o
p : slots = 0 => 1 policy refused: bad-value slots&
p : [[fs.tree]]&name = "t"&mount = "f" => 2 application refused: malformed at 0&"##;

#[test]
fn refusals_have_their_causes(rt: HostRuntime) -> Result<(), Fail> {
    hold(&rt, rt.alloc(), Over::Memory, ROWS)
}
