//! Why nothing is run under a policy, in the order of reading: the policy, the component, the script, and the policy's trees. Of the folders
//! only `d` can be read whole: `gone` holds a file that is not there, `lost` a folder that is not, and `bad` an entry with a name that no tree takes.

use crate::rows::{Over, hold};
use std::test::Fail;

const ROWS: &str =
    r##"# Policies, over a component that is malformed behind its preamble, and a script that is none: whatever comes before them is said first
t : abc
d / x
d/x : x
gone / x
lost / y/
bad / ..
c x `empty`01220061736d
s : {
$ run c -s s -p p
p : a = => 1 policy refused: not-toml&
p : slots = 9223372036854775808 => 1 policy refused: not-toml&
p : env.pas = true => 1 policy refused: bad-key env.pas&
p : slot = 1&deny = "no" => 1 policy refused: bad-key slot&
p : version = 3 => 1 policy refused: bad-value version&
p : version = "1" => 1 policy refused: bad-value version&
p : deny = "no" => 1 policy refused: bad-value deny&
p : slots = 0 => 1 policy refused: bad-value slots&
p : slots = 5.0 => 1 policy refused: bad-value slots&
p : transfer-limit = 65535 => 1 policy refused: bad-value transfer-limit&
p : env = 1 => 1 policy refused: bad-value env&
p : env.allow = ["A", "B="] => 1 policy refused: bad-value env.allow[1]&
p : stdio.stdin = "yes" => 1 policy refused: bad-value stdio.stdin&
p : clocks.wall = { seconds = 1 } => 1 policy refused: bad-value clocks.wall.nanoseconds&
p : clocks.monotonic = -1 => 1 policy refused: bad-value clocks.monotonic&
p : sockets = "ignore" => 1 policy refused: bad-value sockets&
p : fs.pass = [{ as = "/a" }] => 1 policy refused: bad-value fs.pass[0].host&
p : fs.tree = [1] => 1 policy refused: bad-value fs.tree[0]&
p : fs.tree = [{ name = "/t", mount = "d", files = {} }] => 1 policy refused: bad-value fs.tree[0].files&
p : fs.tree = [{ name = "/t", files = { a = { hex = "6" } } }] => 1 policy refused: bad-value fs.tree[0].files.a.hex&
p : fs.tree = [{ name = "/t", files = { "a/../b" = { text = "" } } }] => 1 policy refused: bad-name fs.tree[0].files.a/../b&
p : fs.tree = [{ name = "/t", folders = ["a", "a//b"] }] => 1 policy refused: bad-name fs.tree[0].folders[1]&

# Numbers above their greatest. Of a list the length is told, before anything in it
t : abc
d / x
d/x : x
gone / x
lost / y/
bad / ..
c x `empty`01220061736d
s : {
$ run c -s s -p p
p : slots = 4097 => 5 over limit: slots 4097&
p : slots = 5000 => 5 over limit: slots 5000&
p : transfer-limit = 67108865 => 5 over limit: transfer-limit 67108865&
p : transfer-limit = 9223372036854775807 => 5 over limit: transfer-limit 9223372036854775807&
p : clocks.wall = { seconds = 1, nanoseconds = 1000000000 } => 5 over limit: clocks.wall.nanoseconds 1000000000&
p : sockets = "rules"&net.connect = [{ network = "10.0.0.0/8", ports = [{ from = 1, to = 65536 }] }] => 5 over limit: net.connect[0].ports[0].to 65536&

# Components, under the empty policy, with a script that is none
t : abc
d / x
d/x : x
gone / x
lost / y/
bad / ..
p :
s : {
$ run c -s s -p p
c x `empty`01220061736d => 2 application refused: malformed at 8&
c x `empty`01230061736d010000000105016000017f03020100070501016600000a070105004107920b020401000000 => 2 application refused: unsupported at 43 byte 92&
c x `empty`01220061736d010000000105016000017f03020100070501016600000a0601040042070b => 2 application refused: invalid rule 1 section 0&
c x `empty`070501400000790a06010001660100 => 2 application refused: unlisted f&
c x `empty`07030142000a06010001680500 => 2 application refused: unlisted h&
c x `empty`07030142000a1a010015776173693a687474702f747970657340302e322e300500 => 2 application refused: unlisted wasi:http/types@0.2.0&
c x `empty`07030142000a1a010015776173693a696f2f706f6c6c40302e322e302d72630500 => 2 application refused: unlisted wasi:io/poll@0.2.0-rc&
c x `empty`07030142000a2d020012776173693a696f2f706f6c6c40302e322e3005000012776173693a696f2f706f6c6c40302e322e330500 => 2 application refused: two-versions wasi:io/poll@0.2.3&
c x `empty`071b014202014000007904000e6765742d72616e646f6d2d75363401000a1d010018776173693a72616e646f6d2f72616e646f6d40302e322e300500 => 2 application refused: wrong-type wasi:random/random@0.2.0&
c x `empty`0704013f7f000b0701000172030000 => 2 application refused: handle-export r&
c x `empty`0706023f7f0069000b070100016f030100 => 2 application refused: handle-export o&
c x `empty`0704013f7f00050801010100017203000b0701000169050000 => 2 application refused: handle-export i&
c x `empty`071b014202014000007704000e6765742d72616e646f6d2d75363401000a1d010018776173693a72616e646f6d2f72616e646f6d40302e322e300500 => 7 script refused: &

# Scripts, under a policy whose tree is not there
t : abc
d / x
d/x : x
gone / x
lost / y/
bad / ..
c x `clock`
p : fs.tree = [{ name = "/t", mount = "none" }]
$ run c -s s -p p
s : { => 7 script refused: &
s : [] => 7 script refused: &
s : {"answers":[],"calls":[],"x":1,"b":2} => 7 script refused: b&
s : {"calls":[]} => 7 script refused: answers&
s : {"answers":[]} => 7 script refused: calls&
s : {"answers":[1],"calls":[["g",[]]]} => 7 script refused: answers[0]&
s : {"answers":[],"calls":[["f",[]],["g",[]]]} => 7 script refused: calls[1]&
s : {"answers":[],"calls":[["f",[1]]]} => 7 script refused: calls[0]&
s : {"answers":[],"calls":[["f",[]]]} => 3 file fault: none&

# Trees that cannot be made, of a run that would come to an end
t : abc
d / x
d/x : x
gone / x
lost / y/
bad / ..
c x `seven`
s : `once`
$ run c -s s -p p
p : fs.tree = [{ name = "/t", mount = "d" }] => 0 ["return",7]&
p : fs.tree = [{ name = "/t", files = { a = { file = "t" } } }] => 0 ["return",7]&
p : fs.tree = [{ name = "/t", files = { a = { file = "none" } } }] => 3 file fault: none&
p : fs.tree = [{ name = "/t", files = { b = { file = "none" }, a = { file = "some" } } }] => 3 file fault: some&
p : fs.tree = [{ name = "/t", mount = "none" }] => 3 file fault: none&
p : fs.tree = [{ name = "/t", mount = "" }] => 3 file fault: &
p : fs.tree = [{ name = "/t", mount = "t" }] => 3 file fault: t&
p : fs.tree = [{ name = "/t", mount = "gone" }] => 3 file fault: gone/x&
p : fs.tree = [{ name = "/t", mount = "lost" }] => 3 file fault: lost/y&
p : fs.tree = [{ name = "/t", mount = "bad" }] => 1 policy refused: bad-name ..&
p : fs.tree = [{ name = "/t", mount = "d" }, { name = "/u", mount = "none" }] => 3 file fault: none&
p : fs.tree = [{ name = "/t", folders = ["a/a/a/a/a/a/a/a/a/a/a/a/a/a/a/a/a/a/a/a/a/a/a/a/a/a/a/a/a/a/a/a/a/a/a/a/a/a/a/a/a/a/a/a/a/a/a/a/a/a/a/a/a/a/a/a/a/a/a/a/a/a/a/a"] }] => 0 ["return",7]&
p : fs.tree = [{ name = "/t", folders = ["a/a/a/a/a/a/a/a/a/a/a/a/a/a/a/a/a/a/a/a/a/a/a/a/a/a/a/a/a/a/a/a/a/a/a/a/a/a/a/a/a/a/a/a/a/a/a/a/a/a/a/a/a/a/a/a/a/a/a/a/a/a/a/a/a"] }] => 5 over limit: tree-depth 65&

# Files in their order; the component `s` and the scripts `c` and `t` are none
t : abc
d / x
d/x : x
gone / x
lost / y/
bad / ..
c x `seven`
s : `once`
p : fs.tree = [{ name = "/t", mount = "none" }]
$ run x -s y -p z => 3 file fault: z&
$ run x -s y -p p => 3 file fault: x&
$ run s -s y -p p => 2 application refused: malformed at 0&
$ run c -s y -p p => 3 file fault: y&
$ run c -s t -p p => 7 script refused: &
$ run c -s s -p p => 3 file fault: none&
$ run c -s s -p t => 1 policy refused: not-toml&
$ run c -s s => 0 ["return",7]&

# A refused policy comes first
t : abc
d / x
d/x : x
gone / x
lost / y/
bad / ..
c x `seven`
s : `once`
p : slots = 0
$ run x -s y -p p => 1 policy refused: bad-value slots&
$ run s -s y -p p => 1 policy refused: bad-value slots&
$ run c -s s -p p --steps 1 => 1 policy refused: bad-value slots&

# Nothing of a run that would trap is seen before its trees are there
t : abc
d / x
d/x : x
gone / x
lost / y/
bad / ..
c x `clock`
s : `once`
$ run c -s s -p p
p : fs.tree = [{ name = "/t", mount = "none" }] => 3 file fault: none&
p : fs.tree = [{ name = "/t", mount = "d" }] => 10 ["trap"]&"##;

#[test]
fn refusals_come_in_their_order(rt: HostRuntime) -> Result<(), Fail> {
    hold(&rt, rt.alloc(), Over::Memory, ROWS)
}
