//! How runs under a policy end, each with its status and its lines, and how the outputs of the same components do.

use crate::rows::{Over, hold};
use std::test::Fail;

/// Runs that come out alike where the component is wrapped.
const ALIKE: &str =
    r##"# The clock reader, whose script has no answers: the policy says whether one is asked for
c x `clock`
s : `once`
$ run c -s s -p p
p : clocks.monotonic = 5 => 0 ["return",5]&
p : clocks.monotonic = 0 => 0 ["return",0]&
p : clocks.monotonic = 9223372036854775807 => 0 ["return",9223372036854775807]&
p : => 10 ["trap"]&
p : deny = "error" => 10 ["trap"]&
p : clocks.monotonic = "deny" => 10 ["trap"]&
p : clocks.wall = "allow" => 10 ["trap"]&
p : clocks.monotonic = "allow" => 11 ["call","wasi:clocks/monotonic-clock@0.2.0","now",[]]&["script-ended"]&

# The clock reader under an allowed clock: the answers of two calls
c x `clock`
p : clocks.monotonic = "allow"
$ run c -s s -p p
s : {"answers":[{"value":3},{"value":18446744073709551615}],"calls":[["f",[]],["f",[]]]} => 0 ["call","wasi:clocks/monotonic-clock@0.2.0","now",[]]&["return",3]&["call","wasi:clocks/monotonic-clock@0.2.0","now",[]]&["return",18446744073709551615]&
s : {"answers":[{"value":3}],"calls":[["f",[]],["f",[]]]} => 11 ["call","wasi:clocks/monotonic-clock@0.2.0","now",[]]&["return",3]&["call","wasi:clocks/monotonic-clock@0.2.0","now",[]]&["script-ended"]&
s : {"answers":["trap"],"calls":[["f",[]],["f",[]]]} => 10 ["call","wasi:clocks/monotonic-clock@0.2.0","now",[]]&["trap"]&
s : {"answers":[{"value":3},"trap"],"calls":[["f",[]],["f",[]]]} => 10 ["call","wasi:clocks/monotonic-clock@0.2.0","now",[]]&["return",3]&["call","wasi:clocks/monotonic-clock@0.2.0","now",[]]&["trap"]&
s : {"answers":[{"value":"x"}],"calls":[["f",[]],["f",[]]]} => 13 ["call","wasi:clocks/monotonic-clock@0.2.0","now",[]]&["bad-answer"]&
s : {"answers":[{"value":18446744073709551616}],"calls":[["f",[]],["f",[]]]} => 13 ["call","wasi:clocks/monotonic-clock@0.2.0","now",[]]&["bad-answer"]&
s : {"answers":[{}],"calls":[["f",[]],["f",[]]]} => 13 ["call","wasi:clocks/monotonic-clock@0.2.0","now",[]]&["bad-answer"]&

# A component without imports runs under every policy as under none
c x `seven`
s : `once`
$ run c -s s -p p
p : => 0 ["return",7]&
p : deny = "error" => 0 ["return",7]&
p : slots = 1 => 0 ["return",7]&
p : slots = 4096 => 0 ["return",7]&
p : version = 2 => 0 ["return",7]&
p : fs.scratch = { name = "/s", blocks = 1, files = 1 } => 0 ["return",7]&

# An answer of as many bytes as may pass, and one of a byte more
c x `passes`
p : transfer-limit = 65536&random = "allow"
room 200000
$ run c -s s -p p
s : {"answers":[{"value":[0`65535*,0`]}],"calls":[["get-random-bytes",[9]]]} => 0 ["call","wasi:random/random@0.2.0","get-random-bytes",[9]]&["return",[0`65535*,0`]]&
s : {"answers":[{"value":[0`65536*,0`]}],"calls":[["get-random-bytes",[9]]]} => 10 ["call","wasi:random/random@0.2.0","get-random-bytes",[9]]&["trap"]&"##;

const ALONE: &str = r##"# Words
c x `clock`
s : `once`
p : clocks.monotonic = 5
$ run c -s s -p p => 0 ["return",5]&
$ run -p p -s s c => 0 ["return",5]&
$ run c -pp -ss => 0 ["return",5]&
$ run c --policy p --script s => 0 ["return",5]&
$ run --policy=p --script=s c => 0 ["return",5]&

# The steps of a host call that the policy answers: the module's making, the lifted call, `call`, and the lowered call
c x `clock`
s : `once`
p : clocks.monotonic = 5
$ run c -s s -p p --steps 4 => 0 ["return",5]&
$ run c -s s -p p --steps 3 => 12 ["spent"]&
$ run c -s s -p p --steps 1 => 12 ["spent"]&

# Depths
c x `itself`
s : `once`
p :
$ run c -s s -p p => 14 ["too-deep"]&
$ run c -s s -p p --steps 60000 => 12 ["spent"]&
$ run c -s s -p p --steps 65537 => 12 ["spent"]&
$ run c -s s -p p --steps 65538 => 14 ["too-deep"]&

# Each line is one put, and the first that fails is the last
c x `clock`
s : `twice`
p : clocks.monotonic = 5
$ run c -s s -p p
puts 0 => 4
puts 1 => 4 ["return",5]&
puts 2 => 0 ["return",5]&["return",5]&
puts 9
room 15 => 4 ["return",5]&[""##;

/// Runs of large tables, and at the transfer limit.
const LARGE: &str =
    r##"# The last file of 32,768 is opened within 100,000 steps, which trying one after another would not be
c x `opens`
p : fs.tree = [{ name = "/t", files = { `32767*n# = { text = "" }, `n32767 = { text = "" } } }]
s : {"answers":[],"calls":[["get-directories",[]],["descriptor-open-at",[1,[],"n32767",[],[]]],["descriptor-open-at",[1,[],"n32768",[],[]]]]}
$ run c -s s -p p --steps 100000 => 0 ["return",[[1,"/t"]]]&["return",{"ok":2}]&["return",{"err":"no-entry"}]&

# 4,096 pollables are made and dropped within the steps that a run has where nothing is said; a place more is not there
c x `waits`
p : slots = 4096&clocks.monotonic = 0
room 400000
$ run c -s s -p p
s : {"answers":[],"calls":[`4096*["monotonic-clock-subscribe-duration",[0]],``1..4097*["drop-pollable",[#]],`["monotonic-clock-subscribe-duration",[0]]]} => 0 `1..4097*["return",#]&``4096*["return"]&`["return",4096]&
s : {"answers":[],"calls":[`4097*["monotonic-clock-subscribe-duration",[0]],`["poll",[[1]]]]} => 10 `1..4097*["return",#]&`["trap"]&

# The weight of a call: 65,536 bytes of arguments pass and eight more do not; nor do they together with what is answered
c x `waits`
p : transfer-limit = 65536&clocks.monotonic = "allow"
room 600000
$ run c -s s -p p
s : {"answers":[{"value":7},{"value":[]}],"calls":[["monotonic-clock-subscribe-duration",[0]],["poll",[[`16383*1,`1]]]]} => 0 `asked`["call","wasi:io/poll@0.2.0","poll",[[`16383*7,`7]]]&["return",[]]&
s : {"answers":[{"value":7},{"value":[]}],"calls":[["monotonic-clock-subscribe-duration",[0]],["poll",[[`16384*1,`1]]]]} => 10 `asked`["trap"]&
s : {"answers":[{"value":7},{"value":[`16383*0,`0]}],"calls":[["monotonic-clock-subscribe-duration",[0]],["poll",[[1]]]]} => 10 `asked`["call","wasi:io/poll@0.2.0","poll",[[7]]]&["trap"]&
s : {"answers":[{"value":7},{"value":[`16381*0,`0]}],"calls":[["monotonic-clock-subscribe-duration",[0]],["poll",[[1,1]]]]} => 0 `asked`["call","wasi:io/poll@0.2.0","poll",[[7,7]]]&["return",[`16381*0,`0]]&
s : {"answers":[{"value":7},{"value":[`6383*0,`0]}],"calls":[["monotonic-clock-subscribe-duration",[0]],["poll",[[`9999*1,`1]]]]} => 0 `asked`["call","wasi:io/poll@0.2.0","poll",[[`9999*7,`7]]]&["return",[`6383*0,`0]]&
s : {"answers":[{"value":7},{"value":[`6384*0,`0]}],"calls":[["monotonic-clock-subscribe-duration",[0]],["poll",[[`9999*1,`1]]]]} => 10 `asked`["call","wasi:io/poll@0.2.0","poll",[[`9999*7,`7]]]&["trap"]&"##;

#[test]
fn runs_end(rt: HostRuntime) -> Result<(), Fail> {
    hold(&rt, rt.alloc(), Over::Memory, ALIKE)?;
    hold(&rt, rt.alloc(), Over::Memory, ALONE)?;
    hold(&rt, rt.alloc(), Over::Memory, LARGE)
}

#[test]
fn wrapped_runs_end(rt: HostRuntime) -> Result<(), Fail> {
    hold(&rt, rt.alloc(), Over::Wrapped, ALIKE)?;
    hold(&rt, rt.alloc(), Over::Wrapped, LARGE)
}
