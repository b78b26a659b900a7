//! Why two components are not plugged, and what comes first.

use crate::rows::{Over, hold};
use std::test::Fail;

const ORDERS: &str = r##"# Words, the policy, its text, the first, the second
c x `gives7`
d x `asks7`
q : x
r :
m :
show none
out 1000
$ plug a b -p p => 64 `usage`&
$ plug a b -p p -o o => 3 file fault: p&
$ plug a b -p q -o o => 1 policy refused: not-toml&
$ plug a b -p r -o o => 3 file fault: a&
$ plug c b -p r -o o => 3 file fault: b&
$ plug m b -p r -o o => 3 file fault: b&
$ plug m m -p r -o o => 8 plug refused: first malformed at 0&
$ plug c m -p r -o o => 8 plug refused: second malformed at 0&
$ plug m d -p r -o o => 8 plug refused: first malformed at 0&
$ plug c d -p r -o o => 0 done: 358 bytes in, 392 bytes out, 0 functions imported&

# Components that are nested too deep are refused as they are read: one that fails before that is kept
c x `gives7`
m :
n x `empty`04bd08`nested`
p :
$ plug n b -p p -o o => 5 over limit: nesting 101&
$ plug n m -p p -o o => 5 over limit: nesting 101&
$ plug b n -p p -o o => 3 file fault: b&
$ plug c n -p p -o o => 5 over limit: nesting 101&
$ plug m n -p p -o o => 5 over limit: nesting 101&
$ plug c b -p p -o o
b x `empty`04bd08`nested`0c00 => 5 over limit: nesting 101&
b x `empty`0c0004bd08`nested` => 8 plug refused: second unsupported at 8 byte 0c&
$ plug a b -p p -o o
b :
a x `empty`04bd08`nested`0c00 => 5 over limit: nesting 101&
a x `empty`0c0004bd08`nested` => 8 plug refused: first unsupported at 8 byte 0c&"##;

const REFUSALS: &str =
    r##"# The first is refused for its first cause, whatever is wrong with the second: that is malformed here
p :
b :
show none
$ plug a b -p p -o o
a : => 8 plug refused: first malformed at 0&
a x `seven`00 => 8 plug refused: first malformed at 83&
a x `unsupported` => 8 plug refused: first unsupported at 43 byte 92&
a x `badly_typed` => 8 plug refused: first invalid rule 1 section 0&
a x `lifts_none` => 8 plug refused: first invalid rule 3 section 4&
a x `unlisted` => 8 plug refused: first unlisted wasi:http/types@0.2.0&
a x `two_polls` => 8 plug refused: first two-versions wasi:io/poll@0.2.3&
a x `wrong_random` => 8 plug refused: first wrong-type wasi:random/random@0.2.0&
a x `asks_stdin_twice` => 8 plug refused: first wrong-type wasi:cli/stdin@0.2.0&

# The second, too, though none of its imports would be met
p :
a x `gives7`
$ plug a b -p p -o o
b : => 8 plug refused: second malformed at 0&
b x `seven`00 => 8 plug refused: second malformed at 83&
b x `unsupported` => 8 plug refused: second unsupported at 43 byte 92&
b x `badly_typed` => 8 plug refused: second invalid rule 1 section 0&
b x `lifts_none` => 8 plug refused: second invalid rule 3 section 4&
b x `unlisted` => 8 plug refused: second unlisted wasi:http/types@0.2.0&
b x `two_polls` => 8 plug refused: second two-versions wasi:io/poll@0.2.3&
b x `wrong_random` => 8 plug refused: second wrong-type wasi:random/random@0.2.0&
b x `asks_stdin_twice_7` => 8 plug refused: second wrong-type wasi:cli/stdin@0.2.0&

# The first's imports in their order; nothing meets them, and a second version comes before a wrong type
p :
$ plug a b -p p -o o
b x `asks7`
a x `imports_uw` => 8 plug refused: first unlisted local:a/b&
a x `imports_wu` => 8 plug refused: first wrong-type wasi:random/random@0.2.0&
a x `imports_ntu` => 8 plug refused: first two-versions wasi:clocks/monotonic-clock@0.2.6&
a x `imports_ntw` => 8 plug refused: first two-versions wasi:clocks/monotonic-clock@0.2.6&
a x `imports_s` => 8 plug refused: first unlisted local:seven/seven&

# The second's imports in their order, one that is met among them; these refusals come before `nothing met`
p :
$ plug a b -p p -o o
a x `gives7`
b x `imports_suw` => 8 plug refused: second unlisted local:a/b&
b x `imports_swu` => 8 plug refused: second wrong-type wasi:random/random@0.2.0&
b x `imports_xu` => 8 plug refused: second wrong-type local:seven/seven&
b x `imports_ux` => 8 plug refused: second unlisted local:a/b&
b x `imports_snt` => 8 plug refused: second two-versions wasi:clocks/monotonic-clock@0.2.6&
b x `imports_sntw` => 8 plug refused: second two-versions wasi:clocks/monotonic-clock@0.2.6&
b x `imports_ntwx` => 8 plug refused: second two-versions wasi:clocks/monotonic-clock@0.2.6&
b x `imports_u` => 8 plug refused: second unlisted local:a/b&
b x `imports_w` => 8 plug refused: second wrong-type wasi:random/random@0.2.0&
b x `imports_nt` => 8 plug refused: second two-versions wasi:clocks/monotonic-clock@0.2.6&

# The first imports the interface in another version, which counts before a wrong type
p :
$ plug a b -p p -o o
a x `now_shown`
b x `imports_st` => 8 plug refused: second two-versions wasi:clocks/monotonic-clock@0.2.6&
b x `imports_stw` => 8 plug refused: second two-versions wasi:clocks/monotonic-clock@0.2.6&
b x `imports_tx` => 8 plug refused: second two-versions wasi:clocks/monotonic-clock@0.2.6&
b x `imports_xt` => 8 plug refused: second wrong-type local:seven/seven&
a x `random_start`
b x `random_and_7_6` => 8 plug refused: second two-versions wasi:random/random@0.2.6&

# The clock that the first exports is no earlier import; where it imports that version too, it is one
p :
show none
out 20000
$ plug a b -p p -o out.wasm
a x `clock_plus`
b x `asks_now_twice` => 8 plug refused: second two-versions wasi:clocks/monotonic-clock@0.2.6&

# Nothing is met
p :
$ plug a b -p p -o o
a x `seven`
b x `seven` => 8 plug refused: nothing met&
b x `empty` => 8 plug refused: nothing met&
b x `asks_now` => 8 plug refused: nothing met&
a x `gives7`
b x `seven` => 8 plug refused: nothing met&
b x `gives7` => 8 plug refused: nothing met&
b x `asks_now` => 8 plug refused: nothing met&
a x `clock_plus`
b x `gives7` => 8 plug refused: nothing met&
a x `gives_function`
b x `asks_now` => 8 plug refused: nothing met&
a x `gives_clock_type`
b x `asks_now` => 8 plug refused: nothing met&

# Nothing is met comes before a handle in an export, of the host's or of the second's own
p :
$ plug a b -p p -o o
a x `gives7`
b x `stream_back_alone` => 8 plug refused: nothing met&
b x `gives_mute` => 8 plug refused: nothing met&
b x `stream_back` => 8 plug refused: second handle-export f&
a x `gives_things`
b x `thing_back` => 8 plug refused: second handle-export f&

# A handle in an export comes after every import, and before the trees
p : fs.tree = [{ name = "/t", mount = "none" }]
$ plug a b -p p -o o
a x `gives7`
b x `stream_back` => 8 plug refused: second handle-export f&
a x `gives_things`
b x `thing_back` => 8 plug refused: second handle-export f&
a x `gives_two`
b x `stream_back` => 8 plug refused: second handle-export f&
a x `asks7`
b x `stream_back` => 8 plug refused: first unlisted local:seven/seven&
a x `gives7`
b x `asks_u64` => 8 plug refused: second wrong-type local:seven/seven&
b x `seven` => 8 plug refused: nothing met&
b x `asks7` => 3 file fault: none&

# The first may export what it likes
p :
show none
out 1000
$ plug a b -p p -o o
b x `asks7`
a x `gives_mute` => 0 done: 373 bytes in, 407 bytes out, 0 functions imported&
a x `gives_things` => 0 done: 747 bytes in, 781 bytes out, 0 functions imported&"##;

const EDGES: &str = r##"# `get` of another type, a function more, and a name in another case
p :
a x `gives7`
$ plug a b -p p -o o
b x `asks_u64` => 8 plug refused: second wrong-type local:seven/seven&
b x `asks_put` => 8 plug refused: second wrong-type local:seven/seven&
b x `asks_upper` => 8 plug refused: second wrong-type local:seven/seven&
b x `asks_SEVEN` => 8 plug refused: second unlisted local:SEVEN/seven&

# A function under the name of an instance: the first's meets nothing, and the second's is met by none
p :
$ plug a b -p p -o o
a x `gives_function`
b x `asks7` => 8 plug refused: second unlisted local:seven/seven&
b x `asks_function` => 8 plug refused: second unlisted local:seven/seven&
a x `gives7`
b x `asks_function` => 8 plug refused: second wrong-type local:seven/seven&

# One of two is not met
p :
$ plug a b -p p -o o
a x `gives7`
b x `asks_two` => 8 plug refused: second unlisted local:eight/eight&
b x `asks_things` => 8 plug refused: second unlisted local:seven/things&

# A clock of the first's that lacks `now`, or whose `now` answers another type
p : clocks.monotonic = "allow"
$ plug a b -p p -o o
b x `asks_now`
a x `clock_short` => 8 plug refused: second wrong-type wasi:clocks/monotonic-clock@0.2.0&
a x `clock_u32` => 8 plug refused: second wrong-type wasi:clocks/monotonic-clock@0.2.0&

# A pollable of the first's is none of the host's clock's, nor is one that it shows as new
p : clocks.monotonic = "allow"
$ plug a b -p p -o o
b x `asks_wait`
a x `own_poll` => 8 plug refused: second wrong-type wasi:clocks/monotonic-clock@0.2.0&
a x `fresh_poll` => 8 plug refused: second wrong-type wasi:clocks/monotonic-clock@0.2.0&

# A stream of another kind of the host's, and a resource that the first does not show
p : stdio.stdin = "allow"
$ plug a b -p p -o o
a x `gives_stdout`
b x `takes_stream` => 8 plug refused: second wrong-type local:in/in&
a x `gives_stdin`
b x `takes_stream_late` => 8 plug refused: second wrong-type local:in/in&

# A clock of another version than the second wants meets nothing; where the first imports its version, that is refused before
p : clocks.monotonic = "allow"
$ plug a b -p p -o o
b x `imports_t`
a x `clock_fixed` => 8 plug refused: nothing met&
a x `clock_plus` => 8 plug refused: second two-versions wasi:clocks/monotonic-clock@0.2.6&"##;

const FILES: &str = r##"# Sizes, and files that are not read: the first's before the second's
$ plug a b -p p -o o
p :
a ! 33554433 => 5 over limit: application-bytes 33554433&
a ! 33554432 => 3 file fault: a&
a ! 99999999999 => 5 over limit: application-bytes 99999999999&
a ! missing => 3 file fault: a&
a ! failed => 3 file fault: a&
a ! memory => 6
a x `gives7`
b ! 33554433 => 5 over limit: application-bytes 33554433&
b ! 33554432 => 3 file fault: b&
b ! missing => 3 file fault: b&
b ! failed => 3 file fault: b&
b ! memory => 6
a x 00
b ! 33554433 => 5 over limit: application-bytes 33554433&
b ! missing => 3 file fault: b&
p ! 16777217 => 5 over limit: policy-bytes 16777217&
p ! missing => 3 file fault: p&
p ! memory => 6
p :
a ! 33554433 => 5 over limit: application-bytes 33554433&

# So many writes come to pass
$ plug a b -p p -o o
p :
a x `gives7`
b x `asks7`
writes 0 => 3 file fault: o&
writes 1 => 3 file fault: o&
writes 2 => 3 file fault: o&
writes 3 => 3 file fault: o&
writes 4 => 0 done: 358 bytes in, 392 bytes out, 0 functions imported&"##;

#[test]
fn files_come_in_their_order(rt: HostRuntime) -> Result<(), Fail> {
    hold(&rt, rt.alloc(), Over::Memory, ORDERS)?;
    hold(&rt, rt.alloc(), Over::Untold, FILES)
}

#[test]
fn pairs_are_refused(rt: HostRuntime) -> Result<(), Fail> {
    hold(&rt, rt.alloc(), Over::Memory, REFUSALS)?;
    hold(&rt, rt.alloc(), Over::Memory, EDGES)
}
