//! What was plugged runs: what the second takes from the first, and what both take from the host.

use crate::rows::{Over, hold};
use std::test::Fail;

const ROWS: &str =
    r##"# A resource of the first's: `once` makes a thing of 41, asks it for its value, which is one more, and drops it; `gone` says how often the destructor has
# run; `twice` drops a thing a second time
show none
out 65536
room 4000
a x `gives_things`
b x `asks_things`
before plug a b -p p -o o
$ run o -s s
p :
s : {"answers":[],"calls":[["once",[]],["gone",[]]]} => 0 ["return",42]&["return",1]&
s : {"answers":[],"calls":[["once",[]],["once",[]],["gone",[]]]} => 0 ["return",42]&["return",42]&["return",2]&
s : {"answers":[],"calls":[["gone",[]],["twice",[]],["gone",[]]]} => 10 ["return",0]&["trap"]&

# The first hands on the host's stdin: what the second drops is the host's
show none
out 65536
room 4000
a x `gives_stdin`
b x `takes_stream`
before plug a b -p p -o o
$ run o -s s
p : stdio.stdin = "allow"
s : {"answers":[{"value":9}],"calls":[["f",[]]]} => 0 `stdin_asked``stdin_dropped`["return"]&
p : stdio.stdin = "ignore" => 0 ["return"]&
p : => 10 ["trap"]&

# It takes the stream into its own table before
show none
out 65536
room 4000
a x `gives_stdin_itself`
b x `takes_stream`
before plug a b -p p -o o
$ run o -s s
p : stdio.stdin = "allow"
s : {"answers":[{"value":9}],"calls":[["f",[]]]} => 0 `stdin_asked``stdin_dropped`["return"]&
p : stdio.stdin = "ignore" => 0 ["return"]&
p : => 10 ["trap"]&

# The second imports the first's instance before the host's, and so has two resources that are one
show none
out 65536
room 4000
a x `gives_stdin_typed`
b x `takes_stream_late`
before plug a b -p p -o o
$ run o -s s
p : stdio.stdin = "allow"
s : {"answers":[{"value":9}],"calls":[["f",[]]]} => 0 `stdin_asked``stdin_dropped`["return"]&
p : stdio.stdin = "ignore" => 0 ["return"]&
p : => 10 ["trap"]&

# The first takes the host's clock, and shows the second one that is 1 ahead
show none
out 65536
room 4000
a x `clock_plus`
b x `asks_now`
before plug a b -p p -o o
$ run o -s s
p : clocks.monotonic = 5
s : `once` => 0 ["return",6]&
p : clocks.monotonic = "allow"
s : {"answers":[{"value":3}],"calls":[["f",[]]]} => 0 `read`["return",4]&
s : `once` => 11 `read`["script-ended"]&
p : => 10 ["trap"]&

# The same component twice is 2 ahead
show none
out 65536
room 4000
a x `clock_plus`
b x `clock_plus`
before plug a b -p p -o o
$ run o -s s
p : clocks.monotonic = 5
s : {"answers":[],"calls":[["wasi:clocks/monotonic-clock@0.2.0#now",[]]]} => 0 ["return",7]&
p : clocks.monotonic = "allow"
s : {"answers":[{"value":3}],"calls":[["wasi:clocks/monotonic-clock@0.2.0#now",[]]]} => 0 `read`["return",5]&

# A clock that is the first's own, under every policy
show none
out 65536
room 4000
a x `clock_fixed`
b x `asks_now`
before plug a b -p p -o o
$ run o -s s
p :
s : `once` => 0 ["return",5]&
p : clocks.monotonic = 8 => 0 ["return",5]&
p : clocks.monotonic = "allow" => 0 ["return",5]&

# Where the first exports a type under the clock's name, the second's clock is the host's
show none
out 65536
room 4000
a x `gives_clock_type`
b x `asks_now_7`
before plug a b -p p -o o
$ run o -s s
p : clocks.monotonic = 8
s : `once` => 0 ["return",8]&
p : clocks.monotonic = "allow"
s : {"answers":[{"value":3}],"calls":[["f",[]]]} => 0 `read`["return",3]&

# More is given than is asked for
show none
out 65536
room 4000
a x `gives_more`
b x `asks7`
before plug a b -p p -o o
$ run o -s s
p :
s : `once` => 0 ["return",7]&

# Two imports are met
show none
out 65536
room 4000
a x `gives_two`
b x `asks_two`
before plug a b -p p -o o
$ run o -s s
p :
s : {"answers":[],"calls":[["f",[]],["g",[]]]} => 0 ["return",7]&["return",8]&

# The instance that is handed on has what the second asks for, and a script can call no more of it
show none
out 65536
room 4000
a x `gives_more`
b x `hands_on`
before plug a b -p p -o o
$ run o -s s
p :
s : {"answers":[],"calls":[["i#get",[]]]} => 0 ["return",7]&
s : {"answers":[],"calls":[["i#more",[]]]} => 7 script refused: calls[0]&

# The first starts before the second
show none
out 65536
room 4000
a x `insecure_start`
b x `random_and_7`
before plug a b -p p -o o
$ run o -s s
p : random = "allow"
s : {"answers":[{"value":1},{"value":2}],"calls":[["f",[]]]} => 0 `drawn_insecure``drawn`["return",7]&
s : {"answers":[{"value":1}],"calls":[["f",[]]]} => 11 `drawn_insecure``drawn`["script-ended"]&
s : {"answers":[],"calls":[["f",[]]]} => 11 `drawn_insecure`["script-ended"]&
p :
s : {"answers":[{"value":1},{"value":2}],"calls":[["f",[]]]} => 10 ["trap"]&

# Both ask one function of the host
show none
out 65536
room 4000
a x `random_start`
b x `random_and_7`
before plug a b -p p -o o
$ run o -s s
p : random = "allow"
s : {"answers":[{"value":1},{"value":2}],"calls":[["f",[]]]} => 0 `drawn``drawn`["return",7]&

# What the first asks is denied
show none
out 65536
room 4000
a x `random_get`
b x `asks_u64`
before plug a b -p p -o o
$ run o -s s
p :
s : `once` => 10 ["trap"]&
p : random = "allow"
s : {"answers":[{"value":12}],"calls":[["f",[]]]} => 0 `drawn`["return",12]&

# The second gives the first a stream of the host's, which the first's destructor drops
show none
out 65536
room 4000
a x `gives_log`
b x `uses_log`
before plug a b -p p -o o
$ run o -s s
p : stdio.stdout = "allow"
s : {"answers":[{"value":9}],"calls":[["f",[]]]} => 0 ["call","wasi:cli/stdout@0.2.0","get-stdout",[]]&["drop","wasi:io/streams@0.2.0","output-stream",9]&["return"]&
p : stdio.stdout = "ignore" => 0 ["return"]&

# The second lends the first a pollable of the host's, which drops what it was lent
show none
out 65536
room 4000
a x `look_drops`
b x `lends`
before plug a b -p p -o o
$ run o -s s
p : clocks.monotonic = "allow"
s : {"answers":[{"value":3}],"calls":[["f",[]]]} => 0 `waited``pollable_dropped`["return"]&
p : clocks.monotonic = 5 => 0 ["return"]&

# And which keeps it: its return traps
show none
out 65536
room 4000
a x `look_keeps`
b x `lends`
before plug a b -p p -o o
$ run o -s s
p : clocks.monotonic = "allow"
s : {"answers":[{"value":3}],"calls":[["f",[]]]} => 10 `waited`["trap"]&
p : clocks.monotonic = 5 => 10 ["trap"]&

# A pollable of the first's own, and a clock that gives one
show none
out 65536
room 4000
a x `own_poll_clock`
b x `asks_wait`
before plug a b -p p -o o
$ run o -s s
p :
s : `once` => 0 ["return"]&
p : clocks.monotonic = "allow" => 0 ["return"]&

# The first hands on the host's `wasi:io/poll`; the second's clock is the host's
show none
out 65536
room 4000
a x `handed_poll`
b x `asks_wait`
before plug a b -p p -o o
$ run o -s s
p : clocks.monotonic = "allow"
s : {"answers":[{"value":3}],"calls":[["f",[]]]} => 0 `waited``pollable_dropped`["return"]&
p : clocks.monotonic = 5
s : `once` => 0 ["return"]&

# Two resources of the second are one of the first's: what was given under one name is dropped under the other
show none
out 65536
room 4000
a x `gives_same`
b x `takes_same`
before plug a b -p p -o o
$ run o -s s
p :
s : `once` => 0 ["return"]&

# The streams that the first hands on count for no resource of the host's: the second has another beside them
show none
out 65536
room 4000
a x `handed_streams`
b x `asks_stdin_twice`
before plug a b -p p -o o
$ run o -s s
p : stdio.stdin = "allow"
s : {"answers":[{"value":9}],"calls":[["f",[]]]} => 0 `stdin_asked``stdin_dropped`["return"]&
p : stdio.stdin = "ignore" => 0 ["return"]&

# Another version of what the first exports, and of what nobody else imports, is the host's
show none
out 65536
room 4000
a x `clock_fixed`
b x `asks_now_twice`
before plug a b -p p -o o
$ run o -s s
p : clocks.monotonic = 8
s : {"answers":[],"calls":[["f",[]],["g",[]]]} => 0 ["return",5]&["return",8]&
p : clocks.monotonic = "allow"
s : {"answers":[{"value":3}],"calls":[["f",[]],["g",[]]]} => 0 ["return",5]&["call","wasi:clocks/monotonic-clock@0.2.6","now",[]]&["return",3]&

# A kind that nobody lists before stands in the first interface whose function gives it
show none
out 65536
room 4000
a x `gives_stderr`
b x `takes_stderr`
before plug a b -p p -o o
$ run o -s s
p : stdio.stdout = "allow"&stdio.stderr = "allow"
s : {"answers":[{"value":4},{"value":5}],"calls":[["f",[]]]} => 0 ["call","wasi:cli/stderr@0.2.0","get-stderr",[]]&["drop","wasi:io/streams@0.2.0","output-stream",4]&["call","wasi:cli/stdout@0.2.0","get-stdout",[]]&["drop","wasi:io/streams@0.2.0","output-stream",5]&["return"]&
p : stdio.stdout = "ignore"&stdio.stderr = "ignore"
s : {"answers":[],"calls":[["f",[]]]} => 0 ["return"]&"##;

#[test]
fn plugged_components_run(rt: HostRuntime) -> Result<(), Fail> {
    hold(&rt, rt.alloc(), Over::Memory, ROWS)
}
