//! What comes before an answer: names, types and live handles, and the numbers that handles get.

use crate::blocks::hold;
use std::test::Fail;

const ROWS: &str =
    r##"# What is not listed traps: the name of a function or of an interface, and every version but the one it is listed under
clocks.monotonic = 5
random = "allow"
wasi:clocks/monotonic-clock@0.2.0#now [] => 5
wasi:clocks/monotonic-clock@0.2.1#now [] => trap
wasi:clocks/monotonic-clock@0.2.00#now [] => trap
wasi:clocks/monotonic-clock@#now [] => trap
wasi:clocks/wall-clock@0.2.0#subscribe-instant=subscribe-instant [1] => trap
wasi:clocks/timezone@0.2.0#now=monotonic-clock#now [] => trap
wasi:random/random@0.2.0#get-random=get-random-u64 [] => trap
wasi:random/Random@0.2.0#get-random-u64=get-random-u64 [] => trap
get-directories [] => []

# An interface that is imported is listed under the import's version, and every other under the first
@ stdin 0.2.6
@ monotonic-clock 0.2.12
stdio.stdin = "allow"
clocks.monotonic = "allow"
: {"value":7},{"value":{"ok":[]}},{"value":3},{"value":8}
wasi:cli/stdin@0.2.6#get-stdin [] => ["call","wasi:cli/stdin@0.2.6","get-stdin",[]] 0
wasi:cli/stdin@0.2.0#get-stdin [] => trap
input-stream.read [0,1] => ["call","wasi:io/streams@0.2.0","[method]input-stream.read",[7,1]] {"ok":[]}
wasi:clocks/monotonic-clock@0.2.0#now [] => trap
wasi:clocks/monotonic-clock@0.2.12#now [] => ["call","wasi:clocks/monotonic-clock@0.2.12","now",[]] 3
wasi:clocks/monotonic-clock@0.2.12#subscribe-duration [1] => ["call","wasi:clocks/monotonic-clock@0.2.12","subscribe-duration",[1]] 1
drop wasi:cli/stdin@0.2.0#input-stream 0 => done
drop wasi:clocks/monotonic-clock@0.2.12#pollable 1 => ["drop","wasi:io/poll@0.2.0","pollable",8] done
drop wasi:cli/stdin@0.2.6#input-stream 0 => ["drop","wasi:io/streams@0.2.0","input-stream",7] done

# The drop of the host's handle names the interface that defines its kind, in that interface's version
@ streams 0.2.3
stdio.stdin = "allow"
: {"value":7},{"value":9}
get-stdin [] => ["call","wasi:cli/stdin@0.2.0","get-stdin",[]] 0
drop streams@0.2.0#input-stream 0 => done
drop wasi:io/streams@0.2.0#input-stream 0 => done
wasi:io/streams@0.2.3#input-stream.subscribe [0] => ["call","wasi:io/streams@0.2.3","[method]input-stream.subscribe",[7]] 1
drop wasi:cli/stdin@0.2.0#input-stream 0 => ["drop","wasi:io/streams@0.2.3","input-stream",7] done
drop wasi:io/streams@0.2.3#pollable 1 => ["drop","wasi:io/poll@0.2.0","pollable",9] done

# Arguments have the listed types
stdio.stdin = "ignore"
fs.tree = [{ name = "/t" }]
clocks.monotonic = 5
random = "allow"
get-stdin [] => 0
get-directories [] => [[1,"/t"]]
input-stream.read=input-stream.subscribe [0] => trap
input-stream.subscribe=input-stream.read [0,1] => trap
monotonic-clock#now=subscribe-duration [1] => trap
subscribe-duration=exit [{"ok":null}] => trap
get-directories=poll [[]] => trap
poll=get-directories [] => trap

# The types of the call's parameters are not asked, but its result type is
clocks.monotonic = 5
random = "allow"
: {"value":9}
subscribe-duration=subscribe-instant [1] => 0
subscribe-instant=get-random-bytes [1] => trap
get-random-u64=monotonic-clock#now [] => ["call","wasi:random/random@0.2.0","get-random-u64",[]] 9
get-random-u64=wall-clock#now [] => trap
monotonic-clock#now=get-environment [] => trap
monotonic-clock#now=get-random-u64 [] => 5
pollable.block=pollable.ready [0] => trap
pollable.ready=pollable.block [0] => trap

# Labels of the result type are compared, and no numbers of handles
stdio.stdin = "ignore"
fs.tree = [{ name = "/t" }]
get-directories [] => [[0,"/t"]]
descriptor.sync=tcp-socket.finish-bind [0] => trap
descriptor.sync=output-stream.flush [0] => trap
descriptor.sync=descriptor.sync-data [0] => {"ok":null}
get-stdin=get-stdout [] => 1
input-stream.read [1,1] => {"err":{"closed":null}}

# Values are tested against the listed types, and not against the parameters of the call
sockets = "allow"
: {"value":{"ok":6}},{"value":{"ok":null}}
create-tcp-socket ["ipv4"] => ["call","wasi:sockets/tcp-create-socket@0.2.0","create-tcp-socket",["ipv4"]] {"ok":0}
tcp-socket.set-hop-limit=tcp-socket.set-keep-alive-count [0,255] => ["call","wasi:sockets/tcp@0.2.0","[method]tcp-socket.set-hop-limit",[6,255]] {"ok":null}
tcp-socket.set-hop-limit=tcp-socket.set-keep-alive-count [0,256] => trap

# Handles are live, and of their kind
stdio = { stdin = "ignore", stdout = "ignore" }
fs.tree = [{ name = "/t" }]
get-stdin [] => 0
get-stdout [] => 1
get-directories [] => [[2,"/t"]]
input-stream.read [1,1] => trap
input-stream.read [2,1] => trap
input-stream.read [3,1] => trap
input-stream.read [4294967295,1] => trap
output-stream.splice [1,1,0] => trap
output-stream.splice [0,0,0] => trap
descriptor.get-type [0] => trap
descriptor.is-same-object [2,0] => trap
directory-entry-stream.read-directory-entry [0] => trap
poll [[0]] => trap
drop input-stream 0 => done
input-stream.read [0,1] => trap
output-stream.splice [1,0,0] => trap

# A drop of what is not live, or of another kind, changes nothing
stdio = { stdin = "ignore", stdout = "ignore" }
get-stdin [] => 0
get-stdout [] => 1
drop output-stream 0 => done
drop input-stream 1 => done
drop input-stream 2 => done
drop input-stream 4294967295 => done
drop descriptor 0 => done
drop wasi:io/streams@0.2.1#input-stream 0 => done
drop wasi:io/poll@0.2.0#input-stream 0 => done
drop wasi:cli/stdout@0.2.0#input-stream 0 => done
drop wasi:http/types@0.2.0#input-stream 0 => done
drop wasi:io/streams@0.2.0#stream 0 => done
drop wasi:io/streams@0.2.0#stream-error 0 => done
input-stream.subscribe [0] => 2
output-stream.check-write [1] => {"ok":65536}
drop wasi:cli/stdin@0.2.0#input-stream 0 => done
input-stream.subscribe [0] => trap
drop wasi:sockets/tcp@0.2.0#output-stream 1 => done
output-stream.check-write [1] => trap

# A new handle has the least number that is not live, of all kinds together
stdio = { stdin = "ignore", stdout = "ignore", stderr = "ignore" }
get-stdin [] => 0
get-stdout [] => 1
get-stderr [] => 2
input-stream.subscribe [0] => 3
drop output-stream 1 => done
drop input-stream 0 => done
output-stream.subscribe [2] => 0
get-stdin [] => 1
get-stdin [] => 4
drop pollable 3 => done
get-stdin [] => 3"##;

#[test]
fn guards_hold(rt: HostRuntime) -> Result<(), Fail> {
    hold(&rt, rt.alloc(), ROWS)
}
