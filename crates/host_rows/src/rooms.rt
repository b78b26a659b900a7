//! What is full, and what is denied.

use crate::blocks::hold;
use std::test::Fail;

const ROWS: &str = r##"# Sockets without a place answer out-of-memory, and the host is not asked
slots = 1
sockets = "allow"
: {"value":5},{"value":{"ok":6}},{"value":{"ok":7}},{"value":{"ok":8}}
instance-network [] => ["call","wasi:sockets/instance-network@0.2.0","instance-network",[]] 0
create-tcp-socket ["ipv4"] => ["call","wasi:sockets/tcp-create-socket@0.2.0","create-tcp-socket",["ipv4"]] {"ok":1}
create-tcp-socket ["ipv4"] => {"err":"out-of-memory"}
create-udp-socket ["ipv4"] => ["call","wasi:sockets/udp-create-socket@0.2.0","create-udp-socket",["ipv4"]] {"ok":2}
create-udp-socket ["ipv6"] => {"err":"out-of-memory"}
instance-network [] => trap
drop tcp-socket 1 => ["drop","wasi:sockets/tcp@0.2.0","tcp-socket",6] done
create-tcp-socket ["ipv6"] => ["call","wasi:sockets/tcp-create-socket@0.2.0","create-tcp-socket",["ipv6"]] {"ok":1}

# Each of the handles that a result holds needs its place
slots = 1
sockets = "allow"
: {"value":{"ok":6}},{"value":{"ok":[10,11]}},{"value":{"ok":[12,13]}}
create-tcp-socket ["ipv4"] => ["call","wasi:sockets/tcp-create-socket@0.2.0","create-tcp-socket",["ipv4"]] {"ok":0}
tcp-socket.accept [0] => {"err":"out-of-memory"}
tcp-socket.finish-connect [0] => ["call","wasi:sockets/tcp@0.2.0","[method]tcp-socket.finish-connect",[6]] {"ok":[1,2]}
tcp-socket.finish-connect [0] => {"err":"out-of-memory"}
drop input-stream 1 => ["drop","wasi:io/streams@0.2.0","input-stream",10] done
tcp-socket.finish-connect [0] => {"err":"out-of-memory"}
drop output-stream 2 => ["drop","wasi:io/streams@0.2.0","output-stream",11] done
tcp-socket.finish-connect [0] => ["call","wasi:sockets/tcp@0.2.0","[method]tcp-socket.finish-connect",[6]] {"ok":[1,2]}

# Streams of datagrams and of addresses
slots = 1
sockets = "allow"
: {"value":5},{"value":{"ok":6}},{"value":{"ok":[7,8]}},{"value":{"ok":9}},{"value":10}
instance-network [] => ["call","wasi:sockets/instance-network@0.2.0","instance-network",[]] 0
create-udp-socket ["ipv4"] => ["call","wasi:sockets/udp-create-socket@0.2.0","create-udp-socket",["ipv4"]] {"ok":1}
udp-socket.stream [1,null] => ["call","wasi:sockets/udp@0.2.0","[method]udp-socket.stream",[6,null]] {"ok":[2,3]}
udp-socket.stream [1,null] => {"err":"out-of-memory"}
drop incoming-datagram-stream 2 => ["drop","wasi:sockets/udp@0.2.0","incoming-datagram-stream",7] done
udp-socket.stream [1,null] => {"err":"out-of-memory"}
resolve-addresses [0,"a"] => ["call","wasi:sockets/ip-name-lookup@0.2.0","resolve-addresses",[5,"a"]] {"ok":2}
resolve-addresses [0,"a"] => {"err":"out-of-memory"}
resolve-address-stream.subscribe [2] => ["call","wasi:sockets/ip-name-lookup@0.2.0","[method]resolve-address-stream.subscribe",[9]] 4
udp-socket.subscribe [1] => trap
resolve-address-stream.subscribe [2] => trap

# Descriptors without a place: insufficient-memory, also where the path leads nowhere or a right is refused
slots = 1
fs.tree = [{ name = "/t", files = { f = { text = "xyz" } } }]
get-directories [] => [[0,"/t"]]
descriptor.open-at [0,[],"f",[],[]] => {"err":"insufficient-memory"}
descriptor.open-at [0,[],"b",[],[]] => {"err":"insufficient-memory"}
descriptor.open-at [0,[],"",[],["write"]] => {"err":"insufficient-memory"}
get-directories [] => trap
descriptor.read-directory [0] => {"ok":1}
descriptor.read-directory [0] => {"err":"insufficient-memory"}
drop directory-entry-stream 1 => done
descriptor.read-directory [0] => {"ok":1}

# Streams without a place, also where the descriptor is a folder
slots = 1
stdio = { stdin = "ignore", stdout = "ignore", stderr = "ignore" }
fs.tree = [{ name = "/t" }]
get-directories [] => [[0,"/t"]]
get-stdin [] => 1
get-stdin [] => trap
descriptor.read-via-stream [0,0] => {"err":"insufficient-memory"}
get-stdout [] => 2
get-stdout [] => trap
get-stderr [] => trap
descriptor.write-via-stream [0,0] => {"err":"insufficient-memory"}
descriptor.append-via-stream [0] => {"err":"insufficient-memory"}
input-stream.subscribe [1] => 3
output-stream.subscribe [2] => trap
input-stream.subscribe [1] => trap
drop output-stream 2 => done
descriptor.write-via-stream [0,0] => {"err":"read-only"}
descriptor.append-via-stream [0] => {"err":"read-only"}

# Of the host's descriptors too, which is not asked
slots = 1
fs.host = "all"
: {"value":[[7,"/h"]]},{"value":{"ok":8}}
get-directories [] => ["call","wasi:filesystem/preopens@0.2.0","get-directories",[]] [[0,"/h"]]
descriptor.open-at [0,[],"f",[],[]] => {"err":"insufficient-memory"}
descriptor.read-via-stream [0,0] => ["call","wasi:filesystem/types@0.2.0","[method]descriptor.read-via-stream",[7,0]] {"ok":1}
descriptor.read-via-stream [0,0] => {"err":"insufficient-memory"}

# Pollables without a place trap, and the host is not asked
clocks.monotonic = "allow"
: `256*{"value":1#},`{"value":7}
`256*subscribe-duration [1] => ["call","wasi:clocks/monotonic-clock@0.2.0","subscribe-duration",[1]] #
`subscribe-duration [1] => trap
subscribe-instant [1] => trap
drop pollable 255 => ["drop","wasi:io/poll@0.2.0","pollable",1255] done
subscribe-duration [2] => ["call","wasi:clocks/monotonic-clock@0.2.0","subscribe-duration",[2]] 255

# So do those of a fixed clock
slots = 1
clocks.monotonic = 5
subscribe-instant [1] => 0
subscribe-duration [1] => trap
drop pollable 0 => done
subscribe-duration [1] => 0

# With every place of an error taken, each function traps whose result can hold one
slots = 1
stdio = { stdin = "allow", stdout = "ignore" }
fs.tree = [{ name = "/t", files = { f = { text = "xyz" } } }]
: {"value":7},{"value":{"err":{"last-operation-failed":9}}},{"value":"why"},{"value":{"ok":[1]}}
get-stdin [] => ["call","wasi:cli/stdin@0.2.0","get-stdin",[]] 0
get-stdout [] => 1
input-stream.read [0,1] => ["call","wasi:io/streams@0.2.0","[method]input-stream.read",[7,1]] {"err":{"last-operation-failed":2}}
input-stream.read [0,1] => trap
input-stream.blocking-read [0,1] => trap
input-stream.skip [0,1] => trap
input-stream.blocking-skip [0,1] => trap
output-stream.check-write [1] => trap
output-stream.write [1,[]] => trap
output-stream.blocking-write-and-flush [1,[]] => trap
output-stream.flush [1] => trap
output-stream.blocking-flush [1] => trap
output-stream.write-zeroes [1,0] => trap
output-stream.blocking-write-zeroes-and-flush [1,0] => trap
output-stream.splice [1,0,0] => trap
output-stream.blocking-splice [1,0,0] => trap
error.to-debug-string [2] => ["call","wasi:io/error@0.2.0","[method]error.to-debug-string",[9]] "why"
output-stream.subscribe [1] => 3
drop error 2 => ["drop","wasi:io/error@0.2.0","error",9] done
output-stream.check-write [1] => {"ok":65536}
input-stream.read [0,1] => ["call","wasi:io/streams@0.2.0","[method]input-stream.read",[7,1]] {"ok":[1]}

# A read of an input without bytes, and of a file, with every place of an error taken
slots = 2
stdio = { stdin = "ignore", stdout = "allow" }
fs.tree = [{ name = "/t", files = { f = { text = "xyz" } } }]
: {"value":7},{"value":{"err":{"last-operation-failed":8}}},{"value":{"err":{"last-operation-failed":9}}}
get-stdout [] => ["call","wasi:cli/stdout@0.2.0","get-stdout",[]] 0
get-stdin [] => 1
get-directories [] => [[2,"/t"]]
descriptor.open-at [2,[],"f",[],[]] => {"ok":3}
descriptor.read-via-stream [3,0] => {"ok":4}
output-stream.flush [0] => ["call","wasi:io/streams@0.2.0","[method]output-stream.flush",[7]] {"err":{"last-operation-failed":5}}
input-stream.read [1,1] => {"err":{"closed":null}}
output-stream.check-write [0] => ["call","wasi:io/streams@0.2.0","[method]output-stream.check-write",[7]] {"err":{"last-operation-failed":6}}
input-stream.read [1,1] => trap
input-stream.skip [4,1] => trap
descriptor.read [3,1,0] => {"ok":[[120],false]}
drop error 5 => ["drop","wasi:io/error@0.2.0","error",8] done
input-stream.read [4,1] => {"ok":[120]}

# A terminal without a place traps, also where none is answered
slots = 1
stdio = { stdin = "allow", stdout = "allow", stderr = "deny" }
: {"value":{"some":7}},{"value":{"some":8}}
get-terminal-stdin [] => ["call","wasi:cli/terminal-stdin@0.2.0","get-terminal-stdin",[]] {"some":0}
get-terminal-stdin [] => trap
get-terminal-stderr [] => null
get-terminal-stdout [] => ["call","wasi:cli/terminal-stdout@0.2.0","get-terminal-stdout",[]] {"some":1}
get-terminal-stderr [] => trap
drop terminal-output 1 => ["drop","wasi:cli/terminal-output@0.2.0","terminal-output",8] done
get-terminal-stderr [] => null

# What is denied traps
get-stdin [] => trap
get-stdout [] => trap
get-stderr [] => trap
get-terminal-stdin [] => null
wall-clock#now [] => trap
wall-clock#resolution [] => trap
monotonic-clock#now [] => trap
monotonic-clock#resolution [] => trap
subscribe-instant [1] => trap
subscribe-duration [1] => trap
get-random-bytes [1] => trap
get-random-u64 [] => trap
get-insecure-random-bytes [1] => trap
get-insecure-random-u64 [] => trap
insecure-seed [] => trap
exit [{"ok":null}] => trap
instance-network [] => trap
create-tcp-socket ["ipv4"] => trap
create-udp-socket ["ipv6"] => trap

# With deny = "error", sockets that are denied answer it, and all else traps
deny = "error"
create-tcp-socket ["ipv4"] => {"err":"access-denied"}
create-udp-socket ["ipv6"] => {"err":"access-denied"}
instance-network [] => trap
tcp-socket.start-listen [0] => trap
resolve-addresses [0,"a"] => trap
get-random-u64 [] => trap
get-stdin [] => trap
monotonic-clock#now [] => trap
wall-clock#now [] => trap
exit [{"ok":null}] => trap
create-tcp-socket ["ipv4"] => {"err":"access-denied"}"##;

#[test]
fn rooms_hold(rt: HostRuntime) -> Result<(), Fail> {
    hold(&rt, rt.alloc(), ROWS)
}
