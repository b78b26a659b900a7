//! What arguments and answers weigh.

use crate::blocks::hold;
use std::test::Fail;

const ROWS: &str =
    r##"# Arguments weigh at most the limit, also those of functions that are answered without the host
transfer-limit = 65536
stdio.stdout = "ignore"
get-stdout [] => 0
output-stream.write [0,[`65535*0,`0]] => {"ok":null}
output-stream.write [0,[`65536*0,`0]] => trap
output-stream.subscribe [0] => 1
poll [[`16383*1,`1]] => [`16383*#,`16383]
poll [[`16384*1,`1]] => trap

# Each text weighs its bytes, rounded up to 8
transfer-limit = 65536
fs.tree = [{ name = "/t" }]
fs.scratch = { name = "/s", blocks = 17, files = 2 }
get-directories [] => [[0,"/t"],[1,"/s"]]
descriptor.symlink-at [0,"`65528*a`","x"] => {"err":"read-only"}
descriptor.symlink-at [0,"`65528*a`","12345678"] => {"err":"read-only"}
descriptor.symlink-at [0,"`65528*a`","123456789"] => trap
descriptor.symlink-at [0,"`65529*a`","x"] => trap
descriptor.symlink-at [0,"`65529*a`",""] => {"err":"read-only"}
descriptor.symlink-at [0,"`65536*a`",""] => {"err":"read-only"}
descriptor.symlink-at [0,"`65537*a`",""] => trap
descriptor.symlink-at [0,"`32764*é`","12345678"] => {"err":"read-only"}
descriptor.symlink-at [0,"`32764*é`","123456789"] => trap
descriptor.write [0,[`65536*1,`1],0] => trap
descriptor.open-at [1,[],"x",["create"],["write"]] => {"ok":2}
descriptor.write [2,[`65535*1,`1],0] => {"ok":65536}
descriptor.write [2,[`65536*1,`1],0] => trap
descriptor.write [2,[1],65536] => {"ok":1}
descriptor.read [2,18446744073709551615,0] => {"ok":[[`65536*1,`1],true]}

# What is answered without the host has no weight
transfer-limit = 65536
env = { set = { A = "`70000*a`" }, arguments = ["`70000*b`"], cwd = "`70000*c`" }
fs.tree = [{ name = "`70000*t`", files = { f = { text = "`70000*a`" } } }]
get-environment [] => [["A","`70000*a`"]]
get-arguments [] => ["`70000*b`"]
initial-cwd [] => {"some":"`70000*c`"}
get-directories [] => [[0,"`70000*t`"]]
descriptor.open-at [0,[],"f",[],[]] => {"ok":1}
descriptor.read [1,18446744073709551615,0] => {"ok":[[`69999*97,`97],true]}
descriptor.read-via-stream [1,0] => {"ok":2}
input-stream.read [2,18446744073709551615] => {"ok":[`69999*97,`97]}

# The host's answer weighs at most the limit
transfer-limit = 65536
random = "allow"
: {"value":[`65535*0,`0]},{"value":[`65536*0,`0]},{"value":[`65535*0,`0]}
get-random-bytes [1] => ["call","wasi:random/random@0.2.0","get-random-bytes",[1]] [`65535*0,`0]
get-random-bytes [2] => ["call","wasi:random/random@0.2.0","get-random-bytes",[2]] trap
get-insecure-random-bytes [3] => ["call","wasi:random/insecure@0.2.0","get-insecure-random-bytes",[3]] [`65535*0,`0]

# Arguments and the host's answer together
transfer-limit = 65536
fs.host = "all"
: {"value":[[7,"/h"]]},{"value":{"ok":"`65528*a`"}},{"value":{"ok":"`65529*a`"}},{"value":{"ok":"`65520*a`"}},{"value":{"ok":"`65528*a`"}}
get-directories [] => ["call","wasi:filesystem/preopens@0.2.0","get-directories",[]] [[0,"/h"]]
descriptor.readlink-at [0,"x"] => ["call","wasi:filesystem/types@0.2.0","[method]descriptor.readlink-at",[7,"x"]] {"ok":"`65528*a`"}
descriptor.readlink-at [0,"x"] => ["call","wasi:filesystem/types@0.2.0","[method]descriptor.readlink-at",[7,"x"]] trap
descriptor.readlink-at [0,"123456789"] => ["call","wasi:filesystem/types@0.2.0","[method]descriptor.readlink-at",[7,"123456789"]] {"ok":"`65520*a`"}
descriptor.readlink-at [0,"123456789"] => ["call","wasi:filesystem/types@0.2.0","[method]descriptor.readlink-at",[7,"123456789"]] trap

# Of variables also the elements of the list that is answered weigh, 16 bytes each
transfer-limit = 65536
env.pass = true
: {"value":[["A","`65496*a`"]]},{"value":[["A","`65497*a`"]]},{"value":[]}
get-environment [] => ["call","wasi:cli/environment@0.2.0","get-environment",[]] [["A","`65496*a`"]]
get-environment [] => ["call","wasi:cli/environment@0.2.0","get-environment",[]] trap
get-environment [] => ["call","wasi:cli/environment@0.2.0","get-environment",[]] []

# Those that are set weigh 16 bytes each, and their texts nothing; those that are not passed are no elements of it
transfer-limit = 65536
env = { allow = ["A"], set = { C = "`70000*c`" } }
: {"value":[["A","`65480*a`"]]},{"value":[["A","`65481*a`"]]},{"value":[["B","`65496*b`"]]},{"value":[["B","`65497*b`"]]}
get-environment [] => ["call","wasi:cli/environment@0.2.0","get-environment",[]] [["A","`65480*a`"],["C","`70000*c`"]]
get-environment [] => ["call","wasi:cli/environment@0.2.0","get-environment",[]] trap
get-environment [] => ["call","wasi:cli/environment@0.2.0","get-environment",[]] [["C","`70000*c`"]]
get-environment [] => ["call","wasi:cli/environment@0.2.0","get-environment",[]] trap

# Of folders the elements of the list that is answered weigh 12 bytes each, rounded up together
transfer-limit = 65536
fs.host = "all"
: {"value":[[7,"`65504*a`"]]},{"value":[[8,"`65505*a`"]]},{"value":[[9,"`65480*a`"],[10,"b"]]},{"value":[[9,"`65481*a`"],[10,"b"]]}
get-directories [] => ["call","wasi:filesystem/preopens@0.2.0","get-directories",[]] [[0,"`65504*a`"]]
get-directories [] => ["call","wasi:filesystem/preopens@0.2.0","get-directories",[]] trap
get-directories [] => ["call","wasi:filesystem/preopens@0.2.0","get-directories",[]] [[1,"`65480*a`"],[2,"b"]]
get-directories [] => ["call","wasi:filesystem/preopens@0.2.0","get-directories",[]] trap

# Trees and the scratch folder among them
transfer-limit = 65536
fs.host = "all"
fs.tree = [{ name = "/t" }]
fs.scratch = { name = "/s", blocks = 1, files = 1 }
: {"value":[[7,"`65480*a`"]]},{"value":[[8,"`65481*a`"]]}
get-directories [] => ["call","wasi:filesystem/preopens@0.2.0","get-directories",[]] [[0,"`65480*a`"],[1,"/t"],[2,"/s"]]
get-directories [] => ["call","wasi:filesystem/preopens@0.2.0","get-directories",[]] trap

# Folders that are not kept weigh as part of the answer alone, and above the limit none is done
transfer-limit = 65536
fs.pass = [{ host = "/h", as = "/x" }]
: {"value":[[7,"`65520*a`"]]},{"value":[[8,"`65521*a`"]]},{"value":[[9,"`65489*a`"],[10,"/h"]]},{"value":[[9,"`65488*a`"],[10,"/h"]]}
get-directories [] => ["call","wasi:filesystem/preopens@0.2.0","get-directories",[]] ["drop","wasi:filesystem/types@0.2.0","descriptor",7] []
get-directories [] => ["call","wasi:filesystem/preopens@0.2.0","get-directories",[]] trap
get-directories [] => ["call","wasi:filesystem/preopens@0.2.0","get-directories",[]] trap
get-directories [] => ["call","wasi:filesystem/preopens@0.2.0","get-directories",[]] ["drop","wasi:filesystem/types@0.2.0","descriptor",9] [[0,"/x"]]

# Elements weigh what they take in memory: a text 8 bytes, a datagram that comes 40, and one that goes 44
transfer-limit = 65536
sockets = "allow"
env = { arguments = true, cwd = true }
: {"value":["`65528*a`"]},{"value":["`65529*a`"]},{"value":{"some":"`65536*a`"}},{"value":{"some":"`65537*a`"}}
: {"value":{"ok":6}},{"value":{"ok":[7,8]}},{"value":{"ok":1}},{"value":{"ok":[{"data":[`65495*0,`0],"remote-address":{"ipv4":{"address":[1,2,3,4],"port":5}}}]}},{"value":{"ok":[{"data":[`65496*0,`0],"remote-address":{"ipv4":{"address":[1,2,3,4],"port":5}}}]}}
get-arguments [] => ["call","wasi:cli/environment@0.2.0","get-arguments",[]] ["`65528*a`"]
get-arguments [] => ["call","wasi:cli/environment@0.2.0","get-arguments",[]] trap
initial-cwd [] => ["call","wasi:cli/environment@0.2.0","initial-cwd",[]] {"some":"`65536*a`"}
initial-cwd [] => ["call","wasi:cli/environment@0.2.0","initial-cwd",[]] trap
create-udp-socket ["ipv4"] => ["call","wasi:sockets/udp-create-socket@0.2.0","create-udp-socket",["ipv4"]] {"ok":0}
udp-socket.stream [0,null] => ["call","wasi:sockets/udp@0.2.0","[method]udp-socket.stream",[6,null]] {"ok":[1,2]}
outgoing-datagram-stream.send [2,[{"data":[`65487*0,`0],"remote-address":null}]] => ["call","wasi:sockets/udp@0.2.0","[method]outgoing-datagram-stream.send",[8,[{"data":[`65487*0,`0],"remote-address":null}]]] {"ok":1}
outgoing-datagram-stream.send [2,[{"data":[`65488*0,`0],"remote-address":null}]] => trap
incoming-datagram-stream.receive [1,1] => ["call","wasi:sockets/udp@0.2.0","[method]incoming-datagram-stream.receive",[7,1]] {"ok":[{"data":[`65495*0,`0],"remote-address":{"ipv4":{"address":[1,2,3,4],"port":5}}}]}
incoming-datagram-stream.receive [1,1] => ["call","wasi:sockets/udp@0.2.0","[method]incoming-datagram-stream.receive",[7,1]] trap"##;

#[test]
fn weights_hold(rt: HostRuntime) -> Result<(), Fail> {
    hold(&rt, rt.alloc(), ROWS)
}
