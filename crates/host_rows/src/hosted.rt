//! What the host underneath is asked, and the handles that it gives.

use crate::blocks::hold;
use std::test::Fail;

const ROWS: &str = r##"# Where the host is allowed it is asked, and what it answers is the answer
random = "allow"
exit = "allow"
: {"value":[1,2]},{"value":18446744073709551615},{"value":[]},{"value":0},{"value":[3,4]},{},{}
get-random-bytes [2] => ["call","wasi:random/random@0.2.0","get-random-bytes",[2]] [1,2]
get-random-u64 [] => ["call","wasi:random/random@0.2.0","get-random-u64",[]] 18446744073709551615
get-insecure-random-bytes [0] => ["call","wasi:random/insecure@0.2.0","get-insecure-random-bytes",[0]] []
get-insecure-random-u64 [] => ["call","wasi:random/insecure@0.2.0","get-insecure-random-u64",[]] 0
insecure-seed [] => ["call","wasi:random/insecure-seed@0.2.0","insecure-seed",[]] [3,4]
exit [{"ok":null}] => ["call","wasi:cli/exit@0.2.0","exit",[{"ok":null}]] done
exit [{"err":null}] => ["call","wasi:cli/exit@0.2.0","exit",[{"err":null}]] done

# The host traps, gives no answer of the type, and has no more answers
random = "allow"
: "trap",{"value":"x"},{},{"value":7}
get-random-u64 [] => ["call","wasi:random/random@0.2.0","get-random-u64",[]] trap
get-random-u64 [] => ["call","wasi:random/random@0.2.0","get-random-u64",[]] bad
get-random-u64 [] => ["call","wasi:random/random@0.2.0","get-random-u64",[]] bad
get-random-u64 [] => ["call","wasi:random/random@0.2.0","get-random-u64",[]] 7
get-random-u64 [] => ["call","wasi:random/random@0.2.0","get-random-u64",[]] ended
get-random-u64 [] => ["call","wasi:random/random@0.2.0","get-random-u64",[]] ended

# Streams and terminals of the host
stdio = { stdin = "allow", stdout = "allow", stderr = "allow" }
: {"value":70},{"value":71},{"value":72},{"value":{"some":73}},{"value":null},{"value":{"some":74}},{"value":{"ok":[1]}},{"value":{"ok":4096}},{"value":75},{"value":76}
get-stdin [] => ["call","wasi:cli/stdin@0.2.0","get-stdin",[]] 0
get-stdout [] => ["call","wasi:cli/stdout@0.2.0","get-stdout",[]] 1
get-stderr [] => ["call","wasi:cli/stderr@0.2.0","get-stderr",[]] 2
get-terminal-stdin [] => ["call","wasi:cli/terminal-stdin@0.2.0","get-terminal-stdin",[]] {"some":3}
get-terminal-stdout [] => ["call","wasi:cli/terminal-stdout@0.2.0","get-terminal-stdout",[]] null
get-terminal-stderr [] => ["call","wasi:cli/terminal-stderr@0.2.0","get-terminal-stderr",[]] {"some":4}
input-stream.read [0,1] => ["call","wasi:io/streams@0.2.0","[method]input-stream.read",[70,1]] {"ok":[1]}
output-stream.check-write [2] => ["call","wasi:io/streams@0.2.0","[method]output-stream.check-write",[72]] {"ok":4096}
input-stream.subscribe [0] => ["call","wasi:io/streams@0.2.0","[method]input-stream.subscribe",[70]] 5
output-stream.subscribe [1] => ["call","wasi:io/streams@0.2.0","[method]output-stream.subscribe",[71]] 6
drop terminal-input 3 => ["drop","wasi:cli/terminal-input@0.2.0","terminal-input",73] done
drop terminal-output 4 => ["drop","wasi:cli/terminal-output@0.2.0","terminal-output",74] done
drop pollable 6 => ["drop","wasi:io/poll@0.2.0","pollable",76] done
drop output-stream 1 => ["drop","wasi:io/streams@0.2.0","output-stream",71] done

# One stream of the host, and the others not
stdio = { stdin = "deny", stdout = "allow", stderr = "ignore" }
: {"value":7},{"value":{"some":8}},{"value":{"ok":null}}
get-stdin [] => trap
get-stdout [] => ["call","wasi:cli/stdout@0.2.0","get-stdout",[]] 0
get-stderr [] => 1
get-terminal-stdin [] => null
get-terminal-stdout [] => ["call","wasi:cli/terminal-stdout@0.2.0","get-terminal-stdout",[]] {"some":2}
get-terminal-stderr [] => null
output-stream.write [0,[1]] => ["call","wasi:io/streams@0.2.0","[method]output-stream.write",[7,[1]]] {"ok":null}
output-stream.write [1,[1]] => {"ok":null}

# Errors of the host
stdio.stdin = "allow"
: {"value":7},{"value":{"err":{"last-operation-failed":9}}},{"value":"why"},{"value":null},{"value":{"some":"io"}},{"value":{"err":{"closed":null}}}
get-stdin [] => ["call","wasi:cli/stdin@0.2.0","get-stdin",[]] 0
input-stream.blocking-read [0,1] => ["call","wasi:io/streams@0.2.0","[method]input-stream.blocking-read",[7,1]] {"err":{"last-operation-failed":1}}
error.to-debug-string [1] => ["call","wasi:io/error@0.2.0","[method]error.to-debug-string",[9]] "why"
filesystem-error-code [1] => ["call","wasi:filesystem/types@0.2.0","filesystem-error-code",[9]] null
filesystem-error-code [1] => ["call","wasi:filesystem/types@0.2.0","filesystem-error-code",[9]] {"some":"io"}
drop error 1 => ["drop","wasi:io/error@0.2.0","error",9] done
input-stream.skip [0,5] => ["call","wasi:io/streams@0.2.0","[method]input-stream.skip",[7,5]] {"err":{"closed":null}}

# Folders of the host, and what is opened from them
fs.host = "all"
: {"value":[[7,"/h"],[8,"/h"]]},{"value":{"ok":9}},{"value":{"ok":10}},{"value":{"ok":{"some":{"type":"fifo","name":"p"}}}},{"value":{"ok":11}},{"value":true},{"value":{"ok":{"lower":1,"upper":2}}},{"value":{"err":"access"}}
get-directories [] => ["call","wasi:filesystem/preopens@0.2.0","get-directories",[]] [[0,"/h"],[1,"/h"]]
descriptor.open-at [1,["symlink-follow"],"a",["create","truncate"],["write","mutate-directory"]] => ["call","wasi:filesystem/types@0.2.0","[method]descriptor.open-at",[8,["symlink-follow"],"a",["create","truncate"],["write","mutate-directory"]]] {"ok":2}
descriptor.read-directory [0] => ["call","wasi:filesystem/types@0.2.0","[method]descriptor.read-directory",[7]] {"ok":3}
directory-entry-stream.read-directory-entry [3] => ["call","wasi:filesystem/types@0.2.0","[method]directory-entry-stream.read-directory-entry",[10]] {"ok":{"some":{"name":"p","type":"fifo"}}}
descriptor.read-via-stream [2,5] => ["call","wasi:filesystem/types@0.2.0","[method]descriptor.read-via-stream",[9,5]] {"ok":4}
descriptor.is-same-object [0,1] => ["call","wasi:filesystem/types@0.2.0","[method]descriptor.is-same-object",[7,8]] true
descriptor.metadata-hash [0] => ["call","wasi:filesystem/types@0.2.0","[method]descriptor.metadata-hash",[7]] {"ok":{"lower":1,"upper":2}}
descriptor.rename-at [0,"a",1,"b"] => ["call","wasi:filesystem/types@0.2.0","[method]descriptor.rename-at",[7,"a",8,"b"]] {"err":"access"}
drop input-stream 4 => ["drop","wasi:io/streams@0.2.0","input-stream",11] done
drop directory-entry-stream 3 => ["drop","wasi:filesystem/types@0.2.0","directory-entry-stream",10] done
drop descriptor 0 => ["drop","wasi:filesystem/types@0.2.0","descriptor",7] done
drop descriptor 0 => done

# All folders of the host, in front of trees and the scratch folder; names may repeat
fs = { host = "all", tree = [{ name = "/t" }, { name = "/u" }], scratch = { name = "/s", blocks = 1, files = 1 } }
: {"value":[[7,"/t"],[8,""]]},{"value":[]}
get-directories [] => ["call","wasi:filesystem/preopens@0.2.0","get-directories",[]] [[0,"/t"],[1,""],[2,"/t"],[3,"/u"],[4,"/s"]]
get-directories [] => ["call","wasi:filesystem/preopens@0.2.0","get-directories",[]] [[5,"/t"],[6,"/u"],[7,"/s"]]

# Folders of the host that are passed, under the name of the first pass, and the others dropped, each in its turn
fs.pass = [{ host = "/h", as = "/x" }, { host = "/k", as = "/y" }, { host = "/h", as = "/z" }]
fs.tree = [{ name = "/t" }]
: {"value":[[7,"/a"],[8,"/k"],[9,"/h/"],[10,"/h"],[11,"/h"]]},{"value":[]}
get-directories [] => ["call","wasi:filesystem/preopens@0.2.0","get-directories",[]] ["drop","wasi:filesystem/types@0.2.0","descriptor",7] ["drop","wasi:filesystem/types@0.2.0","descriptor",9] [[0,"/y"],[1,"/x"],[2,"/x"],[3,"/t"]]
get-directories [] => ["call","wasi:filesystem/preopens@0.2.0","get-directories",[]] [[4,"/t"]]
drop descriptor 0 => ["drop","wasi:filesystem/types@0.2.0","descriptor",8] done

# A folder without room traps in its turn, behind the drops before it
slots = 1
fs.pass = [{ host = "/h", as = "/x" }]
: {"value":[[7,"/a"],[8,"/h"],[9,"/b"],[10,"/h"],[11,"/c"]]}
get-directories [] => ["call","wasi:filesystem/preopens@0.2.0","get-directories",[]] ["drop","wasi:filesystem/types@0.2.0","descriptor",7] ["drop","wasi:filesystem/types@0.2.0","descriptor",9] trap

# So does a tree, and the scratch folder
slots = 2
fs.tree = [{ name = "/t" }, { name = "/u" }]
fs.scratch = { name = "/s", blocks = 1, files = 1 }
get-directories [] => trap

# All that are passed are too many
slots = 2
fs.host = "all"
: {"value":[[7,"/a"],[8,"/b"]]},{"value":[[9,"/a"]]}
get-directories [] => ["call","wasi:filesystem/preopens@0.2.0","get-directories",[]] [[0,"/a"],[1,"/b"]]
get-directories [] => ["call","wasi:filesystem/preopens@0.2.0","get-directories",[]] trap
drop descriptor 1 => ["drop","wasi:filesystem/types@0.2.0","descriptor",8] done

# No folder of the host is asked for where none can be passed
fs = { host = "deny", pass = [], tree = [{ name = "/t" }] }
get-directories [] => [[0,"/t"]]

# A number that the host gives twice makes two handles, and each drop reaches it
stdio.stdin = "allow"
: {"value":7},{"value":7},{"value":{"ok":[]}}
get-stdin [] => ["call","wasi:cli/stdin@0.2.0","get-stdin",[]] 0
get-stdin [] => ["call","wasi:cli/stdin@0.2.0","get-stdin",[]] 1
drop input-stream 0 => ["drop","wasi:io/streams@0.2.0","input-stream",7] done
input-stream.read [1,0] => ["call","wasi:io/streams@0.2.0","[method]input-stream.read",[7,0]] {"ok":[]}
drop input-stream 1 => ["drop","wasi:io/streams@0.2.0","input-stream",7] done

# Own handles of an answer that is too heavy are lost without a drop
transfer-limit = 65536
fs.host = "all"
: {"value":[[7,"/h"]]},{"value":{"ok":8}},{"value":{"err":"io"}},{"value":[[9,"`65505*a`"]]}
get-directories [] => ["call","wasi:filesystem/preopens@0.2.0","get-directories",[]] [[0,"/h"]]
descriptor.open-at [0,[],"`65536*a`",[],[]] => ["call","wasi:filesystem/types@0.2.0","[method]descriptor.open-at",[7,[],"`65536*a`",[],[]]] {"ok":1}
descriptor.open-at [0,[],"`65537*a`",[],[]] => trap
descriptor.stat [1] => ["call","wasi:filesystem/types@0.2.0","[method]descriptor.stat",[8]] {"err":"io"}
get-directories [] => ["call","wasi:filesystem/preopens@0.2.0","get-directories",[]] trap
descriptor.stat [2] => trap

# A folder of the host and a node, or the scratch folder
fs.pass = [{ host = "/h", as = "/x" }]
fs.tree = [{ name = "/t", files = { f = { text = "xyz" } } }]
fs.scratch = { name = "/s", blocks = 1, files = 1 }
: {"value":[[7,"/h"]]}
get-directories [] => ["call","wasi:filesystem/preopens@0.2.0","get-directories",[]] [[0,"/x"],[1,"/t"],[2,"/s"]]
descriptor.rename-at [0,"a",1,"b"] => {"err":"cross-device"}
descriptor.rename-at [1,"f",0,"b"] => {"err":"cross-device"}
descriptor.link-at [0,[],"a",1,"b"] => {"err":"cross-device"}
descriptor.link-at [1,["symlink-follow"],"",0,"/"] => {"err":"cross-device"}
descriptor.rename-at [0,"a",2,"b"] => {"err":"cross-device"}
descriptor.rename-at [2,".",0,"b"] => {"err":"cross-device"}
descriptor.link-at [0,[],"a",2,"b"] => {"err":"cross-device"}
descriptor.link-at [2,[],"a",0,"b"] => {"err":"cross-device"}
descriptor.rename-at [1,"f",2,"b"] => {"err":"cross-device"}
descriptor.rename-at [2,"..",1,"b"] => {"err":"cross-device"}
descriptor.link-at [1,[],"f",2,"b"] => {"err":"cross-device"}
descriptor.link-at [2,[],"a",1,"b"] => {"err":"cross-device"}
descriptor.is-same-object [0,1] => false
descriptor.is-same-object [1,0] => false
descriptor.is-same-object [0,2] => false
descriptor.is-same-object [2,0] => false
descriptor.open-at [1,[],"f",[],[]] => {"ok":3}
descriptor.write [3,[1],0] => {"err":"read-only"}
descriptor.is-same-object [3,2] => false
descriptor.open-at [2,[],"g",["create"],["write"]] => {"ok":4}
descriptor.rename-at [0,"a",4,"b"] => {"err":"cross-device"}
descriptor.rename-at [4,"a",1,"b"] => {"err":"cross-device"}
descriptor.link-at [4,[],"a",3,"b"] => {"err":"cross-device"}
descriptor.is-same-object [4,0] => false
descriptor.is-same-object [0,4] => false
descriptor.is-same-object [4,3] => false
descriptor.is-same-object [3,4] => false

# Sockets of the host
sockets = "allow"
: {"value":5},{"value":{"ok":6}},{"value":{"ok":null}},{"value":{"ok":null}},{"value":{"err":"would-block"}},{"value":{"ok":[10,11]}},{"value":{"ok":[12,13,14]}},{"value":false},{"value":"ipv4"},{"value":15},{"value":{"ok":{"ipv4":{"port":80,"address":[1,2,3,4]}}}}
instance-network [] => ["call","wasi:sockets/instance-network@0.2.0","instance-network",[]] 0
create-tcp-socket ["ipv4"] => ["call","wasi:sockets/tcp-create-socket@0.2.0","create-tcp-socket",["ipv4"]] {"ok":1}
tcp-socket.start-bind [1,0,{"ipv4":{"port":0,"address":[0,0,0,0]}}] => ["call","wasi:sockets/tcp@0.2.0","[method]tcp-socket.start-bind",[6,5,{"ipv4":{"address":[0,0,0,0],"port":0}}]] {"ok":null}
tcp-socket.start-connect [1,0,{"ipv6":{"port":80,"flow-info":1,"address":[1,2,3,4,5,6,7,8],"scope-id":2}}] => ["call","wasi:sockets/tcp@0.2.0","[method]tcp-socket.start-connect",[6,5,{"ipv6":{"address":[1,2,3,4,5,6,7,8],"flow-info":1,"port":80,"scope-id":2}}]] {"ok":null}
tcp-socket.finish-connect [1] => ["call","wasi:sockets/tcp@0.2.0","[method]tcp-socket.finish-connect",[6]] {"err":"would-block"}
tcp-socket.finish-connect [1] => ["call","wasi:sockets/tcp@0.2.0","[method]tcp-socket.finish-connect",[6]] {"ok":[2,3]}
tcp-socket.accept [1] => ["call","wasi:sockets/tcp@0.2.0","[method]tcp-socket.accept",[6]] {"ok":[4,5,6]}
tcp-socket.is-listening [4] => ["call","wasi:sockets/tcp@0.2.0","[method]tcp-socket.is-listening",[12]] false
tcp-socket.address-family [4] => ["call","wasi:sockets/tcp@0.2.0","[method]tcp-socket.address-family",[12]] "ipv4"
tcp-socket.subscribe [4] => ["call","wasi:sockets/tcp@0.2.0","[method]tcp-socket.subscribe",[12]] 7
tcp-socket.remote-address [4] => ["call","wasi:sockets/tcp@0.2.0","[method]tcp-socket.remote-address",[12]] {"ok":{"ipv4":{"address":[1,2,3,4],"port":80}}}
drop tcp-socket 4 => ["drop","wasi:sockets/tcp@0.2.0","tcp-socket",12] done
drop input-stream 5 => ["drop","wasi:io/streams@0.2.0","input-stream",13] done
drop output-stream 6 => ["drop","wasi:io/streams@0.2.0","output-stream",14] done
drop network 0 => ["drop","wasi:sockets/network@0.2.0","network",5] done

# Sockets of datagrams and names, where all addresses are allowed
sockets = "allow"
: {"value":5},{"value":{"ok":6}},{"value":{"ok":[7,8]}},{"value":{"ok":2}},{"value":{"ok":1}},{"value":{"ok":[{"data":[1],"remote-address":{"ipv4":{"port":9,"address":[9,9,9,9]}}}]}},{"value":{"ok":9}},{"value":{"ok":{"some":{"ipv4":[1,1,1,1]}}}},{"value":10}
instance-network [] => ["call","wasi:sockets/instance-network@0.2.0","instance-network",[]] 0
create-udp-socket ["ipv6"] => ["call","wasi:sockets/udp-create-socket@0.2.0","create-udp-socket",["ipv6"]] {"ok":1}
udp-socket.stream [1,{"some":{"ipv4":{"port":9,"address":[9,9,9,9]}}}] => ["call","wasi:sockets/udp@0.2.0","[method]udp-socket.stream",[6,{"some":{"ipv4":{"address":[9,9,9,9],"port":9}}}]] {"ok":[2,3]}
outgoing-datagram-stream.check-send [3] => ["call","wasi:sockets/udp@0.2.0","[method]outgoing-datagram-stream.check-send",[8]] {"ok":2}
outgoing-datagram-stream.send [3,[{"data":[1,2],"remote-address":null}]] => ["call","wasi:sockets/udp@0.2.0","[method]outgoing-datagram-stream.send",[8,[{"data":[1,2],"remote-address":null}]]] {"ok":1}
incoming-datagram-stream.receive [2,3] => ["call","wasi:sockets/udp@0.2.0","[method]incoming-datagram-stream.receive",[7,3]] {"ok":[{"data":[1],"remote-address":{"ipv4":{"address":[9,9,9,9],"port":9}}}]}
resolve-addresses [0,"localhost"] => ["call","wasi:sockets/ip-name-lookup@0.2.0","resolve-addresses",[5,"localhost"]] {"ok":4}
resolve-address-stream.resolve-next-address [4] => ["call","wasi:sockets/ip-name-lookup@0.2.0","[method]resolve-address-stream.resolve-next-address",[9]] {"ok":{"some":{"ipv4":[1,1,1,1]}}}
incoming-datagram-stream.subscribe [2] => ["call","wasi:sockets/udp@0.2.0","[method]incoming-datagram-stream.subscribe",[7]] 5
drop resolve-address-stream 4 => ["drop","wasi:sockets/ip-name-lookup@0.2.0","resolve-address-stream",9] done
drop incoming-datagram-stream 2 => ["drop","wasi:sockets/udp@0.2.0","incoming-datagram-stream",7] done
drop outgoing-datagram-stream 3 => ["drop","wasi:sockets/udp@0.2.0","outgoing-datagram-stream",8] done
drop udp-socket 1 => ["drop","wasi:sockets/udp@0.2.0","udp-socket",6] done

# The handles of one answer get the least numbers that are not live, in the order of the value
stdio = { stdin = "ignore", stdout = "ignore" }
sockets = "allow"
: {"value":{"ok":6}},{"value":{"ok":[12,10,11]}}
get-stdin [] => 0
get-stdout [] => 1
create-tcp-socket ["ipv4"] => ["call","wasi:sockets/tcp-create-socket@0.2.0","create-tcp-socket",["ipv4"]] {"ok":2}
drop output-stream 1 => done
tcp-socket.accept [2] => ["call","wasi:sockets/tcp@0.2.0","[method]tcp-socket.accept",[6]] {"ok":[1,3,4]}
drop input-stream 3 => ["drop","wasi:io/streams@0.2.0","input-stream",10] done
drop tcp-socket 1 => ["drop","wasi:sockets/tcp@0.2.0","tcp-socket",12] done"##;

#[test]
fn hosts_are_asked(rt: HostRuntime) -> Result<(), Fail> {
    hold(&rt, rt.alloc(), ROWS)
}
