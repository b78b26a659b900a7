//! Sockets under rules on addresses.

use crate::blocks::hold;
use std::test::Fail;

const ROWS: &str =
    r##"# The rules refuse an address of another network or port, and the host is not asked
sockets = "rules"
net.connect = [{ network = "10.0.0.0/8", ports = [443] }]
: {"value":5},{"value":{"ok":6}},{"value":{"ok":null}},{"value":{"err":"connection-refused"}}
instance-network [] => ["call","wasi:sockets/instance-network@0.2.0","instance-network",[]] 0
create-tcp-socket ["ipv4"] => ["call","wasi:sockets/tcp-create-socket@0.2.0","create-tcp-socket",["ipv4"]] {"ok":1}
tcp-socket.start-connect [1,0,{"ipv4":{"address":[10,1,2,3],"port":443}}] => ["call","wasi:sockets/tcp@0.2.0","[method]tcp-socket.start-connect",[6,5,{"ipv4":{"address":[10,1,2,3],"port":443}}]] {"ok":null}
tcp-socket.start-connect [1,0,{"ipv4":{"address":[10,1,2,3],"port":80}}] => {"err":"access-denied"}
tcp-socket.start-connect [1,0,{"ipv4":{"address":[11,0,0,1],"port":443}}] => {"err":"access-denied"}
tcp-socket.start-connect [1,0,{"ipv4":{"address":[9,255,255,255],"port":443}}] => {"err":"access-denied"}
tcp-socket.start-connect [1,0,{"ipv4":{"address":[10,255,255,255],"port":443}}] => ["call","wasi:sockets/tcp@0.2.0","[method]tcp-socket.start-connect",[6,5,{"ipv4":{"address":[10,255,255,255],"port":443}}]] {"err":"connection-refused"}
tcp-socket.start-connect [1,0,{"ipv6":{"address":[0,0,0,0,0,65535,2561,515],"flow-info":0,"port":443,"scope-id":0}}] => {"err":"access-denied"}
tcp-socket.start-bind [1,0,{"ipv4":{"address":[10,1,2,3],"port":443}}] => {"err":"access-denied"}

# Under deny = "error" the same, and where the handle is not live a trap
deny = "error"
sockets = "rules"
net.connect = [{ network = "10.0.0.0/8", ports = [443] }]
: {"value":5},{"value":{"ok":6}}
tcp-socket.start-connect [1,0,{"ipv4":{"address":[11,0,0,1],"port":443}}] => trap
resolve-addresses [0,"a"] => trap
instance-network [] => ["call","wasi:sockets/instance-network@0.2.0","instance-network",[]] 0
create-tcp-socket ["ipv4"] => ["call","wasi:sockets/tcp-create-socket@0.2.0","create-tcp-socket",["ipv4"]] {"ok":1}
tcp-socket.start-connect [1,1,{"ipv4":{"address":[11,0,0,1],"port":443}}] => trap
tcp-socket.start-connect [1,0,{"ipv4":{"address":[11,0,0,1],"port":443}}] => {"err":"access-denied"}
resolve-addresses [0,"a"] => {"err":"access-denied"}

# Without rules nothing is allowed, and all else is as where sockets are allowed
sockets = "rules"
: {"value":5},{"value":{"ok":6}},{"value":{"ok":null}},{"value":{"ok":[10,11]}},{"value":{"ok":{"ipv4":{"address":[11,0,0,1],"port":80}}}},{"value":{"ok":7}},{"value":{"ok":[8,9]}},{"value":{"ok":[{"data":[1],"remote-address":{"ipv4":{"address":[11,0,0,1],"port":80}}}]}},{"value":{"ok":1}}
instance-network [] => ["call","wasi:sockets/instance-network@0.2.0","instance-network",[]] 0
create-tcp-socket ["ipv6"] => ["call","wasi:sockets/tcp-create-socket@0.2.0","create-tcp-socket",["ipv6"]] {"ok":1}
tcp-socket.start-connect [1,0,{"ipv4":{"address":[127,0,0,1],"port":1}}] => {"err":"access-denied"}
tcp-socket.start-bind [1,0,{"ipv6":{"address":[0,0,0,0,0,0,0,1],"flow-info":0,"port":0,"scope-id":0}}] => {"err":"access-denied"}
tcp-socket.start-listen [1] => ["call","wasi:sockets/tcp@0.2.0","[method]tcp-socket.start-listen",[6]] {"ok":null}
tcp-socket.finish-connect [1] => ["call","wasi:sockets/tcp@0.2.0","[method]tcp-socket.finish-connect",[6]] {"ok":[2,3]}
tcp-socket.remote-address [1] => ["call","wasi:sockets/tcp@0.2.0","[method]tcp-socket.remote-address",[6]] {"ok":{"ipv4":{"address":[11,0,0,1],"port":80}}}
create-udp-socket ["ipv4"] => ["call","wasi:sockets/udp-create-socket@0.2.0","create-udp-socket",["ipv4"]] {"ok":4}
udp-socket.start-bind [4,0,{"ipv4":{"address":[0,0,0,0],"port":0}}] => {"err":"access-denied"}
udp-socket.stream [4,{"some":{"ipv4":{"address":[11,0,0,1],"port":80}}}] => {"err":"access-denied"}
udp-socket.stream [4,null] => ["call","wasi:sockets/udp@0.2.0","[method]udp-socket.stream",[7,null]] {"ok":[5,6]}
incoming-datagram-stream.receive [5,1] => ["call","wasi:sockets/udp@0.2.0","[method]incoming-datagram-stream.receive",[8,1]] {"ok":[{"data":[1],"remote-address":{"ipv4":{"address":[11,0,0,1],"port":80}}}]}
outgoing-datagram-stream.send [6,[{"data":[1],"remote-address":{"some":{"ipv4":{"address":[11,0,0,1],"port":80}}}}]] => {"err":"access-denied"}
outgoing-datagram-stream.send [6,[{"data":[1],"remote-address":null}]] => ["call","wasi:sockets/udp@0.2.0","[method]outgoing-datagram-stream.send",[9,[{"data":[1],"remote-address":null}]]] {"ok":1}
resolve-addresses [0,"a"] => {"err":"access-denied"}

# Datagrams: one that is refused refuses all of them
sockets = "rules"
net.connect = [{ network = "10.0.0.0/8", ports = [443] }]
: {"value":{"ok":6}},{"value":{"ok":[7,8]}},{"value":{"ok":[9,10]}},{"value":{"ok":2}},{"value":{"ok":0}}
create-udp-socket ["ipv4"] => ["call","wasi:sockets/udp-create-socket@0.2.0","create-udp-socket",["ipv4"]] {"ok":0}
udp-socket.stream [0,{"some":{"ipv4":{"address":[10,0,0,1],"port":443}}}] => ["call","wasi:sockets/udp@0.2.0","[method]udp-socket.stream",[6,{"some":{"ipv4":{"address":[10,0,0,1],"port":443}}}]] {"ok":[1,2]}
udp-socket.stream [0,{"some":{"ipv4":{"address":[10,0,0,1],"port":444}}}] => {"err":"access-denied"}
udp-socket.stream [0,null] => ["call","wasi:sockets/udp@0.2.0","[method]udp-socket.stream",[6,null]] {"ok":[3,4]}
outgoing-datagram-stream.send [2,[{"data":[],"remote-address":{"some":{"ipv4":{"address":[10,0,0,1],"port":443}}}},{"data":[],"remote-address":{"some":{"ipv4":{"address":[11,0,0,1],"port":443}}}}]] => {"err":"access-denied"}
outgoing-datagram-stream.send [2,[{"data":[],"remote-address":{"some":{"ipv4":{"address":[11,0,0,1],"port":443}}}},{"data":[],"remote-address":{"some":{"ipv4":{"address":[10,0,0,1],"port":443}}}}]] => {"err":"access-denied"}
outgoing-datagram-stream.send [2,[{"data":[],"remote-address":null},{"data":[1],"remote-address":{"some":{"ipv4":{"address":[10,0,0,1],"port":443}}}}]] => ["call","wasi:sockets/udp@0.2.0","[method]outgoing-datagram-stream.send",[8,[{"data":[],"remote-address":null},{"data":[1],"remote-address":{"some":{"ipv4":{"address":[10,0,0,1],"port":443}}}}]]] {"ok":2}
outgoing-datagram-stream.send [4,[]] => ["call","wasi:sockets/udp@0.2.0","[method]outgoing-datagram-stream.send",[10,[]]] {"ok":0}

# Rules to bind are others than those to connect
sockets = "rules"
net.bind = [{ network = "0.0.0.0/0", ports = [0, { from = 8000, to = 8002 }] }]
: {"value":5},{"value":{"ok":6}},{"value":{"ok":7}},{"value":{"ok":null}},{"value":{"ok":null}},{"value":{"ok":null}},{"value":{"ok":null}}
instance-network [] => ["call","wasi:sockets/instance-network@0.2.0","instance-network",[]] 0
create-tcp-socket ["ipv4"] => ["call","wasi:sockets/tcp-create-socket@0.2.0","create-tcp-socket",["ipv4"]] {"ok":1}
create-udp-socket ["ipv4"] => ["call","wasi:sockets/udp-create-socket@0.2.0","create-udp-socket",["ipv4"]] {"ok":2}
tcp-socket.start-bind [1,0,{"ipv4":{"address":[127,0,0,1],"port":8000}}] => ["call","wasi:sockets/tcp@0.2.0","[method]tcp-socket.start-bind",[6,5,{"ipv4":{"address":[127,0,0,1],"port":8000}}]] {"ok":null}
tcp-socket.start-bind [1,0,{"ipv4":{"address":[255,255,255,255],"port":8002}}] => ["call","wasi:sockets/tcp@0.2.0","[method]tcp-socket.start-bind",[6,5,{"ipv4":{"address":[255,255,255,255],"port":8002}}]] {"ok":null}
udp-socket.start-bind [2,0,{"ipv4":{"address":[127,0,0,1],"port":8001}}] => ["call","wasi:sockets/udp@0.2.0","[method]udp-socket.start-bind",[7,5,{"ipv4":{"address":[127,0,0,1],"port":8001}}]] {"ok":null}
udp-socket.start-bind [2,0,{"ipv4":{"address":[0,0,0,0],"port":0}}] => ["call","wasi:sockets/udp@0.2.0","[method]udp-socket.start-bind",[7,5,{"ipv4":{"address":[0,0,0,0],"port":0}}]] {"ok":null}
tcp-socket.start-bind [1,0,{"ipv4":{"address":[127,0,0,1],"port":7999}}] => {"err":"access-denied"}
udp-socket.start-bind [2,0,{"ipv4":{"address":[127,0,0,1],"port":8003}}] => {"err":"access-denied"}
udp-socket.start-bind [2,0,{"ipv6":{"address":[0,0,0,0,0,0,0,0],"flow-info":0,"port":0,"scope-id":0}}] => {"err":"access-denied"}
tcp-socket.start-connect [1,0,{"ipv4":{"address":[127,0,0,1],"port":8000}}] => {"err":"access-denied"}
udp-socket.stream [2,{"some":{"ipv4":{"address":[127,0,0,1],"port":8000}}}] => {"err":"access-denied"}

# One of several rules, all ports, bits past the length, and a network of one address
sockets = "rules"
net.connect = [{ network = "192.168.1.77/23" }, { network = "1.2.3.4/32", ports = [1, 65535] }, { network = "128.0.0.0/1", ports = [7] }]
: {"value":5},{"value":{"ok":6}}`8*,{"value":{"ok":null}}`
instance-network [] => ["call","wasi:sockets/instance-network@0.2.0","instance-network",[]] 0
create-tcp-socket ["ipv4"] => ["call","wasi:sockets/tcp-create-socket@0.2.0","create-tcp-socket",["ipv4"]] {"ok":1}
tcp-socket.start-connect [1,0,{"ipv4":{"address":[192,168,0,0],"port":0}}] => ["call","wasi:sockets/tcp@0.2.0","[method]tcp-socket.start-connect",[6,5,{"ipv4":{"address":[192,168,0,0],"port":0}}]] {"ok":null}
tcp-socket.start-connect [1,0,{"ipv4":{"address":[192,168,1,255],"port":65535}}] => ["call","wasi:sockets/tcp@0.2.0","[method]tcp-socket.start-connect",[6,5,{"ipv4":{"address":[192,168,1,255],"port":65535}}]] {"ok":null}
tcp-socket.start-connect [1,0,{"ipv4":{"address":[192,168,2,0],"port":80}}] => {"err":"access-denied"}
tcp-socket.start-connect [1,0,{"ipv4":{"address":[192,167,255,255],"port":80}}] => {"err":"access-denied"}
tcp-socket.start-connect [1,0,{"ipv4":{"address":[192,168,2,0],"port":7}}] => ["call","wasi:sockets/tcp@0.2.0","[method]tcp-socket.start-connect",[6,5,{"ipv4":{"address":[192,168,2,0],"port":7}}]] {"ok":null}
tcp-socket.start-connect [1,0,{"ipv4":{"address":[1,2,3,4],"port":1}}] => ["call","wasi:sockets/tcp@0.2.0","[method]tcp-socket.start-connect",[6,5,{"ipv4":{"address":[1,2,3,4],"port":1}}]] {"ok":null}
tcp-socket.start-connect [1,0,{"ipv4":{"address":[1,2,3,4],"port":65535}}] => ["call","wasi:sockets/tcp@0.2.0","[method]tcp-socket.start-connect",[6,5,{"ipv4":{"address":[1,2,3,4],"port":65535}}]] {"ok":null}
tcp-socket.start-connect [1,0,{"ipv4":{"address":[1,2,3,4],"port":2}}] => {"err":"access-denied"}
tcp-socket.start-connect [1,0,{"ipv4":{"address":[1,2,3,5],"port":1}}] => {"err":"access-denied"}
tcp-socket.start-connect [1,0,{"ipv4":{"address":[127,255,255,255],"port":7}}] => {"err":"access-denied"}
tcp-socket.start-connect [1,0,{"ipv4":{"address":[128,0,0,0],"port":7}}] => ["call","wasi:sockets/tcp@0.2.0","[method]tcp-socket.start-connect",[6,5,{"ipv4":{"address":[128,0,0,0],"port":7}}]] {"ok":null}
tcp-socket.start-connect [1,0,{"ipv4":{"address":[255,0,0,0],"port":7}}] => ["call","wasi:sockets/tcp@0.2.0","[method]tcp-socket.start-connect",[6,5,{"ipv4":{"address":[255,0,0,0],"port":7}}]] {"ok":null}

# Networks of six; flow-info and scope-id are not compared
sockets = "rules"
net.connect = [{ network = "2001:db8:0:0:0:0:0:0/33", ports = [443] }, { network = "0:0:0:0:0:0:0:1/128" }, { network = "0:0:0:0:0:ffff:a00:0/104" }]
: {"value":5},{"value":{"ok":6}}`5*,{"value":{"ok":null}}`
instance-network [] => ["call","wasi:sockets/instance-network@0.2.0","instance-network",[]] 0
create-tcp-socket ["ipv6"] => ["call","wasi:sockets/tcp-create-socket@0.2.0","create-tcp-socket",["ipv6"]] {"ok":1}
tcp-socket.start-connect [1,0,{"ipv6":{"address":[8193,3512,0,1,2,3,4,5],"flow-info":0,"port":443,"scope-id":0}}] => ["call","wasi:sockets/tcp@0.2.0","[method]tcp-socket.start-connect",[6,5,{"ipv6":{"address":[8193,3512,0,1,2,3,4,5],"flow-info":0,"port":443,"scope-id":0}}]] {"ok":null}
tcp-socket.start-connect [1,0,{"ipv6":{"address":[8193,3512,32767,0,0,0,0,0],"flow-info":7,"port":443,"scope-id":9}}] => ["call","wasi:sockets/tcp@0.2.0","[method]tcp-socket.start-connect",[6,5,{"ipv6":{"address":[8193,3512,32767,0,0,0,0,0],"flow-info":7,"port":443,"scope-id":9}}]] {"ok":null}
tcp-socket.start-connect [1,0,{"ipv6":{"address":[8193,3512,32768,0,0,0,0,0],"flow-info":0,"port":443,"scope-id":0}}] => {"err":"access-denied"}
tcp-socket.start-connect [1,0,{"ipv6":{"address":[8193,3512,0,0,0,0,0,0],"flow-info":0,"port":444,"scope-id":0}}] => {"err":"access-denied"}
tcp-socket.start-connect [1,0,{"ipv6":{"address":[0,0,0,0,0,0,0,1],"flow-info":0,"port":9,"scope-id":0}}] => ["call","wasi:sockets/tcp@0.2.0","[method]tcp-socket.start-connect",[6,5,{"ipv6":{"address":[0,0,0,0,0,0,0,1],"flow-info":0,"port":9,"scope-id":0}}]] {"ok":null}
tcp-socket.start-connect [1,0,{"ipv6":{"address":[0,0,0,0,0,0,0,2],"flow-info":0,"port":9,"scope-id":0}}] => {"err":"access-denied"}
tcp-socket.start-connect [1,0,{"ipv6":{"address":[0,0,0,0,0,65535,2561,515],"flow-info":0,"port":80,"scope-id":0}}] => ["call","wasi:sockets/tcp@0.2.0","[method]tcp-socket.start-connect",[6,5,{"ipv6":{"address":[0,0,0,0,0,65535,2561,515],"flow-info":0,"port":80,"scope-id":0}}]] {"ok":null}
tcp-socket.start-connect [1,0,{"ipv4":{"address":[10,1,2,3],"port":80}}] => {"err":"access-denied"}

# Names are allowed, and addresses not
sockets = "rules"
net.names = true
: {"value":5},{"value":{"ok":6}},{"value":{"ok":7}}
instance-network [] => ["call","wasi:sockets/instance-network@0.2.0","instance-network",[]] 0
resolve-addresses [0,"a"] => ["call","wasi:sockets/ip-name-lookup@0.2.0","resolve-addresses",[5,"a"]] {"ok":1}
create-tcp-socket ["ipv4"] => ["call","wasi:sockets/tcp-create-socket@0.2.0","create-tcp-socket",["ipv4"]] {"ok":2}
tcp-socket.start-connect [2,0,{"ipv4":{"address":[1,1,1,1],"port":1}}] => {"err":"access-denied"}

# Weight and room come before the rules
slots = 1
transfer-limit = 65536
sockets = "rules"
net.connect = [{ network = "10.0.0.0/8" }]
: {"value":5},{"value":{"ok":6}},{"value":{"ok":[7,8]}}
instance-network [] => ["call","wasi:sockets/instance-network@0.2.0","instance-network",[]] 0
create-udp-socket ["ipv4"] => ["call","wasi:sockets/udp-create-socket@0.2.0","create-udp-socket",["ipv4"]] {"ok":1}
resolve-addresses [0,"`65536*a`"] => {"err":"access-denied"}
resolve-addresses [0,"`65537*a`"] => trap
udp-socket.stream [1,{"some":{"ipv4":{"address":[11,0,0,1],"port":1}}}] => {"err":"access-denied"}
udp-socket.stream [1,null] => ["call","wasi:sockets/udp@0.2.0","[method]udp-socket.stream",[6,null]] {"ok":[2,3]}
udp-socket.stream [1,{"some":{"ipv4":{"address":[11,0,0,1],"port":1}}}] => {"err":"out-of-memory"}
udp-socket.stream [1,{"some":{"ipv4":{"address":[10,0,0,1],"port":1}}}] => {"err":"out-of-memory"}
drop outgoing-datagram-stream 3 => ["drop","wasi:sockets/udp@0.2.0","outgoing-datagram-stream",8] done
udp-socket.stream [1,{"some":{"ipv4":{"address":[11,0,0,1],"port":1}}}] => {"err":"out-of-memory"}
drop incoming-datagram-stream 2 => ["drop","wasi:sockets/udp@0.2.0","incoming-datagram-stream",7] done
udp-socket.stream [1,{"some":{"ipv4":{"address":[11,0,0,1],"port":1}}}] => {"err":"access-denied"}

# A name without room for its addresses is out of memory
slots = 1
sockets = "rules"
net.names = true
: {"value":5},{"value":{"ok":6}}
instance-network [] => ["call","wasi:sockets/instance-network@0.2.0","instance-network",[]] 0
resolve-addresses [0,"a"] => ["call","wasi:sockets/ip-name-lookup@0.2.0","resolve-addresses",[5,"a"]] {"ok":1}
resolve-addresses [0,"a"] => {"err":"out-of-memory"}

# A name too long traps under every policy, and a socket that is allowed is asked for any address
transfer-limit = 65536
sockets = "allow"
: {"value":5},{"value":{"ok":6}},{"value":{"ok":7}},{"value":{"ok":null}}
instance-network [] => ["call","wasi:sockets/instance-network@0.2.0","instance-network",[]] 0
resolve-addresses [0,"`65537*a`"] => trap
resolve-addresses [0,"`65536*a`"] => ["call","wasi:sockets/ip-name-lookup@0.2.0","resolve-addresses",[5,"`65536*a`"]] {"ok":1}
create-tcp-socket ["ipv4"] => ["call","wasi:sockets/tcp-create-socket@0.2.0","create-tcp-socket",["ipv4"]] {"ok":2}
tcp-socket.start-connect [2,0,{"ipv4":{"address":[11,0,0,1],"port":443}}] => ["call","wasi:sockets/tcp@0.2.0","[method]tcp-socket.start-connect",[7,5,{"ipv4":{"address":[11,0,0,1],"port":443}}]] {"ok":null}"##;

#[test]
fn addresses_hold(rt: HostRuntime) -> Result<(), Fail> {
    hold(&rt, rt.alloc(), ROWS)
}
