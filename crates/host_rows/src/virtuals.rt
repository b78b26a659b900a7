//! Streams, clocks, pollables, the environment and folders that are answered without the host.

use crate::blocks::hold;
use std::test::Fail;

const ROWS: &str = r##"# Standard streams that are ignored
stdio = { stdin = "ignore", stdout = "ignore", stderr = "ignore" }
get-stdin [] => 0
get-stdout [] => 1
get-stderr [] => 2
get-stdin [] => 3
input-stream.read [0,10] => {"err":{"closed":null}}
input-stream.read [0,0] => {"err":{"closed":null}}
input-stream.blocking-read [0,1] => {"err":{"closed":null}}
input-stream.skip [3,10] => {"err":{"closed":null}}
input-stream.blocking-skip [3,0] => {"err":{"closed":null}}
input-stream.subscribe [0] => 4
pollable.ready [4] => true
pollable.block [4] => done
output-stream.check-write [1] => {"ok":65536}
output-stream.write [1,[1,2]] => {"ok":null}
output-stream.write [1,[]] => {"ok":null}
output-stream.blocking-write-and-flush [2,[3]] => {"ok":null}
output-stream.flush [1] => {"ok":null}
output-stream.blocking-flush [2] => {"ok":null}
output-stream.write-zeroes [1,18446744073709551615] => {"ok":null}
output-stream.blocking-write-zeroes-and-flush [1,0] => {"ok":null}
output-stream.check-write [1] => {"ok":65536}
output-stream.subscribe [2] => 5
pollable.ready [5] => true
output-stream.splice [1,0,10] => {"err":{"closed":null}}
output-stream.blocking-splice [2,3,0] => {"err":{"closed":null}}
drop input-stream 0 => done
get-stdin [] => 0

# No terminal without the host's stream
stdio = { stdin = "ignore", stdout = "deny", stderr = "ignore" }
get-terminal-stdin [] => null
get-terminal-stdout [] => null
get-terminal-stderr [] => null

# A splice of a file moves nothing, and its stream stays where it is
stdio.stdout = "ignore"
fs.tree = [{ name = "/t", files = { f = { text = "xyz" } } }]
get-directories [] => [[0,"/t"]]
descriptor.open-at [0,[],"f",[],[]] => {"ok":1}
descriptor.read-via-stream [1,0] => {"ok":2}
get-stdout [] => 3
output-stream.splice [3,2,10] => {"err":{"closed":null}}
output-stream.blocking-splice [3,2,0] => {"err":{"closed":null}}
input-stream.read [2,10] => {"ok":[120,121,122]}

# A splice with one stream of the host asks nobody
stdio = { stdin = "allow", stdout = "ignore", stderr = "allow" }
fs.tree = [{ name = "/t", files = { f = { text = "xyz" } } }]
: {"value":7},{"value":8},{"value":{"ok":3}},{"value":{"ok":4}}
get-stdin [] => ["call","wasi:cli/stdin@0.2.0","get-stdin",[]] 0
get-stderr [] => ["call","wasi:cli/stderr@0.2.0","get-stderr",[]] 1
get-stdout [] => 2
get-directories [] => [[3,"/t"]]
descriptor.open-at [3,[],"f",[],[]] => {"ok":4}
descriptor.read-via-stream [4,0] => {"ok":5}
output-stream.splice [2,0,10] => {"err":{"closed":null}}
output-stream.splice [1,5,10] => {"err":{"closed":null}}
output-stream.blocking-splice [1,5,10] => {"err":{"closed":null}}
output-stream.splice [1,0,10] => ["call","wasi:io/streams@0.2.0","[method]output-stream.splice",[8,7,10]] {"ok":3}
output-stream.blocking-splice [1,0,0] => ["call","wasi:io/streams@0.2.0","[method]output-stream.blocking-splice",[8,7,0]] {"ok":4}

# Clocks that are fixed
clocks = { wall = { seconds = 1700000000, nanoseconds = 999999999 }, monotonic = 5 }
wall-clock#now [] => {"nanoseconds":999999999,"seconds":1700000000}
wall-clock#resolution [] => {"nanoseconds":1,"seconds":0}
monotonic-clock#now [] => 5
monotonic-clock#resolution [] => 1
subscribe-instant [18446744073709551615] => 0
subscribe-duration [18446744073709551615] => 1
pollable.ready [0] => true
pollable.block [1] => done
poll [[1,0]] => [0,1]
wall-clock#now [] => {"nanoseconds":999999999,"seconds":1700000000}
monotonic-clock#now [] => 5

# A clock at 0
clocks = { wall = { seconds = 0, nanoseconds = 0 }, monotonic = 0 }
wall-clock#now [] => {"nanoseconds":0,"seconds":0}
wall-clock#resolution [] => {"nanoseconds":1,"seconds":0}
monotonic-clock#now [] => 0
monotonic-clock#resolution [] => 1

# Clocks of the host
clocks = { wall = "allow", monotonic = "allow" }
: {"value":{"seconds":1,"nanoseconds":2}},{"value":{"seconds":0,"nanoseconds":1000}},{"value":3},{"value":4},{"value":7},{"value":9},{"value":false},{}
wall-clock#now [] => ["call","wasi:clocks/wall-clock@0.2.0","now",[]] {"nanoseconds":2,"seconds":1}
wall-clock#resolution [] => ["call","wasi:clocks/wall-clock@0.2.0","resolution",[]] {"nanoseconds":1000,"seconds":0}
monotonic-clock#now [] => ["call","wasi:clocks/monotonic-clock@0.2.0","now",[]] 3
monotonic-clock#resolution [] => ["call","wasi:clocks/monotonic-clock@0.2.0","resolution",[]] 4
subscribe-instant [5] => ["call","wasi:clocks/monotonic-clock@0.2.0","subscribe-instant",[5]] 0
subscribe-duration [6] => ["call","wasi:clocks/monotonic-clock@0.2.0","subscribe-duration",[6]] 1
pollable.ready [1] => ["call","wasi:io/poll@0.2.0","[method]pollable.ready",[9]] false
pollable.block [0] => ["call","wasi:io/poll@0.2.0","[method]pollable.block",[7]] done
drop pollable 1 => ["drop","wasi:io/poll@0.2.0","pollable",9] done

# Pollables of the host and such as are always ready
stdio.stdin = "ignore"
clocks.monotonic = "allow"
: {"value":7},{"value":[5]},{"value":[]},{"value":8},{"value":[1,0]}
subscribe-duration [1] => ["call","wasi:clocks/monotonic-clock@0.2.0","subscribe-duration",[1]] 0
get-stdin [] => 1
input-stream.subscribe [1] => 2
poll [[0,2]] => [1]
poll [[2,2]] => [0,1]
poll [[2,0,0,2]] => [0,3]
poll [[0,0]] => ["call","wasi:io/poll@0.2.0","poll",[[7,7]]] [5]
poll [[0]] => ["call","wasi:io/poll@0.2.0","poll",[[7]]] []
poll [[]] => trap
subscribe-duration [2] => ["call","wasi:clocks/monotonic-clock@0.2.0","subscribe-duration",[2]] 3
poll [[3,0]] => ["call","wasi:io/poll@0.2.0","poll",[[8,7]]] [1,0]
poll [[3,0,2]] => [2]

# A poll of no pollable traps under every policy
poll [[]] => trap

# Pollables of clocks, streams and listings of files are always ready
stdio.stdout = "ignore"
clocks.monotonic = 1
fs.tree = [{ name = "/t", files = { f = { text = "xyz" } } }]
get-directories [] => [[0,"/t"]]
descriptor.open-at [0,[],"f",[],[]] => {"ok":1}
descriptor.read-via-stream [1,3] => {"ok":2}
input-stream.subscribe [2] => 3
get-stdout [] => 4
output-stream.subscribe [4] => 5
subscribe-duration [1000] => 6
poll [[6,5,3]] => [0,1,2]

# Variables of the host that are passed, and those that are set
env = { allow = ["A"], set = { C = "3", A = "9" } }
: {"value":[["A","1"],["B","2"]]}
get-environment [] => ["call","wasi:cli/environment@0.2.0","get-environment",[]] [["A","9"],["C","3"]]

# Variables of the host keep their order, in front of those that are set
env = { allow = ["Z", "B", "Z", "D"], set = { C = "3", A = "" } }
: {"value":[["Z","1"],["A","2"],["B",""],["Z","3"],["E","4"]]}
get-environment [] => ["call","wasi:cli/environment@0.2.0","get-environment",[]] [["Z","1"],["B",""],["Z","3"],["A",""],["C","3"]]

# All variables of the host but those that are set
env = { pass = true, allow = ["A"], set = { C = "3" } }
: {"value":[["C","1"],["B","2"],["A","3"],["C","4"]]},{"value":[]}
get-environment [] => ["call","wasi:cli/environment@0.2.0","get-environment",[]] [["B","2"],["A","3"],["C","3"]]
get-environment [] => ["call","wasi:cli/environment@0.2.0","get-environment",[]] [["C","3"]]

# Without variables of the host it is not asked
env = { pass = false, allow = [], set = { b = "2", B = "1", "a-b" = "3", a = "" } }
get-environment [] => [["B","1"],["a",""],["a-b","3"],["b","2"]]

# An empty policy gives no variables, arguments or folder
get-environment [] => []
get-arguments [] => []
initial-cwd [] => null

# Arguments and a folder that the policy gives
env = { arguments = ["prog", "", "-x"], cwd = "/t" }
get-arguments [] => ["prog","","-x"]
initial-cwd [] => {"some":"/t"}

# Empty ones that the policy gives
env = { arguments = [], cwd = "" }
get-arguments [] => []
initial-cwd [] => {"some":""}

# Arguments and a folder of the host
env = { arguments = true, cwd = true }
: {"value":["p"]},{"value":null},{"value":{"some":"/h"}}
get-arguments [] => ["call","wasi:cli/environment@0.2.0","get-arguments",[]] ["p"]
initial-cwd [] => ["call","wasi:cli/environment@0.2.0","initial-cwd",[]] null
initial-cwd [] => ["call","wasi:cli/environment@0.2.0","initial-cwd",[]] {"some":"/h"}

# Arguments and a folder that are not given
env = { arguments = false, cwd = false }
get-arguments [] => []
initial-cwd [] => null

# Roots of trees in the policy's order, and the scratch folder behind them; each call makes them anew
fs.tree = [{ name = "/u" }, { name = "/t" }]
fs.scratch = { name = "/s", blocks = 1, files = 1 }
get-directories [] => [[0,"/u"],[1,"/t"],[2,"/s"]]
get-directories [] => [[3,"/u"],[4,"/t"],[5,"/s"]]
descriptor.is-same-object [0,3] => true
descriptor.is-same-object [0,1] => false
descriptor.is-same-object [2,5] => true
descriptor.is-same-object [1,2] => false
descriptor.is-same-object [2,1] => false

# No folder
get-directories [] => []"##;

#[test]
fn virtuals_hold(rt: HostRuntime) -> Result<(), Fail> {
    hold(&rt, rt.alloc(), ROWS)
}
