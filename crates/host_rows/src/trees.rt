//! Trees: where paths lead, and what descriptors, listings and streams of their folders and files answer.

use crate::blocks::hold;
use std::test::Fail;

const ROWS: &str = r##"# Where paths lead in a tree
fs.tree = [{ name = "/t", files = { "a/f" = { text = "xyz" } } }]
get-directories [] => [[0,"/t"]]
descriptor.open-at [0,[],"a/../../x",[],[]] => {"err":"not-permitted"}
descriptor.open-at [0,[],"a//./f",[],[]] => {"ok":1}
descriptor.open-at [0,[],"",[],[]] => {"err":"no-entry"}
descriptor.open-at [0,[],"a/f/",[],[]] => {"err":"not-directory"}
descriptor.open-at [0,[],"a/f/.",[],[]] => {"err":"not-directory"}
descriptor.open-at [0,[],"a/f/..",[],[]] => {"err":"not-directory"}
descriptor.open-at [0,[],"a/f/x",[],[]] => {"err":"not-directory"}
descriptor.open-at [0,[],"/a",[],[]] => {"err":"not-permitted"}
descriptor.open-at [0,[],"/",[],[]] => {"err":"not-permitted"}
descriptor.open-at [0,[],"//a",[],[]] => {"err":"not-permitted"}
descriptor.open-at [0,[],"a/../a",[],[]] => {"ok":2}
descriptor.open-at [0,[],"b",[],[]] => {"err":"no-entry"}
descriptor.open-at [0,[],"b/..",[],[]] => {"err":"no-entry"}
descriptor.open-at [0,[],"`300*a`",[],[]] => {"err":"no-entry"}
descriptor.open-at [0,[],"a\u0000",[],[]] => {"err":"no-entry"}
descriptor.open-at [0,[],".",[],[]] => {"ok":3}
descriptor.open-at [0,[],"./",[],[]] => {"ok":4}
descriptor.open-at [0,[],"a/..",[],[]] => {"ok":5}
descriptor.open-at [0,[],"..",[],[]] => {"err":"not-permitted"}
descriptor.is-same-object [0,3] => true
descriptor.is-same-object [0,4] => true
descriptor.is-same-object [5,0] => true
descriptor.is-same-object [2,0] => false

# From a folder other than the root, and from a file
fs.tree = [{ name = "/t", files = { "a/f" = { text = "xyz" } } }]
get-directories [] => [[0,"/t"]]
descriptor.open-at [0,[],"a",[],[]] => {"ok":1}
descriptor.open-at [1,[],"f",[],[]] => {"ok":2}
descriptor.open-at [1,[],"..",[],[]] => {"err":"not-permitted"}
descriptor.open-at [1,[],"../a",[],[]] => {"err":"not-permitted"}
descriptor.open-at [1,[],"a",[],[]] => {"err":"no-entry"}
descriptor.open-at [2,[],"",[],[]] => {"err":"not-directory"}
descriptor.open-at [2,[],"/f",[],[]] => {"err":"not-directory"}
descriptor.open-at [2,[],".",[],[]] => {"err":"not-directory"}
descriptor.stat-at [2,[],"f"] => {"err":"not-directory"}
descriptor.metadata-hash-at [2,[],"f"] => {"err":"not-directory"}
descriptor.readlink-at [2,"f"] => {"err":"not-directory"}

# What is asked in opening a node: rights and truncate before the path, then the path, then the other flags
fs.tree = [{ name = "/t", files = { "a/f" = { text = "xyz" } } }]
get-directories [] => [[0,"/t"]]
descriptor.open-at [0,[],"a/f",[],["write"]] => {"err":"read-only"}
descriptor.open-at [0,[],"b",[],["write"]] => {"err":"read-only"}
descriptor.open-at [0,[],"/a",[],["read","write"]] => {"err":"read-only"}
descriptor.open-at [0,[],"",[],["mutate-directory"]] => {"err":"read-only"}
descriptor.open-at [0,[],"..",["truncate"],[]] => {"err":"read-only"}
descriptor.open-at [0,[],"a/f",["exclusive","truncate"],[]] => {"err":"read-only"}
descriptor.open-at [0,[],"b",["create"],[]] => {"err":"read-only"}
descriptor.open-at [0,[],"b/c",["create","directory"],[]] => {"err":"read-only"}
descriptor.open-at [0,[],"b",["create","exclusive"],[]] => {"err":"read-only"}
descriptor.open-at [0,[],"",["create"],[]] => {"err":"read-only"}
descriptor.open-at [0,[],"..",["create"],[]] => {"err":"not-permitted"}
descriptor.open-at [0,[],"a/f/x",["create"],[]] => {"err":"not-directory"}
descriptor.open-at [0,[],"b",["exclusive"],[]] => {"err":"no-entry"}
descriptor.open-at [0,[],"b",["directory"],[]] => {"err":"no-entry"}
descriptor.open-at [0,[],"a/f",["exclusive"],[]] => {"err":"exist"}
descriptor.open-at [0,[],"a/f",["create","exclusive"],[]] => {"err":"exist"}
descriptor.open-at [0,[],"a/f",["directory","exclusive"],[]] => {"err":"exist"}
descriptor.open-at [0,[],".",["exclusive"],[]] => {"err":"exist"}
descriptor.open-at [0,[],"a/f",["directory"],[]] => {"err":"not-directory"}
descriptor.open-at [0,[],"a/f",["create","directory"],[]] => {"err":"not-directory"}
descriptor.open-at [0,[],"a",["directory"],[]] => {"ok":1}
descriptor.open-at [0,[],"a/f",["create"],["read","file-integrity-sync","data-integrity-sync","requested-write-sync"]] => {"ok":2}
descriptor.get-flags [2] => {"ok":["read"]}
descriptor.get-flags [1] => {"ok":["read"]}

# A descriptor of a file
fs.tree = [{ name = "/t", files = { "a/f" = { text = "xyz" }, e = { text = "" } } }]
get-directories [] => [[0,"/t"]]
descriptor.open-at [0,[],"a/f",[],[]] => {"ok":1}
descriptor.read [1,10,3] => {"ok":[[],true]}
descriptor.read [1,0,0] => {"ok":[[],false]}
descriptor.read [1,2,1] => {"ok":[[121,122],true]}
descriptor.read [1,10,18446744073709551615] => {"ok":[[],true]}
descriptor.read [1,10,0] => {"ok":[[120,121,122],true]}
descriptor.read [1,3,0] => {"ok":[[120,121,122],true]}
descriptor.read [1,1,0] => {"ok":[[120],false]}
descriptor.read [1,0,3] => {"ok":[[],true]}
descriptor.read [1,18446744073709551615,1] => {"ok":[[121,122],true]}
descriptor.write [1,[1],0] => {"err":"read-only"}
descriptor.write [1,[],0] => {"err":"read-only"}
descriptor.write-via-stream [1,0] => {"err":"read-only"}
descriptor.append-via-stream [1] => {"err":"read-only"}
descriptor.set-size [1,3] => {"err":"read-only"}
descriptor.set-times [1,{"no-change":null},{"timestamp":{"nanoseconds":0,"seconds":1}}] => {"err":"read-only"}
descriptor.advise [1,0,18446744073709551615,"no-reuse"] => {"ok":null}
descriptor.sync [1] => {"ok":null}
descriptor.sync-data [1] => {"ok":null}
descriptor.get-flags [1] => {"ok":["read"]}
descriptor.get-type [1] => {"ok":"regular-file"}
descriptor.stat [1] => {"ok":{"data-access-timestamp":null,"data-modification-timestamp":null,"link-count":1,"size":3,"status-change-timestamp":null,"type":"regular-file"}}
descriptor.read-directory [1] => {"err":"not-directory"}
descriptor.create-directory-at [1,"x"] => {"err":"read-only"}
descriptor.remove-directory-at [1,"x"] => {"err":"read-only"}
descriptor.unlink-file-at [1,"x"] => {"err":"read-only"}
descriptor.symlink-at [1,"x","y"] => {"err":"read-only"}
descriptor.set-times-at [1,[],"x",{"now":null},{"now":null}] => {"err":"read-only"}
descriptor.metadata-hash [1] => {"ok":{"lower":2,"upper":1}}
descriptor.open-at [0,[],"e",[],[]] => {"ok":2}
descriptor.read [2,1,0] => {"ok":[[],true]}
descriptor.stat [2] => {"ok":{"data-access-timestamp":null,"data-modification-timestamp":null,"link-count":1,"size":0,"status-change-timestamp":null,"type":"regular-file"}}

# A descriptor of a folder
fs.tree = [{ name = "/t", files = { "a/f" = { text = "xyz" } } }]
get-directories [] => [[0,"/t"]]
descriptor.open-at [0,[],"a",[],[]] => {"ok":1}
descriptor.read [1,1,0] => {"err":"is-directory"}
descriptor.read [1,0,0] => {"err":"is-directory"}
descriptor.read-via-stream [1,0] => {"err":"is-directory"}
descriptor.write [1,[1],0] => {"err":"read-only"}
descriptor.write-via-stream [1,0] => {"err":"read-only"}
descriptor.append-via-stream [1] => {"err":"read-only"}
descriptor.set-size [1,0] => {"err":"read-only"}
descriptor.set-times [1,{"now":null},{"no-change":null}] => {"err":"read-only"}
descriptor.advise [1,0,0,"normal"] => {"ok":null}
descriptor.sync [1] => {"ok":null}
descriptor.sync-data [1] => {"ok":null}
descriptor.get-flags [1] => {"ok":["read"]}
descriptor.get-type [1] => {"ok":"directory"}
descriptor.stat [1] => {"ok":{"data-access-timestamp":null,"data-modification-timestamp":null,"link-count":1,"size":0,"status-change-timestamp":null,"type":"directory"}}
descriptor.stat [0] => {"ok":{"data-access-timestamp":null,"data-modification-timestamp":null,"link-count":1,"size":0,"status-change-timestamp":null,"type":"directory"}}
descriptor.metadata-hash [0] => {"ok":{"lower":0,"upper":1}}
descriptor.metadata-hash [1] => {"ok":{"lower":1,"upper":1}}

# Changes of a node are refused whatever the path is
fs.tree = [{ name = "/t", files = { "a/f" = { text = "xyz" } } }]
get-directories [] => [[0,"/t"]]
descriptor.create-directory-at [0,"a"] => {"err":"read-only"}
descriptor.create-directory-at [0,"/"] => {"err":"read-only"}
descriptor.remove-directory-at [0,"b"] => {"err":"read-only"}
descriptor.unlink-file-at [0,"a/f"] => {"err":"read-only"}
descriptor.symlink-at [0,"a","../x"] => {"err":"read-only"}
descriptor.set-times-at [0,[],"b",{"now":null},{"now":null}] => {"err":"read-only"}
descriptor.set-times-at [0,["symlink-follow"],"",{"no-change":null},{"no-change":null}] => {"err":"read-only"}
descriptor.link-at [0,[],"b",0,"/x"] => {"err":"read-only"}
descriptor.rename-at [0,"..",0,"a"] => {"err":"read-only"}

# Two nodes, of one tree and of two
fs.tree = [{ name = "/t", files = { "a/f" = { text = "xyz" } } }, { name = "/u", files = { "a/f" = { text = "xyz" } } }]
get-directories [] => [[0,"/t"],[1,"/u"]]
descriptor.link-at [0,["symlink-follow"],"a/f",1,"g"] => {"err":"read-only"}
descriptor.rename-at [0,"a/f",1,"g"] => {"err":"read-only"}
descriptor.is-same-object [0,1] => false
descriptor.open-at [0,[],"a/f",[],[]] => {"ok":2}
descriptor.open-at [0,[],"a/f",[],[]] => {"ok":3}
descriptor.open-at [1,[],"a/f",[],[]] => {"ok":4}
descriptor.is-same-object [2,3] => true
descriptor.is-same-object [2,2] => true
descriptor.is-same-object [2,4] => false
descriptor.rename-at [2,"",3,""] => {"err":"read-only"}
descriptor.metadata-hash [4] => {"ok":{"lower":2,"upper":2}}
descriptor.metadata-hash-at [1,[],"."] => {"ok":{"lower":0,"upper":2}}

# What a path leads to
fs.tree = [{ name = "/t", files = { "a/f" = { text = "xyz" }, "a-b" = { text = "1" } }, folders = ["z"] }]
get-directories [] => [[0,"/t"]]
descriptor.stat-at [0,[],"a"] => {"ok":{"data-access-timestamp":null,"data-modification-timestamp":null,"link-count":1,"size":0,"status-change-timestamp":null,"type":"directory"}}
descriptor.stat-at [0,[],"a/f"] => {"ok":{"data-access-timestamp":null,"data-modification-timestamp":null,"link-count":1,"size":3,"status-change-timestamp":null,"type":"regular-file"}}
descriptor.stat-at [0,["symlink-follow"],"a/f"] => {"ok":{"data-access-timestamp":null,"data-modification-timestamp":null,"link-count":1,"size":3,"status-change-timestamp":null,"type":"regular-file"}}
descriptor.stat-at [0,[],"."] => {"ok":{"data-access-timestamp":null,"data-modification-timestamp":null,"link-count":1,"size":0,"status-change-timestamp":null,"type":"directory"}}
descriptor.stat-at [0,[],"b"] => {"err":"no-entry"}
descriptor.stat-at [0,[],""] => {"err":"no-entry"}
descriptor.stat-at [0,[],"/a"] => {"err":"not-permitted"}
descriptor.stat-at [0,[],"a/f/"] => {"err":"not-directory"}
descriptor.metadata-hash-at [0,[],"a"] => {"ok":{"lower":1,"upper":1}}
descriptor.metadata-hash-at [0,[],"a/f"] => {"ok":{"lower":2,"upper":1}}
descriptor.metadata-hash-at [0,[],"a-b"] => {"ok":{"lower":3,"upper":1}}
descriptor.metadata-hash-at [0,[],"z"] => {"ok":{"lower":4,"upper":1}}
descriptor.metadata-hash-at [0,[],"b"] => {"err":"no-entry"}
descriptor.metadata-hash-at [0,[],"a/.."] => {"ok":{"lower":0,"upper":1}}
descriptor.readlink-at [0,"a"] => {"err":"invalid"}
descriptor.readlink-at [0,"a/f"] => {"err":"invalid"}
descriptor.readlink-at [0,"."] => {"err":"invalid"}
descriptor.readlink-at [0,"b"] => {"err":"no-entry"}
descriptor.readlink-at [0,".."] => {"err":"not-permitted"}

# Listings go by the bytes of names, and dropping what was opened leaves them
fs.tree = [{ name = "/t", files = { "a/f" = { text = "xyz" }, "a-b" = { text = "1" }, "a/g/h" = { hex = "" } }, folders = ["Z"] }]
get-directories [] => [[0,"/t"]]
descriptor.read-directory [0] => {"ok":1}
descriptor.open-at [0,[],"a",[],[]] => {"ok":2}
descriptor.read-directory [2] => {"ok":3}
drop descriptor 0 => done
drop descriptor 2 => done
directory-entry-stream.read-directory-entry [1] => {"ok":{"some":{"name":"Z","type":"directory"}}}
directory-entry-stream.read-directory-entry [1] => {"ok":{"some":{"name":"a","type":"directory"}}}
directory-entry-stream.read-directory-entry [3] => {"ok":{"some":{"name":"f","type":"regular-file"}}}
directory-entry-stream.read-directory-entry [1] => {"ok":{"some":{"name":"a-b","type":"regular-file"}}}
directory-entry-stream.read-directory-entry [1] => {"ok":null}
directory-entry-stream.read-directory-entry [1] => {"ok":null}
directory-entry-stream.read-directory-entry [3] => {"ok":{"some":{"name":"g","type":"directory"}}}
directory-entry-stream.read-directory-entry [3] => {"ok":null}

# A stream from a file
fs.tree = [{ name = "/t", files = { f = { text = "vwxyz" }, e = { text = "" } } }]
get-directories [] => [[0,"/t"]]
descriptor.open-at [0,[],"f",[],[]] => {"ok":1}
descriptor.read-via-stream [1,0] => {"ok":2}
descriptor.read-via-stream [1,4] => {"ok":3}
descriptor.read-via-stream [1,5] => {"ok":4}
descriptor.read-via-stream [1,18446744073709551615] => {"ok":5}
drop descriptor 1 => done
input-stream.read [2,0] => {"ok":[]}
input-stream.read [2,2] => {"ok":[118,119]}
input-stream.skip [2,0] => {"ok":0}
input-stream.skip [2,1] => {"ok":1}
input-stream.blocking-read [2,10] => {"ok":[121,122]}
input-stream.read [2,10] => {"err":{"closed":null}}
input-stream.read [2,0] => {"err":{"closed":null}}
input-stream.blocking-read [2,0] => {"err":{"closed":null}}
input-stream.skip [2,0] => {"err":{"closed":null}}
input-stream.blocking-skip [2,1] => {"err":{"closed":null}}
input-stream.blocking-skip [3,18446744073709551615] => {"ok":1}
input-stream.skip [3,1] => {"err":{"closed":null}}
input-stream.read [4,1] => {"err":{"closed":null}}
input-stream.read [5,1] => {"err":{"closed":null}}
input-stream.subscribe [5] => 1
descriptor.open-at [0,[],"e",[],[]] => {"ok":6}
descriptor.read-via-stream [6,0] => {"ok":7}
input-stream.read [7,0] => {"err":{"closed":null}}
input-stream.skip [7,0] => {"err":{"closed":null}}

# A folder outside that is mounted, twice: two trees
fs.tree = [{ name = "/t", mount = "d" }, { name = "/u", mount = "d" }]
get-directories [] => [[0,"/t"],[1,"/u"]]
descriptor.open-at [0,[],"x",[],[]] => {"ok":2}
descriptor.open-at [1,[],"x",[],[]] => {"ok":3}
descriptor.read [2,10,0] => {"ok":[[120,121,122],true]}
descriptor.read [3,10,0] => {"ok":[[120,121,122],true]}
descriptor.is-same-object [2,3] => false
descriptor.is-same-object [0,1] => false
descriptor.metadata-hash [3] => {"ok":{"lower":1,"upper":2}}

# Symbolic links, followed and not
version = 2
fs.tree = [{ name = "/t", files = { "a/f" = { text = "xyz" } }, links = { l = "a/f", u = "../x", s = "s", r = "/a", d = "a", n = "no" } }]
get-directories [] => [[0,"/t"]]
descriptor.open-at [0,["symlink-follow"],"l",[],[]] => {"ok":1}
descriptor.read [1,10,0] => {"ok":[[120,121,122],true]}
descriptor.open-at [0,["symlink-follow"],"u",[],[]] => {"err":"not-permitted"}
descriptor.open-at [0,["symlink-follow"],"s",[],[]] => {"err":"loop"}
descriptor.open-at [0,["symlink-follow"],"r",[],[]] => {"err":"not-permitted"}
descriptor.open-at [0,["symlink-follow"],"n",[],[]] => {"err":"no-entry"}
descriptor.open-at [0,["symlink-follow"],"n",["create"],[]] => {"err":"read-only"}
descriptor.open-at [0,["symlink-follow"],"l",["exclusive"],[]] => {"err":"exist"}
descriptor.open-at [0,["symlink-follow"],"l",["directory"],[]] => {"err":"not-directory"}
descriptor.open-at [0,["symlink-follow"],"d",["directory"],[]] => {"ok":2}
descriptor.is-same-object [1,2] => false
descriptor.open-at [0,[],"l",[],[]] => {"err":"loop"}
descriptor.open-at [0,[],"u",[],[]] => {"err":"loop"}
descriptor.open-at [0,[],"s",[],[]] => {"err":"loop"}
descriptor.open-at [0,[],"r",[],[]] => {"err":"loop"}
descriptor.open-at [0,[],"n",["create"],[]] => {"err":"loop"}
descriptor.open-at [0,[],"l",["directory"],[]] => {"err":"loop"}
descriptor.open-at [0,[],"l",["exclusive"],[]] => {"err":"exist"}
descriptor.open-at [0,[],"l",["directory","exclusive"],[]] => {"err":"exist"}
descriptor.open-at [0,[],"d/f",[],[]] => {"ok":3}
descriptor.is-same-object [1,3] => true
descriptor.open-at [0,[],"d/",[],[]] => {"ok":4}
descriptor.is-same-object [2,4] => true
descriptor.open-at [0,[],"d/.",[],[]] => {"ok":5}
descriptor.open-at [0,[],"d/..",[],[]] => {"ok":6}
descriptor.is-same-object [0,6] => true
descriptor.open-at [0,[],"l/",[],[]] => {"err":"not-directory"}
descriptor.open-at [0,[],"s/",[],[]] => {"err":"loop"}
descriptor.open-at [2,[],"f",[],[]] => {"ok":7}

# What is known of links
version = 2
fs.tree = [{ name = "/t", files = { "a/f" = { text = "xyz1" } }, links = { l = "a/f", s = "s", d = "a", t = "a/", v = "a/f/" } }]
get-directories [] => [[0,"/t"]]
descriptor.readlink-at [0,"l"] => {"ok":"a/f"}
descriptor.readlink-at [0,"s"] => {"ok":"s"}
descriptor.readlink-at [0,"a"] => {"err":"invalid"}
descriptor.readlink-at [0,"a/f"] => {"err":"invalid"}
descriptor.readlink-at [0,"d/"] => {"err":"invalid"}
descriptor.readlink-at [0,"l/"] => {"err":"not-directory"}
descriptor.readlink-at [0,"d/x"] => {"err":"no-entry"}
descriptor.stat-at [0,[],"l"] => {"ok":{"data-access-timestamp":null,"data-modification-timestamp":null,"link-count":1,"size":3,"status-change-timestamp":null,"type":"symbolic-link"}}
descriptor.stat-at [0,["symlink-follow"],"l"] => {"ok":{"data-access-timestamp":null,"data-modification-timestamp":null,"link-count":1,"size":4,"status-change-timestamp":null,"type":"regular-file"}}
descriptor.stat-at [0,[],"d"] => {"ok":{"data-access-timestamp":null,"data-modification-timestamp":null,"link-count":1,"size":1,"status-change-timestamp":null,"type":"symbolic-link"}}
descriptor.stat-at [0,[],"d/"] => {"ok":{"data-access-timestamp":null,"data-modification-timestamp":null,"link-count":1,"size":0,"status-change-timestamp":null,"type":"directory"}}
descriptor.stat-at [0,[],"d/."] => {"ok":{"data-access-timestamp":null,"data-modification-timestamp":null,"link-count":1,"size":0,"status-change-timestamp":null,"type":"directory"}}
descriptor.stat-at [0,["symlink-follow"],"s"] => {"err":"loop"}
descriptor.stat-at [0,["symlink-follow"],"t"] => {"ok":{"data-access-timestamp":null,"data-modification-timestamp":null,"link-count":1,"size":0,"status-change-timestamp":null,"type":"directory"}}
descriptor.stat-at [0,["symlink-follow"],"v"] => {"err":"not-directory"}
descriptor.stat-at [0,[],"v"] => {"ok":{"data-access-timestamp":null,"data-modification-timestamp":null,"link-count":1,"size":4,"status-change-timestamp":null,"type":"symbolic-link"}}
descriptor.metadata-hash-at [0,[],"l"] => {"ok":{"lower":4,"upper":1}}
descriptor.metadata-hash-at [0,["symlink-follow"],"l"] => {"ok":{"lower":2,"upper":1}}
descriptor.metadata-hash-at [0,["symlink-follow"],"d"] => {"ok":{"lower":1,"upper":1}}
descriptor.metadata-hash-at [0,[],"s"] => {"ok":{"lower":5,"upper":1}}
descriptor.set-times-at [0,[],"l",{"now":null},{"now":null}] => {"err":"read-only"}
descriptor.unlink-file-at [0,"l"] => {"err":"read-only"}
descriptor.read-directory [0] => {"ok":1}
directory-entry-stream.read-directory-entry [1] => {"ok":{"some":{"name":"a","type":"directory"}}}
directory-entry-stream.read-directory-entry [1] => {"ok":{"some":{"name":"d","type":"symbolic-link"}}}
directory-entry-stream.read-directory-entry [1] => {"ok":{"some":{"name":"l","type":"symbolic-link"}}}
directory-entry-stream.read-directory-entry [1] => {"ok":{"some":{"name":"s","type":"symbolic-link"}}}
directory-entry-stream.read-directory-entry [1] => {"ok":{"some":{"name":"t","type":"symbolic-link"}}}
directory-entry-stream.read-directory-entry [1] => {"ok":{"some":{"name":"v","type":"symbolic-link"}}}
directory-entry-stream.read-directory-entry [1] => {"ok":null}

# A link leads above its folder, and never above the folder that a path starts from
version = 2
fs.tree = [{ name = "/t", files = { x = { text = "1" }, "a/y" = { text = "2" } }, links = { "a/u" = "../x" } }]
get-directories [] => [[0,"/t"]]
descriptor.open-at [0,["symlink-follow"],"a/u",[],[]] => {"ok":1}
descriptor.read [1,9,0] => {"ok":[[49],true]}
descriptor.open-at [0,[],"a",[],[]] => {"ok":2}
descriptor.open-at [2,["symlink-follow"],"u",[],[]] => {"err":"not-permitted"}
descriptor.open-at [2,["symlink-follow"],"./u",[],[]] => {"err":"not-permitted"}
descriptor.open-at [2,["symlink-follow"],"y",[],[]] => {"ok":3}

# At most 40 links are followed: from c39 on 40 are, from c40 on 41
version = 2
fs.tree = [{ name = "/t", files = { "a/f" = { text = "xyz" } }, links = { c00 = "a/f", c01 = "c00", c02 = "c01", c03 = "c02", c04 = "c03", c05 = "c04", c06 = "c05", c07 = "c06", c08 = "c07", c09 = "c08", c10 = "c09", c11 = "c10", c12 = "c11", c13 = "c12", c14 = "c13", c15 = "c14", c16 = "c15", c17 = "c16", c18 = "c17", c19 = "c18", c20 = "c19", c21 = "c20", c22 = "c21", c23 = "c22", c24 = "c23", c25 = "c24", c26 = "c25", c27 = "c26", c28 = "c27", c29 = "c28", c30 = "c29", c31 = "c30", c32 = "c31", c33 = "c32", c34 = "c33", c35 = "c34", c36 = "c35", c37 = "c36", c38 = "c37", c39 = "c38", c40 = "c39" } }]
get-directories [] => [[0,"/t"]]
descriptor.open-at [0,["symlink-follow"],"c39",[],[]] => {"ok":1}
descriptor.open-at [0,["symlink-follow"],"c40",[],[]] => {"err":"loop"}
descriptor.read [1,10,0] => {"ok":[[120,121,122],true]}

# The last link is answered without following also behind 40 links, and too many come before a target from the root
version = 2
fs.tree = [{ name = "/t", files = { "a/f" = { text = "xyz" } }, links = { h = ".", l = "a/f", r = "/a" } }]
get-directories [] => [[0,"/t"]]
descriptor.stat-at [0,[],"`40*h/`l"] => {"ok":{"data-access-timestamp":null,"data-modification-timestamp":null,"link-count":1,"size":3,"status-change-timestamp":null,"type":"symbolic-link"}}
descriptor.stat-at [0,["symlink-follow"],"`40*h/`l"] => {"err":"loop"}
descriptor.stat-at [0,["symlink-follow"],"`39*h/`l"] => {"ok":{"data-access-timestamp":null,"data-modification-timestamp":null,"link-count":1,"size":3,"status-change-timestamp":null,"type":"regular-file"}}
descriptor.stat-at [0,[],"`41*h/`l"] => {"err":"loop"}
descriptor.readlink-at [0,"`40*h/`l"] => {"ok":"a/f"}
descriptor.readlink-at [0,"`41*h/`l"] => {"err":"loop"}
descriptor.open-at [0,[],"`40*h/`a/f",[],[]] => {"ok":1}
descriptor.open-at [0,[],"`41*h/`a/f",[],[]] => {"err":"loop"}
descriptor.stat-at [0,["symlink-follow"],"`39*h/`r"] => {"err":"not-permitted"}
descriptor.stat-at [0,["symlink-follow"],"`40*h/`r"] => {"err":"loop"}
descriptor.stat-at [0,[],"`40*h/`r"] => {"ok":{"data-access-timestamp":null,"data-modification-timestamp":null,"link-count":1,"size":2,"status-change-timestamp":null,"type":"symbolic-link"}}"##;

#[test]
fn trees_hold(rt: HostRuntime) -> Result<(), Fail> {
    hold(&rt, rt.alloc(), ROWS)
}
