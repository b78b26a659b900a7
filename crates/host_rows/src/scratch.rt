//! The scratch folder: its files, their blocks, and the streams from and to them.

use crate::blocks::hold;
use std::test::Fail;

const ROWS: &str = r##"# One block is filled, cut and filled again
fs.scratch = { name = "/s", blocks = 1, files = 2 }
get-directories [] => [[0,"/s"]]
descriptor.open-at [0,[],"x",["create"],["read","write"]] => {"ok":1}
descriptor.write [1,[`4095*7,`7],0] => {"ok":4096}
descriptor.write [1,[7],4096] => {"err":"insufficient-space"}
descriptor.write [1,[7],18446744073709551615] => {"err":"insufficient-space"}
descriptor.set-size [1,4097] => {"err":"insufficient-space"}
descriptor.set-size [1,18446744073709551615] => {"err":"insufficient-space"}
descriptor.write [1,[],18446744073709551615] => {"ok":0}
descriptor.write [1,[1,2],4094] => {"ok":2}
descriptor.write [1,[1,2],4095] => {"err":"insufficient-space"}
descriptor.read [1,3,4093] => {"ok":[[7,1,2],true]}
descriptor.stat [1] => {"ok":{"data-access-timestamp":null,"data-modification-timestamp":null,"link-count":1,"size":4096,"status-change-timestamp":null,"type":"regular-file"}}
descriptor.set-size [1,0] => {"ok":null}
descriptor.write [1,[7],10] => {"ok":1}
descriptor.stat [1] => {"ok":{"data-access-timestamp":null,"data-modification-timestamp":null,"link-count":1,"size":11,"status-change-timestamp":null,"type":"regular-file"}}
descriptor.read [1,100,0] => {"ok":[[0,0,0,0,0,0,0,0,0,0,7],true]}

# As many blocks as there may be
fs.scratch = { name = "/s", blocks = 8192, files = 1 }
get-directories [] => [[0,"/s"]]
descriptor.open-at [0,[],"x",["create"],["write"]] => {"ok":1}
descriptor.set-size [1,33554433] => {"err":"insufficient-space"}
descriptor.set-size [1,33554432] => {"ok":null}
descriptor.write [1,[1],33554432] => {"err":"insufficient-space"}
descriptor.write [1,[1],33554431] => {"ok":1}
descriptor.read [1,9,33554430] => {"ok":[[0,1],true]}
descriptor.read-via-stream [1,0] => {"ok":2}
input-stream.skip [2,18446744073709551615] => {"ok":33554432}

# The blocks are those of all files
fs.scratch = { name = "/s", blocks = 1, files = 2 }
get-directories [] => [[0,"/s"]]
descriptor.open-at [0,[],"x",["create"],["write"]] => {"ok":1}
descriptor.write [1,[1],0] => {"ok":1}
descriptor.open-at [0,[],"y",["create"],["write"]] => {"ok":2}
descriptor.write [2,[1],0] => {"err":"insufficient-space"}
descriptor.set-size [2,1] => {"err":"insufficient-space"}
descriptor.stat [2] => {"ok":{"data-access-timestamp":null,"data-modification-timestamp":null,"link-count":1,"size":0,"status-change-timestamp":null,"type":"regular-file"}}
descriptor.set-size [1,0] => {"ok":null}
descriptor.write [2,[1],0] => {"ok":1}
descriptor.write [1,[1],0] => {"err":"insufficient-space"}

# Files keep their bytes as others grow, shrink and go
fs.scratch = { name = "/s", blocks = 4, files = 3 }
get-directories [] => [[0,"/s"]]
descriptor.open-at [0,[],"a",["create"],["write"]] => {"ok":1}
descriptor.open-at [0,[],"b",["create"],["write"]] => {"ok":2}
descriptor.open-at [0,[],"c",["create"],["write"]] => {"ok":3}
descriptor.write [2,[104,101,108,108,111],0] => {"ok":5}
descriptor.write [1,[120],5000] => {"ok":1}
descriptor.write [3,[99],4095] => {"ok":1}
descriptor.read [2,100,0] => {"ok":[[104,101,108,108,111],true]}
descriptor.write [2,[1],4096] => {"err":"insufficient-space"}
descriptor.set-size [1,4096] => {"ok":null}
descriptor.write [2,[1],4096] => {"ok":1}
descriptor.read [2,7,0] => {"ok":[[104,101,108,108,111,0,0],false]}
descriptor.read [2,7,4090] => {"ok":[[0,0,0,0,0,0,1],true]}
descriptor.read [3,2,4094] => {"ok":[[0,99],true]}
descriptor.set-size [2,3] => {"ok":null}
descriptor.set-size [2,5] => {"ok":null}
descriptor.read [2,7,0] => {"ok":[[104,101,108,0,0],true]}
drop descriptor 1 => done
descriptor.unlink-file-at [0,"a"] => {"ok":null}
descriptor.read [3,2,4094] => {"ok":[[0,99],true]}
descriptor.read [2,7,0] => {"ok":[[104,101,108,0,0],true]}

# Blocks that a file gives up are another's, without their bytes; other files keep theirs
fs.scratch = { name = "/s", blocks = 6, files = 3 }
get-directories [] => [[0,"/s"]]
descriptor.open-at [0,[],"a",["create"],["write"]] => {"ok":1}
descriptor.open-at [0,[],"b",["create"],["write"]] => {"ok":2}
descriptor.open-at [0,[],"c",["create"],["write"]] => {"ok":3}
descriptor.write [2,[`4096*5,`6,7],0] => {"ok":4098}
descriptor.write [3,[9,8],4095] => {"ok":2}
descriptor.set-size [1,1] => {"ok":null}
descriptor.set-size [1,4097] => {"ok":null}
descriptor.set-size [1,8193] => {"err":"insufficient-space"}
descriptor.read [2,4,4095] => {"ok":[[5,6,7],true]}
descriptor.read [3,3,4094] => {"ok":[[0,9,8],true]}
descriptor.set-size [2,4096] => {"ok":null}
descriptor.set-size [1,8193] => {"ok":null}
descriptor.read [1,3,8191] => {"ok":[[0,0],true]}
descriptor.read [2,3,4094] => {"ok":[[5,5],true]}
descriptor.read [3,3,4094] => {"ok":[[0,9,8],true]}
descriptor.set-size [1,0] => {"ok":null}
descriptor.write [2,[1,2,3],8190] => {"ok":3}
descriptor.read [2,5,8189] => {"ok":[[0,1,2,3],true]}
descriptor.read [2,3,4095] => {"ok":[[5,0,0],false]}
descriptor.read [3,3,4094] => {"ok":[[0,9,8],true]}
descriptor.write [1,[4],4096] => {"err":"insufficient-space"}
descriptor.write [1,[4],4095] => {"ok":1}
descriptor.read [1,2,4094] => {"ok":[[0,4],true]}
descriptor.read [2,2,0] => {"ok":[[5,5],false]}

# A file that is held is busy, by a descriptor, an input or an output
fs.scratch = { name = "/s", blocks = 1, files = 2 }
get-directories [] => [[0,"/s"]]
descriptor.open-at [0,[],"x",["create"],["write"]] => {"ok":1}
descriptor.unlink-file-at [0,"x"] => {"err":"busy"}
descriptor.read-via-stream [1,0] => {"ok":2}
descriptor.append-via-stream [1] => {"ok":3}
drop descriptor 1 => done
descriptor.unlink-file-at [0,"x"] => {"err":"busy"}
drop input-stream 2 => done
descriptor.unlink-file-at [0,"x"] => {"err":"busy"}
descriptor.read-directory [0] => {"ok":1}
drop output-stream 3 => done
descriptor.unlink-file-at [0,"x"] => {"ok":null}
descriptor.unlink-file-at [0,"x"] => {"err":"no-entry"}
directory-entry-stream.read-directory-entry [1] => {"ok":null}

# What can be unlinked
fs.scratch = { name = "/s", blocks = 1, files = 2 }
get-directories [] => [[0,"/s"]]
descriptor.open-at [0,[],"x",["create"],[]] => {"ok":1}
descriptor.unlink-file-at [0,"y"] => {"err":"no-entry"}
descriptor.unlink-file-at [0,""] => {"err":"no-entry"}
descriptor.unlink-file-at [0,"`300*a`"] => {"err":"no-entry"}
descriptor.unlink-file-at [0,"."] => {"err":"is-directory"}
descriptor.unlink-file-at [0,"./"] => {"err":"is-directory"}
descriptor.unlink-file-at [0,".."] => {"err":"not-permitted"}
descriptor.unlink-file-at [0,"/x"] => {"err":"not-permitted"}
descriptor.unlink-file-at [0,"x/"] => {"err":"not-directory"}
descriptor.unlink-file-at [0,"x/y"] => {"err":"not-directory"}
descriptor.unlink-file-at [1,"x"] => {"err":"not-directory"}
drop descriptor 1 => done
descriptor.unlink-file-at [0,".//x"] => {"ok":null}

# Opening what is not there
fs.scratch = { name = "/s", blocks = 1, files = 2 }
get-directories [] => [[0,"/s"]]
descriptor.open-at [0,[],"x",[],["read"]] => {"err":"no-entry"}
descriptor.open-at [0,[],"x",["directory"],[]] => {"err":"no-entry"}
descriptor.open-at [0,[],"x",["truncate"],["write"]] => {"err":"no-entry"}
descriptor.open-at [0,[],"x",["create","directory"],[]] => {"err":"invalid"}
descriptor.open-at [0,[],"",["create","directory"],[]] => {"err":"invalid"}
descriptor.open-at [0,[],"",["create"],[]] => {"err":"no-entry"}
descriptor.open-at [0,[],"//x",["create"],[]] => {"err":"not-permitted"}
descriptor.open-at [0,[],"x/",["create"],[]] => {"err":"no-entry"}
descriptor.open-at [0,[],"x/.",["create"],[]] => {"err":"no-entry"}
descriptor.open-at [0,[],"x/y",["create"],[]] => {"err":"no-entry"}
descriptor.open-at [0,[],"x/..",["create"],[]] => {"err":"no-entry"}
descriptor.open-at [0,[],"x/../y",["create"],[]] => {"err":"no-entry"}
descriptor.open-at [0,[],"..",["create"],[]] => {"err":"not-permitted"}
descriptor.open-at [0,[],"../x",["create"],[]] => {"err":"not-permitted"}
descriptor.open-at [0,[],"`256*a`",["create"],[]] => {"err":"name-too-long"}
descriptor.open-at [0,[],"`255*a`\u0000",["create"],[]] => {"err":"name-too-long"}
descriptor.open-at [0,[],"a\u0000b",["create"],[]] => {"err":"illegal-byte-sequence"}
descriptor.open-at [0,[],"a\u0000b/",["create"],[]] => {"err":"no-entry"}
descriptor.open-at [0,[],"`256*a`",[],[]] => {"err":"no-entry"}
descriptor.open-at [0,[],"`255*a`",["create"],[]] => {"ok":1}
descriptor.open-at [0,[],"./x",["create"],[]] => {"ok":2}
descriptor.open-at [0,[],"z",["create"],[]] => {"err":"insufficient-space"}
descriptor.open-at [0,[],"`256*b`",["create"],[]] => {"err":"name-too-long"}
descriptor.open-at [0,[],"x/y",["create"],[]] => {"err":"not-directory"}
descriptor.open-at [0,[],"x/",["create"],[]] => {"err":"not-directory"}
descriptor.open-at [0,[],".//x",["create"],[]] => {"ok":3}
descriptor.is-same-object [2,3] => true
drop descriptor 1 => done
descriptor.unlink-file-at [0,"`255*a`"] => {"ok":null}
descriptor.open-at [0,["symlink-follow"],"z",["create","exclusive","truncate"],["write","mutate-directory"]] => {"ok":1}
descriptor.metadata-hash [1] => {"ok":{"lower":1,"upper":1}}

# Opening the folder again
fs.scratch = { name = "/s", blocks = 1, files = 2 }
get-directories [] => [[0,"/s"]]
descriptor.open-at [0,[],".",[],[]] => {"ok":1}
descriptor.open-at [0,[],"./",["create","directory"],["read","mutate-directory"]] => {"ok":2}
descriptor.open-at [0,[],".//.",[],[]] => {"ok":3}
descriptor.open-at [0,["symlink-follow"],".",[],[]] => {"ok":4}
descriptor.is-same-object [0,4] => true
descriptor.open-at [0,[],".",["exclusive"],["write"]] => {"err":"exist"}
descriptor.open-at [0,[],".",["create","exclusive"],[]] => {"err":"exist"}
descriptor.open-at [0,[],".",[],["write"]] => {"err":"is-directory"}
descriptor.open-at [0,[],".",["truncate"],[]] => {"err":"is-directory"}
descriptor.open-at [0,[],".",["directory","truncate"],["write"]] => {"err":"is-directory"}
descriptor.open-at [3,[],"x",["create"],["write"]] => {"ok":5}
descriptor.open-at [1,[],"x",[],[]] => {"ok":6}

# Opening a file that is there
fs.scratch = { name = "/s", blocks = 1, files = 2 }
get-directories [] => [[0,"/s"]]
descriptor.open-at [0,[],"x",["create","truncate"],["read"]] => {"ok":1}
descriptor.open-at [0,[],"x",[],["write"]] => {"ok":2}
descriptor.write [2,[1,2,3],0] => {"ok":3}
descriptor.get-flags [1] => {"ok":["read"]}
descriptor.get-flags [2] => {"ok":["read","write"]}
descriptor.open-at [0,[],"x",["exclusive"],[]] => {"err":"exist"}
descriptor.open-at [0,[],"x",["create","exclusive"],[]] => {"err":"exist"}
descriptor.open-at [0,[],"x",["directory","exclusive"],[]] => {"err":"exist"}
descriptor.open-at [0,[],"x",["directory"],[]] => {"err":"not-directory"}
descriptor.open-at [0,[],"x",["directory","truncate"],[]] => {"err":"not-directory"}
descriptor.open-at [0,[],"x",["truncate"],["read"]] => {"err":"invalid"}
descriptor.stat [1] => {"ok":{"data-access-timestamp":null,"data-modification-timestamp":null,"link-count":1,"size":3,"status-change-timestamp":null,"type":"regular-file"}}
descriptor.open-at [0,[],"x",["create"],["mutate-directory"]] => {"ok":3}
descriptor.get-flags [3] => {"ok":["read"]}
descriptor.open-at [0,[],"x",["truncate"],["write"]] => {"ok":4}
descriptor.get-flags [4] => {"ok":["read","write"]}
descriptor.stat [1] => {"ok":{"data-access-timestamp":null,"data-modification-timestamp":null,"link-count":1,"size":0,"status-change-timestamp":null,"type":"regular-file"}}

# With descriptors full nothing is made
slots = 2
fs.scratch = { name = "/s", blocks = 1, files = 2 }
get-directories [] => [[0,"/s"]]
descriptor.open-at [0,[],"x",["create"],[]] => {"ok":1}
descriptor.open-at [0,[],"y",["create"],["write"]] => {"err":"insufficient-memory"}
descriptor.open-at [0,[],"",["create"],[]] => {"err":"insufficient-memory"}
descriptor.stat-at [0,[],"y"] => {"err":"no-entry"}
drop descriptor 1 => done
descriptor.open-at [0,[],"y",["create"],["write"]] => {"ok":1}

# A descriptor of a file that may be written
fs.scratch = { name = "/s", blocks = 1, files = 2 }
get-directories [] => [[0,"/s"]]
descriptor.open-at [0,[],"x",["create"],["write"]] => {"ok":1}
descriptor.write [1,[1,2,3],1] => {"ok":3}
descriptor.read [1,10,3] => {"ok":[[3],true]}
descriptor.read [1,10,4] => {"ok":[[],true]}
descriptor.read [1,0,0] => {"ok":[[],false]}
descriptor.read [1,2,1] => {"ok":[[1,2],false]}
descriptor.read [1,10,18446744073709551615] => {"ok":[[],true]}
descriptor.write [1,[9],0] => {"ok":1}
descriptor.write [1,[],9] => {"ok":0}
descriptor.read [1,10,0] => {"ok":[[9,1,2,3],true]}
descriptor.set-size [1,2] => {"ok":null}
descriptor.set-size [1,3] => {"ok":null}
descriptor.read [1,10,0] => {"ok":[[9,1,0],true]}
descriptor.set-times [1,{"now":null},{"timestamp":{"nanoseconds":1,"seconds":2}}] => {"ok":null}
descriptor.advise [1,0,1,"will-need"] => {"ok":null}
descriptor.sync [1] => {"ok":null}
descriptor.sync-data [1] => {"ok":null}
descriptor.get-type [1] => {"ok":"regular-file"}
descriptor.stat [1] => {"ok":{"data-access-timestamp":null,"data-modification-timestamp":null,"link-count":1,"size":3,"status-change-timestamp":null,"type":"regular-file"}}
descriptor.metadata-hash [1] => {"ok":{"lower":1,"upper":1}}
descriptor.read-directory [1] => {"err":"not-directory"}
descriptor.write-via-stream [1,5] => {"ok":2}
descriptor.append-via-stream [1] => {"ok":3}

# A descriptor of a file for reading alone
fs.scratch = { name = "/s", blocks = 1, files = 2 }
get-directories [] => [[0,"/s"]]
descriptor.open-at [0,[],"x",["create"],["read"]] => {"ok":1}
descriptor.write [1,[1],0] => {"err":"bad-descriptor"}
descriptor.write [1,[],0] => {"err":"bad-descriptor"}
descriptor.write [1,[1],4096] => {"err":"bad-descriptor"}
descriptor.set-size [1,0] => {"err":"bad-descriptor"}
descriptor.write-via-stream [1,0] => {"err":"bad-descriptor"}
descriptor.append-via-stream [1] => {"err":"bad-descriptor"}
descriptor.set-times [1,{"now":null},{"now":null}] => {"ok":null}
descriptor.read-via-stream [1,0] => {"ok":2}
descriptor.get-flags [1] => {"ok":["read"]}

# From a file no path leads on
fs.scratch = { name = "/s", blocks = 1, files = 2 }
get-directories [] => [[0,"/s"]]
descriptor.open-at [0,[],"x",["create"],["write"]] => {"ok":1}
descriptor.open-at [1,[],"",["create"],[]] => {"err":"not-directory"}
descriptor.open-at [1,[],".",[],[]] => {"err":"not-directory"}
descriptor.stat-at [1,[],"x"] => {"err":"not-directory"}
descriptor.set-times-at [1,[],"x",{"now":null},{"now":null}] => {"err":"not-directory"}
descriptor.metadata-hash-at [1,[],"x"] => {"err":"not-directory"}
descriptor.readlink-at [1,"x"] => {"err":"not-directory"}
descriptor.unlink-file-at [1,""] => {"err":"not-directory"}
descriptor.remove-directory-at [1,"x"] => {"err":"not-directory"}
descriptor.create-directory-at [1,"y"] => {"err":"not-directory"}
descriptor.symlink-at [1,"a","b"] => {"err":"not-directory"}
descriptor.rename-at [1,"x",0,"y"] => {"err":"not-directory"}
descriptor.rename-at [0,"x",1,"y"] => {"err":"not-directory"}
descriptor.rename-at [1,"x",1,"x"] => {"err":"not-directory"}
descriptor.link-at [1,[],"x",0,"y"] => {"err":"not-directory"}
descriptor.link-at [0,[],"x",1,"y"] => {"err":"not-directory"}

# The folder
fs.tree = [{ name = "/t" }, { name = "/u" }]
fs.scratch = { name = "/s", blocks = 1, files = 2 }
get-directories [] => [[0,"/t"],[1,"/u"],[2,"/s"]]
descriptor.read [2,1,0] => {"err":"is-directory"}
descriptor.write [2,[1],0] => {"err":"is-directory"}
descriptor.write [2,[],0] => {"err":"is-directory"}
descriptor.set-size [2,0] => {"err":"is-directory"}
descriptor.read-via-stream [2,0] => {"err":"is-directory"}
descriptor.write-via-stream [2,0] => {"err":"is-directory"}
descriptor.append-via-stream [2] => {"err":"is-directory"}
descriptor.set-times [2,{"now":null},{"no-change":null}] => {"ok":null}
descriptor.advise [2,0,0,"dont-need"] => {"ok":null}
descriptor.sync [2] => {"ok":null}
descriptor.sync-data [2] => {"ok":null}
descriptor.get-flags [2] => {"ok":["read","mutate-directory"]}
descriptor.get-type [2] => {"ok":"directory"}
descriptor.stat [2] => {"ok":{"data-access-timestamp":null,"data-modification-timestamp":null,"link-count":1,"size":0,"status-change-timestamp":null,"type":"directory"}}
descriptor.metadata-hash [2] => {"ok":{"lower":0,"upper":3}}
descriptor.create-directory-at [2,"d"] => {"err":"unsupported"}
descriptor.create-directory-at [2,""] => {"err":"unsupported"}
descriptor.symlink-at [2,"x","l"] => {"err":"unsupported"}
descriptor.link-at [2,[],"x",2,"y"] => {"err":"unsupported"}
descriptor.open-at [2,[],"x",["create"],["write"]] => {"ok":3}
descriptor.metadata-hash [3] => {"ok":{"lower":1,"upper":3}}
descriptor.write [3,[5,6],0] => {"ok":2}
descriptor.stat-at [2,[],"x"] => {"ok":{"data-access-timestamp":null,"data-modification-timestamp":null,"link-count":1,"size":2,"status-change-timestamp":null,"type":"regular-file"}}
descriptor.stat-at [2,["symlink-follow"],"./x"] => {"ok":{"data-access-timestamp":null,"data-modification-timestamp":null,"link-count":1,"size":2,"status-change-timestamp":null,"type":"regular-file"}}
descriptor.stat-at [2,[],"."] => {"ok":{"data-access-timestamp":null,"data-modification-timestamp":null,"link-count":1,"size":0,"status-change-timestamp":null,"type":"directory"}}
descriptor.stat-at [2,[],"y"] => {"err":"no-entry"}
descriptor.stat-at [2,[],"x/"] => {"err":"not-directory"}
descriptor.stat-at [2,[],".."] => {"err":"not-permitted"}
descriptor.stat-at [2,[],"/"] => {"err":"not-permitted"}
descriptor.set-times-at [2,[],"x",{"now":null},{"now":null}] => {"ok":null}
descriptor.set-times-at [2,[],".",{"now":null},{"now":null}] => {"ok":null}
descriptor.set-times-at [2,[],"y",{"now":null},{"now":null}] => {"err":"no-entry"}
descriptor.metadata-hash-at [2,[],"x"] => {"ok":{"lower":1,"upper":3}}
descriptor.metadata-hash-at [2,[],"."] => {"ok":{"lower":0,"upper":3}}
descriptor.metadata-hash-at [2,[],"y"] => {"err":"no-entry"}
descriptor.readlink-at [2,"x"] => {"err":"invalid"}
descriptor.readlink-at [2,"."] => {"err":"invalid"}
descriptor.readlink-at [2,"y"] => {"err":"no-entry"}
descriptor.readlink-at [2,"x/y"] => {"err":"not-directory"}
descriptor.remove-directory-at [2,"x"] => {"err":"not-directory"}
descriptor.remove-directory-at [2,"."] => {"err":"busy"}
descriptor.remove-directory-at [2,"y"] => {"err":"no-entry"}
descriptor.remove-directory-at [2,".."] => {"err":"not-permitted"}
descriptor.is-same-object [2,3] => false
descriptor.is-same-object [3,2] => false
descriptor.is-same-object [3,0] => false
descriptor.is-same-object [0,2] => false

# Two files
fs.scratch = { name = "/s", blocks = 2, files = 2 }
get-directories [] => [[0,"/s"]]
descriptor.open-at [0,[],"x",["create"],["write"]] => {"ok":1}
descriptor.open-at [0,[],"x",[],["read"]] => {"ok":2}
descriptor.open-at [0,[],"y",["create"],["read"]] => {"ok":3}
descriptor.is-same-object [1,2] => true
descriptor.is-same-object [1,1] => true
descriptor.is-same-object [1,3] => false
descriptor.metadata-hash [3] => {"ok":{"lower":2,"upper":1}}
descriptor.write [1,[1],0] => {"ok":1}
descriptor.read [2,10,0] => {"ok":[[1],true]}
descriptor.read [3,10,0] => {"ok":[[],true]}

# Renaming
fs.scratch = { name = "/s", blocks = 2, files = 3 }
get-directories [] => [[0,"/s"]]
descriptor.open-at [0,[],"x",["create"],["write"]] => {"ok":1}
descriptor.write [1,[1,2],0] => {"ok":2}
descriptor.rename-at [0,"y",0,"z"] => {"err":"no-entry"}
descriptor.rename-at [0,"y",0,"/"] => {"err":"no-entry"}
descriptor.rename-at [0,".",0,"/"] => {"err":"busy"}
descriptor.rename-at [0,".",0,"x"] => {"err":"busy"}
descriptor.rename-at [0,"x/",0,"y"] => {"err":"not-directory"}
descriptor.rename-at [0,"..",0,"y"] => {"err":"not-permitted"}
descriptor.rename-at [0,"x",0,"."] => {"err":"exist"}
descriptor.rename-at [0,"x",0,"/y"] => {"err":"not-permitted"}
descriptor.rename-at [0,"x",0,".."] => {"err":"not-permitted"}
descriptor.rename-at [0,"x",0,"x/y"] => {"err":"not-directory"}
descriptor.rename-at [0,"x",0,"y/"] => {"err":"no-entry"}
descriptor.rename-at [0,"x",0,"y/z"] => {"err":"no-entry"}
descriptor.rename-at [0,"x",0,""] => {"err":"no-entry"}
descriptor.rename-at [0,"x",0,"`256*y`"] => {"err":"name-too-long"}
descriptor.rename-at [0,"x",0,"y\u0000"] => {"err":"illegal-byte-sequence"}
descriptor.rename-at [0,"x",0,"x"] => {"ok":null}
descriptor.rename-at [0,"x",0,"./x"] => {"ok":null}
descriptor.rename-at [0,"x",0,"./y"] => {"ok":null}
descriptor.stat-at [0,[],"x"] => {"err":"no-entry"}
descriptor.stat-at [0,[],"y"] => {"ok":{"data-access-timestamp":null,"data-modification-timestamp":null,"link-count":1,"size":2,"status-change-timestamp":null,"type":"regular-file"}}
descriptor.write [1,[3],2] => {"ok":1}
descriptor.read [1,10,0] => {"ok":[[1,2,3],true]}
descriptor.open-at [0,[],"x",["create"],["write"]] => {"ok":2}
descriptor.metadata-hash [2] => {"ok":{"lower":2,"upper":1}}
descriptor.rename-at [0,"y",0,"x"] => {"err":"busy"}
drop descriptor 2 => done
descriptor.rename-at [0,"y",0,"x"] => {"ok":null}
descriptor.stat-at [0,[],"y"] => {"err":"no-entry"}
descriptor.stat-at [0,[],"x"] => {"ok":{"data-access-timestamp":null,"data-modification-timestamp":null,"link-count":1,"size":3,"status-change-timestamp":null,"type":"regular-file"}}
descriptor.metadata-hash-at [0,[],"x"] => {"ok":{"lower":1,"upper":1}}
descriptor.open-at [0,[],"w",["create"],["write"]] => {"ok":2}
descriptor.metadata-hash [2] => {"ok":{"lower":2,"upper":1}}
descriptor.rename-at [0,"w",0,"x"] => {"err":"busy"}

# A listing goes by the numbers of files, and sees what has changed meanwhile
fs.scratch = { name = "/s", blocks = 2, files = 4 }
get-directories [] => [[0,"/s"]]
descriptor.open-at [0,[],"z",["create"],[]] => {"ok":1}
descriptor.open-at [0,[],"a",["create"],[]] => {"ok":2}
descriptor.open-at [0,[],"m",["create"],[]] => {"ok":3}
descriptor.read-directory [0] => {"ok":4}
descriptor.read-directory [0] => {"ok":5}
directory-entry-stream.read-directory-entry [4] => {"ok":{"some":{"name":"z","type":"regular-file"}}}
drop descriptor 2 => done
descriptor.unlink-file-at [0,"a"] => {"ok":null}
directory-entry-stream.read-directory-entry [4] => {"ok":{"some":{"name":"m","type":"regular-file"}}}
directory-entry-stream.read-directory-entry [4] => {"ok":null}
descriptor.open-at [0,[],"b",["create"],[]] => {"ok":2}
descriptor.open-at [0,[],"c",["create"],[]] => {"ok":6}
directory-entry-stream.read-directory-entry [4] => {"ok":{"some":{"name":"c","type":"regular-file"}}}
directory-entry-stream.read-directory-entry [4] => {"ok":null}
descriptor.rename-at [0,"z",0,"y"] => {"ok":null}
directory-entry-stream.read-directory-entry [5] => {"ok":{"some":{"name":"y","type":"regular-file"}}}
directory-entry-stream.read-directory-entry [5] => {"ok":{"some":{"name":"b","type":"regular-file"}}}

# A stream from a file reads its bytes as they are then
fs.scratch = { name = "/s", blocks = 1, files = 1 }
get-directories [] => [[0,"/s"]]
descriptor.open-at [0,[],"x",["create"],["write"]] => {"ok":1}
descriptor.write [1,[1,2,3,4],0] => {"ok":4}
descriptor.read-via-stream [1,1] => {"ok":2}
descriptor.read-via-stream [1,9] => {"ok":3}
descriptor.read-via-stream [1,18446744073709551615] => {"ok":4}
input-stream.read [2,0] => {"ok":[]}
input-stream.read [2,2] => {"ok":[2,3]}
input-stream.read [3,2] => {"err":{"closed":null}}
input-stream.skip [3,0] => {"err":{"closed":null}}
input-stream.blocking-read [4,1] => {"err":{"closed":null}}
descriptor.write [1,[9],9] => {"ok":1}
input-stream.blocking-skip [2,1] => {"ok":1}
input-stream.skip [2,100] => {"ok":6}
input-stream.read [2,1] => {"err":{"closed":null}}
input-stream.read [3,2] => {"ok":[9]}
input-stream.read [3,2] => {"err":{"closed":null}}
descriptor.set-size [1,11] => {"ok":null}
input-stream.blocking-read [3,18446744073709551615] => {"ok":[0]}
descriptor.set-size [1,2] => {"ok":null}
input-stream.skip [2,1] => {"err":{"closed":null}}
input-stream.subscribe [2] => 5
pollable.ready [5] => true

# Streams to a file, at a place and at the end
fs.scratch = { name = "/s", blocks = 1, files = 1 }
get-directories [] => [[0,"/s"]]
descriptor.open-at [0,[],"x",["create"],["write"]] => {"ok":1}
descriptor.write-via-stream [1,2] => {"ok":2}
descriptor.append-via-stream [1] => {"ok":3}
output-stream.check-write [2] => {"ok":65536}
output-stream.write [2,[7,8]] => {"ok":null}
output-stream.blocking-write-and-flush [2,[9]] => {"ok":null}
descriptor.read [1,10,0] => {"ok":[[0,0,7,8,9],true]}
output-stream.write [3,[1]] => {"ok":null}
output-stream.write [2,[]] => {"ok":null}
output-stream.blocking-write-and-flush [3,[2]] => {"ok":null}
descriptor.read [1,10,0] => {"ok":[[0,0,7,8,9,1,2],true]}
output-stream.write [2,[6,6,6]] => {"ok":null}
descriptor.read [1,10,0] => {"ok":[[0,0,7,8,9,6,6,6],true]}
descriptor.set-size [1,3] => {"ok":null}
output-stream.write-zeroes [3,2] => {"ok":null}
output-stream.blocking-write-zeroes-and-flush [2,1] => {"ok":null}
descriptor.read [1,10,0] => {"ok":[[0,0,7,0,0,0,0,0,0],true]}
output-stream.flush [2] => {"ok":null}
output-stream.blocking-flush [3] => {"ok":null}
output-stream.subscribe [2] => 4
poll [[4]] => [0]
output-stream.check-write [3] => {"ok":65536}

# A stream to a file is closed where there is no space, and goes on at its place where there is
fs.scratch = { name = "/s", blocks = 1, files = 1 }
get-directories [] => [[0,"/s"]]
descriptor.open-at [0,[],"x",["create"],["write"]] => {"ok":1}
descriptor.write-via-stream [1,4095] => {"ok":2}
output-stream.write [2,[1,2]] => {"err":{"closed":null}}
output-stream.write-zeroes [2,2] => {"err":{"closed":null}}
descriptor.stat [1] => {"ok":{"data-access-timestamp":null,"data-modification-timestamp":null,"link-count":1,"size":0,"status-change-timestamp":null,"type":"regular-file"}}
output-stream.blocking-write-and-flush [2,[3]] => {"ok":null}
descriptor.stat [1] => {"ok":{"data-access-timestamp":null,"data-modification-timestamp":null,"link-count":1,"size":4096,"status-change-timestamp":null,"type":"regular-file"}}
output-stream.blocking-write-and-flush [2,[4]] => {"err":{"closed":null}}
output-stream.blocking-write-zeroes-and-flush [2,1] => {"err":{"closed":null}}
output-stream.write [2,[]] => {"ok":null}
output-stream.write-zeroes [2,0] => {"ok":null}
descriptor.append-via-stream [1] => {"ok":3}
output-stream.write [3,[5]] => {"err":{"closed":null}}
descriptor.set-size [1,1] => {"ok":null}
output-stream.write [3,[5]] => {"ok":null}
descriptor.read [1,10,0] => {"ok":[[0,5],true]}
descriptor.write-via-stream [1,18446744073709551615] => {"ok":4}
output-stream.write [4,[1]] => {"err":{"closed":null}}
output-stream.write [4,[]] => {"ok":null}
output-stream.write-zeroes [4,18446744073709551615] => {"err":{"closed":null}}
output-stream.write-zeroes [3,18446744073709551615] => {"err":{"closed":null}}
descriptor.stat [1] => {"ok":{"data-access-timestamp":null,"data-modification-timestamp":null,"link-count":1,"size":2,"status-change-timestamp":null,"type":"regular-file"}}

# Nothing is spliced from or to a file
stdio.stdout = "ignore"
fs.scratch = { name = "/s", blocks = 1, files = 1 }
get-directories [] => [[0,"/s"]]
descriptor.open-at [0,[],"x",["create"],["write"]] => {"ok":1}
descriptor.write [1,[1,2],0] => {"ok":2}
descriptor.read-via-stream [1,0] => {"ok":2}
descriptor.append-via-stream [1] => {"ok":3}
output-stream.splice [3,2,1] => {"err":{"closed":null}}
output-stream.blocking-splice [3,2,1] => {"err":{"closed":null}}
get-stdout [] => 4
output-stream.splice [4,2,1] => {"err":{"closed":null}}
input-stream.read [2,10] => {"ok":[1,2]}
descriptor.stat [1] => {"ok":{"data-access-timestamp":null,"data-modification-timestamp":null,"link-count":1,"size":2,"status-change-timestamp":null,"type":"regular-file"}}

# Without a scratch folder in the policy there is none
fs.tree = [{ name = "/t" }]
get-directories [] => [[0,"/t"]]"##;

#[test]
fn scratch_holds(rt: HostRuntime) -> Result<(), Fail> {
    hold(&rt, rt.alloc(), ROWS)
}
