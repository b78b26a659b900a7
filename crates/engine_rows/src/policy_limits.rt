//! The limits of a run under a policy, and files that are not read, over files that tell nothing: the policy is the file `p`, the
//! component `a`, the script `c`; a tree holds the file `b`, or a folder.

use crate::rows::{Over, hold};
use std::test::Fail;

const ROWS: &str =
    r##"# A run is over: under the empty policy, under one that writes out a file of two bytes and names one, and under one that mounts a folder
$ run a -s c -p p
p :
a x `empty`
b :
c : {"answers":[],"calls":[]}
d /
p : => 0
p : fs.tree = [{ name = "/t", files = { a = { text = "xy" }, b = { file = "b" } } }] => 0
p : fs.tree = [{ name = "/t", mount = "d" }] => 0

# Policies: one at its limit is read, and zeros are no TOML
$ run a -s c -p p
p :
a x `empty`
b :
c : {"answers":[],"calls":[]}
d /
p * 16777216 0 => 1 policy refused: not-toml&
p ! 16777217 => 5 over limit: policy-bytes 16777217&
p ! 18446744073709551615 => 5 over limit: policy-bytes 18446744073709551615&

# Components: the limit is that of a run, which is greater than that of an application to be wrapped
$ run a -s c -p p
p :
a x `empty`
b :
c : {"answers":[],"calls":[]}
d /
a * 33554433 0 => 2 application refused: malformed at 0&
a ! 201326593 => 5 over limit: component-bytes 201326593&
a ! 18446744073709551615 => 5 over limit: component-bytes 18446744073709551615&

# Scripts
$ run a -s c -p p
p :
a x `empty`
b :
c : {"answers":[],"calls":[]}
d /
c ! 67108865 => 5 over limit: script-bytes 67108865&
c ! 18446744073709551615 => 5 over limit: script-bytes 18446744073709551615&

# Files of a tree: the value is that of all files so far, at most the greatest number of 64 bits
$ run a -s c -p p
p :
a x `empty`
b :
c : {"answers":[],"calls":[]}
d /
p : fs.tree = [{ name = "/t", files = { a = { text = "xy" }, b = { file = "b" } } }]
b ! 67108863 => 5 over limit: embedded-bytes 67108865&
b ! 18446744073709551615 => 5 over limit: embedded-bytes 18446744073709551615&

# Files are not read
$ run a -s c -p p
p :
a x `empty`
b :
c : {"answers":[],"calls":[]}
d /
p ! missing => 3 file fault: p&
p ! failed => 3 file fault: p&
p :
a ! missing => 3 file fault: a&
a ! failed => 3 file fault: a&
a x `empty`
c ! missing => 3 file fault: c&
c ! failed => 3 file fault: c&
c : {"answers":[],"calls":[]}
p : fs.tree = [{ name = "/t", files = { a = { text = "xy" }, b = { file = "b" } } }]
b ! missing => 3 file fault: b&
b ! failed => 3 file fault: b&

# Folders are not listed
$ run a -s c -p p
p :
a x `empty`
b :
c : {"answers":[],"calls":[]}
d /
p : fs.tree = [{ name = "/t", mount = "d" }]
d ! missing => 3 file fault: d&
d ! failed => 3 file fault: d&

# Where a file or a folder takes more memory than there is, nothing is put
$ run a -s c -p p
p :
a x `empty`
b :
c : {"answers":[],"calls":[]}
d /
p ! memory => 6
p :
a ! memory => 6
a x `empty`
c ! memory => 6
c : {"answers":[],"calls":[]}
p : fs.tree = [{ name = "/t", files = { a = { text = "xy" }, b = { file = "b" } } }]
b ! memory => 6
p : fs.tree = [{ name = "/t", mount = "d" }]
d ! memory => 6"##;

const EMBEDDED: &str = r##"# Files of a tree that are as long as they may be, with the two bytes
$ run a -s c -p p
p :
a x `empty`
b :
c : {"answers":[],"calls":[]}
d /
p : fs.tree = [{ name = "/t", files = { a = { text = "xy" }, b = { file = "b" } } }]
b * 67108862 0 => 0"##;

const NODES: &str = r##"# 1,023 folders of 64 names, with the root, are 65,473 nodes
$ run a -s c -p p
p :
a x `empty`
b :
c : {"answers":[],"calls":[]}
d /
p : fs.tree = [{ name = "/t", folders = [`1023*"#/a/a/a/a/a/a/a/a/a/a/a/a/a/a/a/a/a/a/a/a/a/a/a/a/a/a/a/a/a/a/a/a/a/a/a/a/a/a/a/a/a/a/a/a/a/a/a/a/a/a/a/a/a/a/a/a/a/a/a/a/a/a/a",`"1023/a/a/a/a/a/a/a/a/a/a/a/a/a/a/a/a/a/a/a/a/a/a/a/a/a/a/a/a/a/a/a/a/a/a/a/a/a/a/a/a/a/a/a/a/a/a/a/a/a/a/a/a/a/a/a/a/a/a/a/a/a/a",] }] => 0
p : fs.tree = [{ name = "/t", folders = [`1023*"#/a/a/a/a/a/a/a/a/a/a/a/a/a/a/a/a/a/a/a/a/a/a/a/a/a/a/a/a/a/a/a/a/a/a/a/a/a/a/a/a/a/a/a/a/a/a/a/a/a/a/a/a/a/a/a/a/a/a/a/a/a/a/a",`"1023/a/a/a/a/a/a/a/a/a/a/a/a/a/a/a/a/a/a/a/a/a/a/a/a/a/a/a/a/a/a/a/a/a/a/a/a/a/a/a/a/a/a/a/a/a/a/a/a/a/a/a/a/a/a/a/a/a/a/a/a/a/a/a",] }] => 5 over limit: tree-nodes 65537&"##;

#[test]
fn limits_are_kept(rt: HostRuntime) -> Result<(), Fail> {
    hold(&rt, rt.alloc(), Over::Untold, ROWS)
}

#[test]
fn embedded_files_are_as_long_as_they_may_be(rt: HostRuntime) -> Result<(), Fail> {
    hold(&rt, rt.alloc(), Over::Untold, EMBEDDED)
}

#[test]
fn trees_have_too_many_nodes(rt: HostRuntime) -> Result<(), Fail> {
    hold(&rt, rt.alloc(), Over::Untold, NODES)
}
