//! The exit statuses of `virt`, each with the line that is put, over files that tell nothing.

use crate::rows::{Over, hold};
use std::test::Fail;

const ROWS: &str = r##"# A call is done
$ virt a -p p -o o
p :
a x `empty`
b :
c :
d /
writes 100 => 0 done: 8 bytes in, 24 bytes out, 0 functions imported&

# A policy is refused; one at its limit is read, and zeros are no TOML
$ virt a -p p -o o
p :
a x `empty`
b :
c :
d /
writes 100
p : slots = 0 => 1 policy refused: bad-value slots&
p * 16777216 0 => 1 policy refused: not-toml&

# An application is refused; one at its limit is read, and zeros are no component
$ virt a -p p -o o
p :
a x `empty`
b :
c :
d /
writes 100
a : => 2 application refused: malformed at 0&
a * 33554432 0 => 2 application refused: malformed at 0&

# A file is not read: the policy, the application, and the files of a tree
$ virt a -p p -o o
p :
a x `empty`
b :
c :
d /
writes 100
p ! missing => 3 file fault: p&
p ! failed => 3 file fault: p&
p :
a ! missing => 3 file fault: a&
a ! failed => 3 file fault: a&
a x `empty`
p : fs.tree = [{ name = "/t", files = { b = { file = "b" }, c = { file = "c" } } }]
b ! missing => 3 file fault: b&
b ! failed => 3 file fault: b&
b :
c ! missing => 3 file fault: c&
c ! failed => 3 file fault: c&

# A folder is not listed
$ virt a -p p -o o
p :
a x `empty`
b :
c :
d /
writes 100
p : fs.tree = [{ name = "/t", mount = "d" }] => 0 done: 8 bytes in, 24 bytes out, 0 functions imported&
d ! missing => 3 file fault: d&
d ! failed => 3 file fault: d&

# OUT is made, and then written in three pieces
$ virt a -p p -o o
p :
a x `empty`
b :
c :
d /
writes 100
writes 0 => 3 file fault: o&
writes 1 => 3 file fault: o&
writes 2 => 3 file fault: o&
writes 3 => 3 file fault: o&
writes 4 => 0 done: 8 bytes in, 24 bytes out, 0 functions imported&

# The line of words that are no command is not put
$ virt a -p p -o o
p :
a x `empty`
b :
c :
d /
writes 100
puts 0
$ => 4

# Words are no command
$ virt a -p p -o o
p :
a x `empty`
b :
c :
d /
writes 100
$ => 64 `usage`&

# A policy and an application are too long
$ virt a -p p -o o
p :
a x `empty`
b :
c :
d /
writes 100
p ! 16777217 => 5 over limit: policy-bytes 16777217&
p ! 18446744073709551615 => 5 over limit: policy-bytes 18446744073709551615&
p :
a ! 33554433 => 5 over limit: application-bytes 33554433&
a ! 18446744073709551615 => 5 over limit: application-bytes 18446744073709551615&

# Files of a tree are too long: the value is that of all files so far, at most the greatest number of 64 bits
$ virt a -p p -o o
p :
a x `empty`
b :
c :
d /
writes 100
p : fs.tree = [{ name = "/t", files = { b = { file = "b" }, c = { file = "c" } } }]
b ! 67108865 => 5 over limit: embedded-bytes 67108865&
b ! 18446744073709551615 => 5 over limit: embedded-bytes 18446744073709551615&
b : xy
c ! 67108863 => 5 over limit: embedded-bytes 67108865&
c ! 18446744073709551614 => 5 over limit: embedded-bytes 18446744073709551615&

# Where a file or a folder takes more memory than there is, nothing is put
$ virt a -p p -o o
p :
a x `empty`
b :
c :
d /
writes 100
p ! memory => 6
p :
a ! memory => 6
a x `empty`
p : fs.tree = [{ name = "/t", files = { b = { file = "b" }, c = { file = "c" } } }]
c ! memory => 6
p : fs.tree = [{ name = "/t", mount = "d" }]
d ! memory => 6"##;

#[test]
fn statuses_have_their_lines(rt: HostRuntime) -> Result<(), Fail> {
    hold(&rt, rt.alloc(), Over::Untold, ROWS)
}
