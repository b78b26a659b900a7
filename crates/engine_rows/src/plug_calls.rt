//! Calls of `plug`: what is written, the words, each call that fails, how deep and how large both may be.

use crate::rows::{Over, hold};
use std::test::Fail;

const CALLS: &str =
    r##"# One component of two: both stand in it unchanged, with what the second takes of the first between them; after them come the second's
# instance and its export. OUT holds that as `virt` holds an application
a x `gives7`
b x `asks7`
p :
out 1000
$ plug a b -p p -o o => 0 done: 358 bytes in, 392 bytes out, 0 functions imported& o=`empty`04e602`empty`046f`gives7`050401000000061601050000116c6f63616c3a736576656e2f736576656e04a101`asks7`051801000101116c6f63616c3a736576656e2f736576656e050106060101000201660b070100016601000005040100000006060101000001660b0701000166010000

# The same under policies that say more: nothing is asked of the machine
show none
a x `gives7`
b x `asks7`
out 1000
$ plug a b -p p -o o
p : deny = "error" => 0 done: 358 bytes in, 392 bytes out, 0 functions imported&
p : clocks.monotonic = "allow"&random = "allow" => 0 done: 358 bytes in, 392 bytes out, 0 functions imported&
p : slots = 1 => 0 done: 358 bytes in, 392 bytes out, 0 functions imported&
p : fs.tree = [{ name = "/t", files = { f = { text = "" } } }] => 0 done: 358 bytes in, 392 bytes out, 0 functions imported&

# It runs: `f` answers what `get` of the first does
show none
out 1000
a x `gives7`
b x `asks7`
p :
before plug a b -p p -o o
$ run o -s s
s : `once` => 0 ["return",7]&
s : `twice` => 0 ["return",7]&["return",7]&
s : {"answers":[],"calls":[["local:seven/seven#get",[]]]} => 7 script refused: calls[0]&

# A second that exports nothing
a x `gives7`
b x `seven_alone`
p :
out 1000
$ plug a b -p p -o o => 0 done: 229 bytes in, 246 bytes out, 0 functions imported& o=`empty`04e501`empty`046f`gives7`050401000000061601050000116c6f63616c3a736576656e2f736576656e0432`seven_alone`051801000101116c6f63616c3a736576656e2f736576656e0501050401000000

# Words in any order and form
show none
a x `gives7`
b x `asks7`
p :
out 1000
$ plug -o o a -p p b => 0 done: 358 bytes in, 392 bytes out, 0 functions imported&
$ plug --policy p --out o a b => 0 done: 358 bytes in, 392 bytes out, 0 functions imported&
$ plug a --out=o --policy=p b => 0 done: 358 bytes in, 392 bytes out, 0 functions imported&
$ plug -pp a -o=o b => 0 done: 358 bytes in, 392 bytes out, 0 functions imported&
$ plug b a -p p -o o => 8 plug refused: first unlisted local:seven/seven&

# Words that are none
show none
a x `gives7`
b x `asks7`
p :
out 1000
$ plug => 64 `usage`&
$ plug a -p p -o o => 64 `usage`&
$ plug a b c -p p -o o => 64 `usage`&
$ plug a b -p p => 64 `usage`&
$ plug a b -o o => 64 `usage`&
$ plug a b -p p -o o -p p => 64 `usage`&
$ plug a b -p p -o o -o o => 64 `usage`&
$ plug a b -p p -o o --steps 5 => 64 `usage`&
$ plug a b -s s -p p -o o => 64 `usage`&
$ plug --help => 64 `usage`&
$ Plug a b -p p -o o => 64 `usage`&

# The call that fails is reported
a x `gives7`
b x `asks7`
p :
out 1000
$ plug a b -p p -o o
fails 0 => 3 file fault: p&
fails 1 => 3 file fault: a&
fails 2 => 3 file fault: b&
fails 3 => 3 file fault: o&
fails 4 => 3 file fault: o& o=
fails 5 => 3 file fault: o& o=`empty`04e602
fails 6 => 3 file fault: o& o=`empty`04e602`plugged7`
fails 7 => 0 done: 358 bytes in, 392 bytes out, 0 functions imported& o=`plugged7_out`

# The output stays whole where the line is not put, and the other files are as they were in every case
a x `gives7`
b x `asks7`
p :
out 1000
$ plug a b -p p -o o
puts 0 => 4 o=`plugged7_out`
show a b p
puts 0 => 4 a=`gives7` b=`asks7` p=
puts 9
fails 5 => 3 file fault: o& a=`gives7` b=`asks7` p=

# The calls of a folder that is mounted come between those of the second and of OUT
show none
a x `gives7`
b x `asks7`
p : fs.tree = [{ name = "/t", mount = "d" }]
d / s/ y
d/s / x
d/s/x : x
d/y :
out 1000
$ plug a b -p p -o o
fails 2 => 3 file fault: b&
fails 3 => 3 file fault: d&
fails 4 => 3 file fault: d/s&
fails 5 => 3 file fault: d/s/x&
fails 6 => 3 file fault: d/y&
fails 7 => 3 file fault: o&
fails 11 => 0 done: 358 bytes in, 392 bytes out, 0 functions imported&

# One file under both names; OUT under the name of the first
a x `clock_plus`
p : clocks.monotonic = 5
out 20000
show none
before plug a a -p p -o o
$ run o -s s
s : {"answers":[],"calls":[["wasi:clocks/monotonic-clock@0.2.0#now",[]]]} => 0 ["return",7]&

# Two components of a hundred in one another, and with one more
show none
out 4000
p :
$ plug a b -p p -o o
a x `nested``gives7_sections`
b x `nested``asks7_sections` => 0 done: 2513 bytes in, 2547 bytes out, 0 functions imported&
b x `empty`04bd08`nested``asks7_sections` => 5 over limit: nesting 101&
b x `nested``asks7_sections`
a x `empty`04bd08`nested``gives7_sections` => 5 over limit: nesting 101&

# What is made of two that are 98 deep can be run, and no deeper one
show none
out 4000
p :
s : `once`
before plug a b -p p -o o
$ run o -s s
a x `empty`049c08`nested_97``gives7_sections`
b x `empty`049c08`nested_97``asks7_sections` => 0 ["return",7]&
b x `empty`04a708`empty`049c08`nested_97``asks7_sections` => 5 over limit: nesting 101&
b x `asks7`
a x `empty`04a708`empty`049c08`nested_97``gives7_sections` => 5 over limit: nesting 101&"##;

const LIMITS: &str =
    r##"# A first and a second at their limit are read; no byte 255 begins a component
p :
show none
$ plug a b -p p -o o
b :
a * 33554432 255 => 8 plug refused: first malformed at 0&
a x `gives7`
b * 33554432 255 => 8 plug refused: second malformed at 0&"##;

const LARGE: &str =
    r##"# Two that are as long as they may be are made one that is longer, and so is OUT
p :
show none
out 67200000
a x `gives7`008cffff0f00`524286*00000000000000000000000000000000000000000000000000000000000000000000000000000000000000000000000000000000000000000000000000000000``11*00`
b x `asks7`00dafeff0f00`524285*00000000000000000000000000000000000000000000000000000000000000000000000000000000000000000000000000000000000000000000000000000000``25*00`
$ plug a b -p p -o o => 0 done: 67108955 bytes in, 67108991 bytes out, 0 functions imported&"##;

#[test]
fn components_are_plugged(rt: HostRuntime) -> Result<(), Fail> {
    hold(&rt, rt.alloc(), Over::Memory, CALLS)
}

#[test]
fn both_at_their_limits(rt: HostRuntime) -> Result<(), Fail> {
    hold(&rt, rt.alloc(), Over::Memory, LIMITS)?;
    hold(&rt, rt.alloc(), Over::Memory, LARGE)
}
