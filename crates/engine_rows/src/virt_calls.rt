//! Calls of `virt`: what is written, each call that fails, and the words.

use crate::rows::{Over, hold};
use std::test::Fail;

const CALLS: &str = r##"# An output: its application stands in a section, and its instance behind it
$ virt a -p p -o o
p :
a x `seven` => 0 done: 83 bytes in, 116 bytes out, 0 functions imported& o=`seven_out`
a x `empty` => 0 done: 8 bytes in, 24 bytes out, 0 functions imported& o=`empty`0408`empty``no_tail`

# Of every cut, done are those at the ends of sections, and the others malformed at the last such end
$ virt a -p p -o o
p :
a cut 0 `seven` => 2 application refused: malformed at 0&
a cut 1 `seven` => 2 application refused: malformed at 0&
a cut 2 `seven` => 2 application refused: malformed at 0&
a cut 3 `seven` => 2 application refused: malformed at 0&
a cut 4 `seven` => 2 application refused: malformed at 0&
a cut 5 `seven` => 2 application refused: malformed at 0&
a cut 6 `seven` => 2 application refused: malformed at 0&
a cut 7 `seven` => 2 application refused: malformed at 0&
a cut 8 `seven` => 0 done: 8 bytes in, 24 bytes out, 0 functions imported& o=0061736d0d00010004080061736d0d000100`no_tail`
a cut 9 `seven` => 2 application refused: malformed at 8&
a cut 10 `seven` => 2 application refused: malformed at 8&
a cut 11 `seven` => 2 application refused: malformed at 8&
a cut 12 `seven` => 2 application refused: malformed at 8&
a cut 13 `seven` => 2 application refused: malformed at 8&
a cut 14 `seven` => 2 application refused: malformed at 8&
a cut 15 `seven` => 2 application refused: malformed at 8&
a cut 16 `seven` => 2 application refused: malformed at 8&
a cut 17 `seven` => 2 application refused: malformed at 8&
a cut 18 `seven` => 2 application refused: malformed at 8&
a cut 19 `seven` => 2 application refused: malformed at 8&
a cut 20 `seven` => 2 application refused: malformed at 8&
a cut 21 `seven` => 2 application refused: malformed at 8&
a cut 22 `seven` => 2 application refused: malformed at 8&
a cut 23 `seven` => 2 application refused: malformed at 8&
a cut 24 `seven` => 2 application refused: malformed at 8&
a cut 25 `seven` => 2 application refused: malformed at 8&
a cut 26 `seven` => 2 application refused: malformed at 8&
a cut 27 `seven` => 2 application refused: malformed at 8&
a cut 28 `seven` => 2 application refused: malformed at 8&
a cut 29 `seven` => 2 application refused: malformed at 8&
a cut 30 `seven` => 2 application refused: malformed at 8&
a cut 31 `seven` => 2 application refused: malformed at 8&
a cut 32 `seven` => 2 application refused: malformed at 8&
a cut 33 `seven` => 2 application refused: malformed at 8&
a cut 34 `seven` => 2 application refused: malformed at 8&
a cut 35 `seven` => 2 application refused: malformed at 8&
a cut 36 `seven` => 2 application refused: malformed at 8&
a cut 37 `seven` => 2 application refused: malformed at 8&
a cut 38 `seven` => 2 application refused: malformed at 8&
a cut 39 `seven` => 2 application refused: malformed at 8&
a cut 40 `seven` => 2 application refused: malformed at 8&
a cut 41 `seven` => 2 application refused: malformed at 8&
a cut 42 `seven` => 2 application refused: malformed at 8&
a cut 43 `seven` => 2 application refused: malformed at 8&
a cut 44 `seven` => 0 done: 44 bytes in, 60 bytes out, 0 functions imported& o=0061736d0d000100042c0061736d0d00010001220061736d010000000105016000017f03020100070501016600000a0601040041070b`no_tail`
a cut 45 `seven` => 2 application refused: malformed at 44&
a cut 46 `seven` => 2 application refused: malformed at 44&
a cut 47 `seven` => 2 application refused: malformed at 44&
a cut 48 `seven` => 2 application refused: malformed at 44&
a cut 49 `seven` => 2 application refused: malformed at 44&
a cut 50 `seven` => 0 done: 50 bytes in, 66 bytes out, 0 functions imported& o=0061736d0d00010004320061736d0d00010001220061736d010000000105016000017f03020100070501016600000a0601040041070b020401000000`no_tail`
a cut 51 `seven` => 2 application refused: malformed at 50&
a cut 52 `seven` => 2 application refused: malformed at 50&
a cut 53 `seven` => 2 application refused: malformed at 50&
a cut 54 `seven` => 2 application refused: malformed at 50&
a cut 55 `seven` => 2 application refused: malformed at 50&
a cut 56 `seven` => 2 application refused: malformed at 50&
a cut 57 `seven` => 2 application refused: malformed at 50&
a cut 58 `seven` => 2 application refused: malformed at 50&
a cut 59 `seven` => 0 done: 59 bytes in, 75 bytes out, 0 functions imported& o=0061736d0d000100043b0061736d0d00010001220061736d010000000105016000017f03020100070501016600000a0601040041070b020401000000060701000001000166`no_tail`
a cut 60 `seven` => 2 application refused: malformed at 59&
a cut 61 `seven` => 2 application refused: malformed at 59&
a cut 62 `seven` => 2 application refused: malformed at 59&
a cut 63 `seven` => 2 application refused: malformed at 59&
a cut 64 `seven` => 2 application refused: malformed at 59&
a cut 65 `seven` => 2 application refused: malformed at 59&
a cut 66 `seven` => 0 done: 66 bytes in, 82 bytes out, 0 functions imported& o=0061736d0d00010004420061736d0d00010001220061736d010000000105016000017f03020100070501016600000a0601040041070b02040100000006070100000100016607050140000079`no_tail`
a cut 67 `seven` => 2 application refused: malformed at 66&
a cut 68 `seven` => 2 application refused: malformed at 66&
a cut 69 `seven` => 2 application refused: malformed at 66&
a cut 70 `seven` => 2 application refused: malformed at 66&
a cut 71 `seven` => 2 application refused: malformed at 66&
a cut 72 `seven` => 2 application refused: malformed at 66&
a cut 73 `seven` => 2 application refused: malformed at 66&
a cut 74 `seven` => 0 done: 74 bytes in, 90 bytes out, 0 functions imported& o=0061736d0d000100044a0061736d0d00010001220061736d010000000105016000017f03020100070501016600000a0601040041070b020401000000060701000001000166070501400000790806010000000000`no_tail`
a cut 75 `seven` => 2 application refused: malformed at 74&
a cut 76 `seven` => 2 application refused: malformed at 74&
a cut 77 `seven` => 2 application refused: malformed at 74&
a cut 78 `seven` => 2 application refused: malformed at 74&
a cut 79 `seven` => 2 application refused: malformed at 74&
a cut 80 `seven` => 2 application refused: malformed at 74&
a cut 81 `seven` => 2 application refused: malformed at 74&
a cut 82 `seven` => 2 application refused: malformed at 74&

# Spellings of the operand in one byte: 7, 0, 63, -64 and -1 (WebAssembly Core 2.0, section 5.2.2)
$ virt a -p p -o o
p :
a x `front`4107`back` => 0 done: 83 bytes in, 116 bytes out, 0 functions imported& o=`empty`0453`front`4107`back``tail`
a x `front`4100`back` => 0 done: 83 bytes in, 116 bytes out, 0 functions imported& o=`empty`0453`front`4100`back``tail`
a x `front`413f`back` => 0 done: 83 bytes in, 116 bytes out, 0 functions imported& o=`empty`0453`front`413f`back``tail`
a x `front`4140`back` => 0 done: 83 bytes in, 116 bytes out, 0 functions imported& o=`empty`0453`front`4140`back``tail`
a x `front`417f`back` => 0 done: 83 bytes in, 116 bytes out, 0 functions imported& o=`empty`0453`front`417f`back``tail`

# A size of five bytes adds four
$ virt a -p p -o o
p :
a x 0061736d0d00010001a2808080000061736d010000000105016000017f03020100070501016600000a0601040041070b0204010000000607010000010001660705014000007908060100000000000b0701000166010000 => 0 done: 87 bytes in, 120 bytes out, 0 functions imported& o=`empty`04570061736d0d00010001a2808080000061736d010000000105016000017f03020100070501016600000a0601040041070b0204010000000607010000010001660705014000007908060100000000000b0701000166010000`tail`

# A byte behind the sections
$ virt a -p p -o o
p :
a x `seven`00 => 2 application refused: malformed at 83&

# Exports of each sort: the function `f`, an instance `i` with a function `g`, a type `t` and the function once more as `h`; behind the
# application its instance, four aliases and four exports (Component Model, Binary.md). wasmparser 0.245 says that the output is valid
$ virt a -p p -o o
p :
a x 0061736d0d00010001220061736d010000000105016000017f03020100070501016600000a0601040041070b020401000000060701000001000166070501400000790806010000000000050801010100016701000702017d0b1904000166010000000169050000000174030100000168010000 => 0 done: 115 bytes in, 181 bytes out, 0 functions imported& o=`empty`04730061736d0d00010001220061736d010000000105016000017f03020100070501016600000a0601040041070b020401000000060701000001000166070501400000790806010000000000050801010100016701000702017d0b190400016601000000016905000000017403010000016801000005040100000006150401000001660500000169030000017401000001680b1904000166010000000169050100000174030000000168010100

# A hundred components stand in one another, and no more
$ virt a -p p -o o
p :
out 2000
a x `nested` => 0 done: 1085 bytes in, 1102 bytes out, 0 functions imported& o=0061736d0d00010004bd08`nested``no_tail`
a x 0061736d0d00010004bd08`nested` => 5 over limit: nesting 101&

# The call that fails is reported
a x `seven`
$ virt a -p p -o o
p :
fails 0 => 3 file fault: p&
fails 1 => 3 file fault: a&
fails 2 => 3 file fault: o&
fails 3 => 3 file fault: o& o=
fails 4 => 3 file fault: o& o=`empty`0453
fails 5 => 3 file fault: o& o=`empty`0453`seven`

# An application with imports: its output is put in three pieces, too, and other files stay as they are
a x `clock`
p : clocks.monotonic = "allow"
out 8192
show p a
$ virt a -p p -o o
fails 0 => 3 file fault: p& `kept`
fails 1 => 3 file fault: a& `kept`
fails 2 => 3 file fault: o& `kept`
fails 3 => 3 file fault: o& `kept`
fails 4 => 3 file fault: o& `kept`
fails 5 => 3 file fault: o& `kept`
show o
fails 2 => 3 file fault: o&
fails 3 => 3 file fault: o& o=
show p a
fails 6
puts 0 => 4 `kept`

# The calls of a folder that is mounted come between those of the application and of OUT
a x `seven`
p : fs.tree = [{ name = "/t", mount = "d" }]
d / s/ y
d/s / x
d/s/x : x
d/y :
$ virt a -p p -o o
fails 0 => 3 file fault: p&
fails 1 => 3 file fault: a&
fails 2 => 3 file fault: d&
fails 3 => 3 file fault: d/s&
fails 4 => 3 file fault: d/s/x&
fails 5 => 3 file fault: d/y&
fails 6 => 3 file fault: o&
fails 7 => 3 file fault: o& o=
fails 8 => 3 file fault: o& o=`empty`0453
fails 9 => 3 file fault: o& o=`empty`0453`seven`
fails 10 => 0 done: 83 bytes in, 116 bytes out, 0 functions imported& o=`seven_out`

# What was written before a write without room stays, and other files are as they were
a x `seven`
p : slots = 3
out 50
show a p o
$ virt a -p p -o o => 3 file fault: o& a=`seven` p=736c6f7473203d2033 o=0061736d0d00010004530061736d0d00010001220061736d010000000105016000017f03020100070501016600000a060104

# The output stays whole where the line is not put
a x `seven`
$ virt a -p p -o o
p :
puts 0 => 4 o=`seven_out`

# Refusals come in their order: the words, the policy, the application
a x `seven`
p :
$ => 64 `usage`&
$ virt a -p p => 64 `usage`&
$ pack => 64 `usage`&
$ virt a -p p -p p -o o => 64 `usage`&
$ virt a b -p p -o o => 64 `usage`&
$ gen 1001 o => 64 `usage`&
$ plug a -p p -o o => 64 `usage`&
$ virt a -p q -o o => 3 file fault: q&
$ virt b -p p -o o => 3 file fault: b&
p : x => 1 policy refused: not-toml&

# Words in any order and form
a x `seven`
p :
$ virt -o o a -p p => 0 done: 83 bytes in, 116 bytes out, 0 functions imported& o=`seven_out`
$ virt --policy p --out o a => 0 done: 83 bytes in, 116 bytes out, 0 functions imported& o=`seven_out`
$ virt --out=o a --policy=p => 0 done: 83 bytes in, 116 bytes out, 0 functions imported& o=`seven_out`
$ virt -pp a -o=o => 0 done: 83 bytes in, 116 bytes out, 0 functions imported& o=`seven_out`"##;

const LIMITS: &str =
    r##"# Files at their limits are read, and those above are refused: no byte 255 begins a policy or a component
$ virt a -p p -o o
a :
p * 16777216 255 => 1 policy refused: not-toml&
p * 16777217 255 => 5 over limit: policy-bytes 16777217&
p :
a * 33554432 255 => 2 application refused: malformed at 0&
a * 33554433 255 => 5 over limit: application-bytes 33554433&"##;

#[test]
fn calls_end(rt: HostRuntime) -> Result<(), Fail> {
    hold(&rt, rt.alloc(), Over::Memory, CALLS)
}

#[test]
fn files_at_their_limits(rt: HostRuntime) -> Result<(), Fail> {
    hold(&rt, rt.alloc(), Over::Memory, LIMITS)
}
