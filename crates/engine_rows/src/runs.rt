//! Which words give a run, why nothing is run, in the order of reading, and how its lines are put.

use crate::rows::{Over, hold};
use std::test::Fail;

const ROWS: &str = r##"# Words of a run
c x `seven`
s : `once`
$ run c -s s => 0 ["return",7]&
$ run -s s c => 0 ["return",7]&
$ run -ss c => 0 ["return",7]&
$ run c --script s => 0 ["return",7]&
$ run c --script=s => 0 ["return",7]&
$ run c -s s --steps 3 => 0 ["return",7]&
$ run --steps=10000000000 c -s s => 0 ["return",7]&

# Other words
c x `seven`
s : `once`
$ run => 64 `usage`&
$ run c => 64 `usage`&
$ run c -s => 64 `usage`&
$ run -s s => 64 `usage`&
$ run c c -s s => 64 `usage`&
$ run c -s s -s s => 64 `usage`&
$ run c -s s --help => 64 `usage`&
$ run c -s s -o o => 64 `usage`&
$ run c s => 64 `usage`&

# Steps are a plain decimal number of 1 to 10,000,000,000
c x `seven`
s : `once`
$ run c -s s --steps => 64 `usage`&
$ run c -s s --steps 007 => 64 `usage`&
$ run c -s s --steps 0 => 64 `usage`&
$ run c -s s --steps 10000000001 => 64 `usage`&
$ run c -s s --steps 99999999999999999999 => 64 `usage`&
$ run c -s s --steps -1 => 64 `usage`&
$ run c -s s --steps +1 => 64 `usage`&
$ run c -s s --steps 1_000 => 64 `usage`&
$ run c -s s --steps 1e3 => 64 `usage`&
$ run c -s s --steps 3 --steps 3 => 64 `usage`&

# A run has one policy at most, beside its component and its script
c x `seven`
s : `once`
$ run c -s s -p => 64 `usage`&
$ run c -s s -p p -p p => 64 `usage`&
$ run c -s s -p p --policy p => 64 `usage`&
$ run c -p p => 64 `usage`&
$ run -s s -p p => 64 `usage`&

# A component that is refused, with a script that would be too
s : {
$ run c -s s
c x `empty`01220061736d => 2 application refused: malformed at 8&
c x `empty`01230061736d010000000105016000017f03020100070501016600000a070105004107920b020401000000 => 2 application refused: unsupported at 43 byte 92&
c x `empty`01220061736d010000000105016000017f03020100070501016600000a0601040042070b => 2 application refused: invalid rule 1 section 0&
c x `empty`070501400000790a06010001660100 => 2 application refused: unlisted f&
c x `empty`0704013f7f000b0701000172030000 => 2 application refused: handle-export r&

# Scripts
c x `seven`
$ run c -s s
s : { => 7 script refused: &
s : {"answers":[],"calls":[],"x":1,"b":2} => 7 script refused: b&
s : {"answers":[1],"calls":[["g",[]]]} => 7 script refused: answers[0]&
s : {"answers":[],"calls":[["f",[1]]]} => 7 script refused: calls[0]&

# A component's file comes before what it holds, and that before the script's file
c x `seven`
s : `once`
$ run x -s y => 3 file fault: x&
$ run c -s y => 3 file fault: y&
$ run s -s y => 2 application refused: malformed at 0&

# Each line is one put, and the first that fails is the last
c x `seven`
s : `twice`
$ run c -s s
puts 0 => 4
puts 1 => 4 ["return",7]&
puts 2 => 0 ["return",7]&["return",7]&
puts 9
room 13 => 4 ["return",7]&
room 15 => 4 ["return",7]&[""##;

#[test]
fn runs_end(rt: HostRuntime) -> Result<(), Fail> {
    hold(&rt, rt.alloc(), Over::Memory, ROWS)
}
