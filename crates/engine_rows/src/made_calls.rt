//! Calls of `gen`: what is written and put, each call that fails, and the words.

use crate::rows::{Over, hold};
use std::test::Fail;

const GEN: &str = r##"# The counts and the sum
show none
out 2097152
$ gen 1 o => 0 gen 1: 1 host calls, 1 returns, sum 12&
$ gen 2 o => 0 gen 2: 3 host calls, 2 returns, sum 3000040&
$ gen 12 o => 0 gen 12: 24 host calls, 12 returns, sum 276001056&
$ gen 1000 o => 0 gen 1000: 1999 host calls, 1000 returns, sum 1997007009996&

# What is written runs over the generator's script
show none
out 2097152
room 4000
s : {"answers":[{"value":7},{"value":1000010},{"value":2000013},{"value":3000016},{"value":4000019},{"value":5000022}],"calls":[["f0",[]],["f1",[]],["f2",[]]]}
$ gen 3 o => 0 gen 3: 6 host calls, 3 returns, sum 15000102&
before gen 3 o
$ run o -s s => 0 `drawn`["return",12]&`drawn``drawn`["return",3000028]&`drawn``drawn``drawn`["return",12000062]&

# The words
$ gen 0 o => 64 `usage`&
$ gen 1001 o => 64 `usage`&
$ gen 01 o => 64 `usage`&
$ gen +1 o => 64 `usage`&
$ gen 1.0 o => 64 `usage`&
$ gen 3 => 64 `usage`&
$ gen 3 o p => 64 `usage`&

# Each call that fails: the file is as it was, or has a part of the output; the line that fails leaves it whole
show none
out 2097152
$ gen 1 o
fails 0 => 3 file fault: o&
fails 1 => 3 file fault: o&
fails 2 => 3 file fault: o&
fails 3 => 3 file fault: o&
fails 4 => 0 gen 1: 1 host calls, 1 returns, sum 12&
puts 0 => 4"##;

#[test]
fn components_are_generated(rt: HostRuntime) -> Result<(), Fail> {
    hold(&rt, rt.alloc(), Over::Memory, GEN)
}
