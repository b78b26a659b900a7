//! What an inspection answers and puts, over files in memory.

use crate::inspecting::hold;
use std::test::Fail;

/// The words, whatever the files.
const WORDS: &str =
    r##"# no words, too many, an option without its value, twice, and none that is known
$ => 64 `usage`&
$ -p p => 64 `usage`&
$ a b => 64 `usage`&
$ a -p => 64 `usage`&
$ a -p p --policy p => 64 `usage`&
$ a -o o => 64 `usage`&
$ a --help => 64 `usage`&

# each form of the option, before and after
a x `clock`
p : clocks.monotonic = 1
$ a => 0 `now` clocks&functions: 1 imported&
$ a -p p => 0 `now` clocks value&functions: 1 imported, 0 asked, 0 ruled, 0 refused, 1 value, 0 own&
$ -p p a => 0 `now` clocks value&functions: 1 imported, 0 asked, 0 ruled, 0 refused, 1 value, 0 own&
$ a -pp => 0 `now` clocks value&functions: 1 imported, 0 asked, 0 ruled, 0 refused, 1 value, 0 own&
$ --policy=p a => 0 `now` clocks value&functions: 1 imported, 0 asked, 0 ruled, 0 refused, 1 value, 0 own&"##;

/// Small components under small policies.
const FATES: &str = r##"# a component that imports nothing
a x `empty`
p : random = "allow"
$ a => 0 functions: 0 imported&
$ a -p p => 0 functions: 0 imported, 0 asked, 0 ruled, 0 refused, 0 value, 0 own&

# a clock that is denied, stands still, or is the machine's; another key changes nothing
a x `clock`
$ a -p p
p : => 0 `now` clocks refused&functions: 1 imported, 0 asked, 0 ruled, 1 refused, 0 value, 0 own&
p : clocks.wall = "allow" => 0 `now` clocks refused&functions: 1 imported, 0 asked, 0 ruled, 1 refused, 0 value, 0 own&
p : clocks.monotonic = 7 => 0 `now` clocks value&functions: 1 imported, 0 asked, 0 ruled, 0 refused, 1 value, 0 own&
p : clocks.monotonic = "allow" => 0 `now` clocks asked&output wasi:clocks/monotonic-clock@0.2.0#instant&output wasi:clocks/monotonic-clock@0.2.0#now&functions: 1 imported, 1 asked, 0 ruled, 0 refused, 0 value, 0 own&

# under another version, which the output keeps
a x `later`
$ a -p p
p : clocks.monotonic = "allow" => 0 import wasi:clocks/monotonic-clock@0.2.7#now clocks asked&output wasi:clocks/monotonic-clock@0.2.7#instant&output wasi:clocks/monotonic-clock@0.2.7#now&functions: 1 imported, 1 asked, 0 ruled, 0 refused, 0 value, 0 own&

# a pollable is the machine's where its clock is, and else the policy's own
a x `waits`
$ a -p p
p : clocks.monotonic = 0 => 0 import wasi:io/poll@0.2.0#poll io own&import wasi:clocks/monotonic-clock@0.2.0#subscribe-duration clocks value&functions: 2 imported, 0 asked, 0 ruled, 0 refused, 1 value, 1 own&
p : clocks.monotonic = "allow" => 0 import wasi:io/poll@0.2.0#poll io asked&import wasi:clocks/monotonic-clock@0.2.0#subscribe-duration clocks asked&output wasi:io/poll@0.2.0#pollable&output wasi:io/poll@0.2.0#poll&output wasi:clocks/monotonic-clock@0.2.0#pollable&output wasi:clocks/monotonic-clock@0.2.0#duration&output wasi:clocks/monotonic-clock@0.2.0#subscribe-duration&functions: 2 imported, 2 asked, 0 ruled, 0 refused, 0 value, 0 own&
p : stdio.stdin = "allow" => 0 import wasi:io/poll@0.2.0#poll io asked&import wasi:clocks/monotonic-clock@0.2.0#subscribe-duration clocks refused&output wasi:io/poll@0.2.0#pollable&output wasi:io/poll@0.2.0#poll&functions: 2 imported, 1 asked, 0 ruled, 1 refused, 0 value, 0 own&

# files that a policy names are not read
a x `empty`
$ a -p p
p : fs.tree = [{ name = "/t", mount = "nowhere" }] => 0 functions: 0 imported, 0 asked, 0 ruled, 0 refused, 0 value, 0 own&"##;

/// Refusals, in their order, and failures.
const REFUSALS: &str = r##"# the policy comes first, then the component
$ a -p p => 3 file fault: p&
p : what = 1 => 1 policy refused: bad-key what&
p : = => 1 policy refused: not-toml&
p : slots = "x" => 1 policy refused: bad-value slots&
p : slots = 4097 => 5 over limit: slots 4097&
p : slots = 4096 => 3 file fault: a&
a : => 2 application refused: malformed at 0&
a x `asks` => 2 application refused: unlisted h&
a x `clock` => 0 `now` clocks refused&functions: 1 imported, 0 asked, 0 ruled, 1 refused, 0 value, 0 own&

# without a policy
$ a => 3 file fault: a&
a : => 2 application refused: malformed at 0&
a x `asks` => 2 application refused: unlisted h&

# a call of the files that fails
a x `clock`
p : random = "allow"
$ a -p p
fails 0 => 3 file fault: p&
fails 1 => 3 file fault: a&
$ a
fails 0 => 3 file fault: a&

# a put that fails
a x `empty`
$ a
puts 0 => 4

# room for so much of it
a x `empty`
$ a
room 9 => 4 functions
room 21 => 4 functions: 0 imported
room 22 => 0 functions: 0 imported&"##;

#[test]
fn words_are_read(rt: HostRuntime) -> Result<(), Fail> {
    hold(&rt, rt.alloc(), WORDS)
}

#[test]
fn functions_have_their_fates(rt: HostRuntime) -> Result<(), Fail> {
    hold(&rt, rt.alloc(), FATES)
}

#[test]
fn what_will_not_do_is_refused(rt: HostRuntime) -> Result<(), Fail> {
    hold(&rt, rt.alloc(), REFUSALS)
}
