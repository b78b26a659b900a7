//! The exit statuses of `run`, each with what is put, over files that tell nothing. The component is the file `a`, the script `p`.

use crate::rows::{Over, hold};
use std::test::Fail;

const ROWS: &str =
    r##"# Calls end: `i32.const 7`, `unreachable` and `nop`, and a call of the function itself (WebAssembly Core, Binary Format)
p : `once`
a x `seven`
$ run a -s p => 0 ["return",7]&
$ run a -s p --steps 3 => 0 ["return",7]&
$ run a -s p --steps 2 => 12 ["spent"]&
$ run a -s p
a x `front`0001`back` => 10 ["trap"]&
a x `itself` => 14 ["too-deep"]&

# A function of the host is asked
a x `asks`
$ run a -s p
p : {"answers":[{"value":7}],"calls":[["f",[]]]} => 0 ["call","h","g",[]]&["return",7]&
p : {"answers":["trap"],"calls":[["f",[]]]} => 10 ["call","h","g",[]]&["trap"]&
p : `once` => 11 ["call","h","g",[]]&["script-ended"]&
p : {"answers":[{"value":"7"}],"calls":[["f",[]]]} => 13 ["call","h","g",[]]&["bad-answer"]&

# A script is refused; one at its limit is read, and zeros are no JSON
a x `asks`
$ run a -s p
p : { => 7 script refused: &
p * 67108864 0 => 7 script refused: &
p : {"answers":[],"calls":[["g",[]]]} => 7 script refused: calls[0]&

# A component is refused; one at its limit is read, and zeros are no component
p : `once`
$ run a -s p
a : => 2 application refused: malformed at 0&
a * 201326592 0 => 2 application refused: malformed at 0&

# Files are not read
p : `once`
$ run a -s p
a ! missing => 3 file fault: a&
a ! failed => 3 file fault: a&
a ! memory => 6
a x `asks`
p ! missing => 3 file fault: p&
p ! failed => 3 file fault: p&
p ! memory => 6

# Files are too long
p : `once`
$ run a -s p
a ! 201326593 => 5 over limit: component-bytes 201326593&
a ! 18446744073709551615 => 5 over limit: component-bytes 18446744073709551615&
a x `asks`
p ! 67108865 => 5 over limit: script-bytes 67108865&
p ! 18446744073709551615 => 5 over limit: script-bytes 18446744073709551615&"##;

#[test]
fn runs_have_their_statuses(rt: HostRuntime) -> Result<(), Fail> {
    hold(&rt, rt.alloc(), Over::Untold, ROWS)
}
