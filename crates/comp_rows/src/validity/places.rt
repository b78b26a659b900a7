//! Which section is at fault, and which of two faults counts.

use crate::rows::{Asked, hold};
use std::test::Fail;

/// What a row is about, the sections of a component, and what is answered.
const ROWS: &str = "\
# Which section is at fault
sections are counted with the custom ones: 00020161`module-of-f`000201620703017009 => rule 3 in section 3
a fault two components deep is one of the outermost section: 0702017d04170061736d0d000100040d0061736d0d0001000703017009 => rule 2 in section 1
a faulty module in a component in it: 042c0061736d0d00010001220061736d010000000105016000017f03020100070501016600000a0601040042070b => rule 2 in section 0
# Which of two faults counts
of two faults the first counts: 0704027d69000703017009 => rule 12 in section 0
of two faults in a section the first counts: 0706037d69007009 => rule 12 in section 0
of two rules that a definition breaks the least counts: 070d01720203615f627d03615f627d => rule 9 in section 0
# What is in the type of a component
a component without sections, twice: `empty-component``empty-component` => valid
what a component exports is in the type of its instances: 04150061736d0d0001000702017d0b0701000174030000`instance-of-0`06060103000001740703017000 => valid
what it only defines is not: 040c0061736d0d0001000702017d`instance-of-0`0606010300000174 => rule 7 in section 2";

#[test]
fn places_of_faults(rt: HostRuntime) -> Result<(), Fail> {
    hold(&rt, rt.alloc(), Asked::Validity, ROWS)
}
