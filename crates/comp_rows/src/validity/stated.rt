//! Exports with a stated type.

use crate::rows::{Asked, hold};
use std::test::Fail;

/// What a row is about, the sections of a component, and what is answered.
const ROWS: &str = "\
# Instances that are exported with a stated type
an instance shows the stated names alone: 0712024000010042020140000100040001610100`import-f`050d010102000161010000016201000b090100016905000105010606010100010162 => rule 7 in section 4
the instance itself shows the others too: 0712024000010042020140000100040001610100`import-f`050d010102000161010000016201000b09010001690500010501060b0201000001620100010161 => valid
without a stated type it shows all: 0712024000010042020140000100040001610100`import-f`050d010102000161010000016201000b07010001690500000606010100010162 => valid
a stated name that the instance lacks: 0712024000010042020140000100040001610100`import-f`050d01010200016101000001620100070e01420201400001000400016301000b09010001690500010502 => rule 22 in section 4
# Other stated types
stated names of parameters: 070f02400101787d0100400101797d0100`import-f`0b09010001670100010101 => valid
a stated type of another sort: `function-type``import-f`0b0a01000167010001030000 => rule 22 in section 2
a stated type that is not there: `function-type``import-f`0b09010001670100010101 => rule 3 in section 2
a stated type that is no function type: 070602400001007d`import-f`0b09010001670100010101 => rule 11 in section 2";

#[test]
fn stated_types(rt: HostRuntime) -> Result<(), Fail> {
    hold(&rt, rt.alloc(), Asked::Validity, ROWS)
}
