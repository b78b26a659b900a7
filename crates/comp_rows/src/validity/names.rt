//! Names and labels.

use crate::rows::{Asked, hold};
use std::test::Fail;

/// What a row is about, the sections of a component, and what is answered.
const ROWS: &str = "\
# Words that are legal
`a`: 0a06010001610301 => valid
`a-b`: 0a08010003612d620301 => valid
`a1-b2`: 0a0a01000561312d62320301 => valid
`A`: 0a06010001410301 => valid
`A-b`: 0a08010003412d620301 => valid
`a-B1`: 0a09010004612d42310301 => valid
# Words that are not
``: 0a050100000301 => rule 20 in section 0
`-`: 0a060100012d0301 => rule 20 in section 0
`a-`: 0a07010002612d0301 => rule 20 in section 0
`-a`: 0a070100022d610301 => rule 20 in section 0
`a--b`: 0a09010004612d2d620301 => rule 20 in section 0
# Words with a digit, a capital or a sign where none may be
`1a`: 0a0701000231610301 => rule 20 in section 0
`Ab`: 0a0701000241620301 => rule 20 in section 0
`a b`: 0a080100036120620301 => rule 20 in section 0
`a_b`: 0a08010003615f620301 => rule 20 in section 0
`a-1`: 0a08010003612d310301 => rule 20 in section 0
# Names of interfaces that are legal
`a:b/c`: `instance-type`0a0a010005613a622f630500 => valid
`a-b:c-d/e-f`: `instance-type`0a1001000b612d623a632d642f652d660500 => valid
`a:b/c@1.0.0`: `instance-type`0a1001000b613a622f6340312e302e300500 => valid
`a:b/c@1`: `instance-type`0a0c010007613a622f6340310500 => valid
`a:b/c@-`: `instance-type`0a0c010007613a622f63402d0500 => valid
`a:b/c@...`: `instance-type`0a0e010009613a622f63402e2e2e0500 => valid
# Names with capitals and builds
`a:b/c@1+x-Y`: `instance-type`0a1001000b613a622f6340312b782d590500 => valid
`A:B/C`: `instance-type`0a0a010005413a422f430500 => valid
# Names of interfaces that are not legal
`a:b/c@`: `instance-type`0a0b010006613a622f63400500 => rule 20 in section 1
`a:b`: `instance-type`0a08010003613a620500 => rule 20 in section 1
`a/b`: `instance-type`0a08010003612f620500 => rule 20 in section 1
`a:b/`: `instance-type`0a09010004613a622f0500 => rule 20 in section 1
`a:b/c@1_`: `instance-type`0a0d010008613a622f6340315f0500 => rule 20 in section 1
# Names of interfaces with a part too few or too many
`a:/c`: `instance-type`0a09010004613a2f630500 => rule 20 in section 1
`:b/c`: `instance-type`0a090100043a622f630500 => rule 20 in section 1
`a:b:c/d`: `instance-type`0a0c010007613a623a632f640500 => rule 20 in section 1
`a:b/c/d`: `instance-type`0a0c010007613a622f632f640500 => rule 20 in section 1
# Labels and names of parameters and items
a label of a case: 070901710103615f620000 => rule 20 in section 0
a label of flags: 0707016e0103615f62 => rule 20 in section 0
a label of an enum: 0707016d0103615f62 => rule 20 in section 0
a name of a parameter: 070a01400103615f627d0100 => rule 20 in section 0
a declared name: 070b014201040003615f620301 => rule 20 in section 0
a name in an inline instance: 0702017d050a0101010003615f620300 => rule 20 in section 1
an exported name: 0702017d0b09010003615f62030000 => rule 20 in section 1
# Names that may be any text, and names that differ
an illegal name twice: 0a0f020003615f6203010003615f620301 => rule 20 in section 0
a name of an argument may be any text: 0702017d`empty-component`050a0100000103615f620300 => valid
a core name may be any text: `core-f`020c01010203615f620000000000 => valid
a method and a static function of one name: 0a06010001610301070d02680040010473656c660101000a1f02000b5b6d6574686f645d612e620102000b5b7374617469635d612e620102 => valid
# Annotated names that differ, and types without names
a method named as its resource: 0a06010001610301070d02680040010473656c660101000a1001000b5b6d6574686f645d612e610102 => valid
a method twice in another case: 0a06010001610301070d02680040010473656c660101000a1f02000b5b6d6574686f645d612e620102000b5b6d6574686f645d612e420102 => rule 19 in section 2
a type of an import need not be named: 070d02720101617d400101780001000a06010001660101 => valid";

#[test]
fn names_and_labels(rt: HostRuntime) -> Result<(), Fail> {
    hold(&rt, rt.alloc(), Asked::Validity, ROWS)
}
