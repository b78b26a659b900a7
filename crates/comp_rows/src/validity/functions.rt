//! Functions that are lifted and lowered, with their options.

use crate::rows::{Asked, hold};
use std::test::Fail;

/// What a row is about, the sections of a component, and what is answered.
const ROWS: &str = "\
# Lifted functions whose result holds a text
a text in a result with a memory: `options`08080100000001030000 => valid
a text in a result without a memory: `options``lift` => rule 17 in section 4
its post-return: `options`080a01000000020300050300 => valid
a post-return of other parameters: `options`080a01000000020300050100 => rule 17 in section 4
a post-return of no parameters where one is due: `options`080a01000000020300050000 => rule 17 in section 4
# Lifted functions that take a text
a text as a parameter with memory and realloc: `options`080a01000001020300040201 => valid
a text as a parameter without realloc: `options`08080100000101030001 => rule 17 in section 4
a text as a parameter with realloc and no memory: `options`08080100000101040201 => rule 17 in section 4
a realloc of another type: `options`080a01000001020300040001 => rule 17 in section 4
a realloc that is not there: `options`080a01000001020300040901 => rule 3 in section 4
# Options that are not needed, twice, or behind another fault
memory and realloc that are not needed: `options`080a01000000020300040202 => valid
a memory twice: `options`080a01000000020300030000 => rule 17 in section 4
utf8 once and the others: `options`080b0100000403000300040203 => valid
a lift of another core type before its options: `options`0806010000010000 => rule 16 in section 4
# Results of two numbers, lifted; and lowered functions that take a text
a result of two numbers through memory: `options`08080100000001030005 => valid
a result of two numbers without memory: `options`0806010000000005 => rule 17 in section 4
a lowered text as a parameter with a memory: `options`0a06010001660101080701010000010300 => valid
a lowered text as a parameter without a memory: `options`0a0601000166010108050101000000 => rule 17 in section 5
# Lowered functions with their options
a lowered text in a result without realloc: `options``import-f`080701010000010300 => rule 17 in section 5
a lowered text in a result: `options``import-f`0809010100000203000402 => valid
a lowered result of two numbers needs no realloc: `options`0a06010001660105080701010000010300 => valid
a post-return on a lowered function: `options`0a06010001660102080701010000010503 => rule 17 in section 5
a lowered function without options: `options`0a0601000166010208050101000000 => valid
# Types of another kind, and arguments of modules
a value type where a lift wants a function type: `module-of-options``instance-of-module``aliases-of-options`0702017d`lift` => rule 11 in section 4
an import of a function by a value type: 0702017d`import-f` => rule 11 in section 1
a core argument of another kind: 01170061736d010000000104016000000207010161016d0000`module-of-options`020b0200010000000101611200 => rule 5 in section 2
a core argument that no import names: `module-of-options``instance-of-module`02080100000101611200 => valid
core arguments of one name: `module-of-options``instance-of-module`020c010000020161120001611200 => rule 4 in section 2
core arguments whose names differ in case: `module-of-options``instance-of-module`020c010000020161120001411200 => valid";

#[test]
fn lifted_and_lowered_functions(rt: HostRuntime) -> Result<(), Fail> {
    hold(&rt, rt.alloc(), Asked::Validity, ROWS)
}
