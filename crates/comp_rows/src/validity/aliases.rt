//! Aliases, and what they carry out.

use crate::rows::{Asked, hold};
use std::test::Fail;

/// What a row is about, the sections of a component, and what is answered.
const ROWS: &str = "\
# Aliases in instance types, and of core items
an alias in an instance type of what is not there: 0712014203014200040001690500020300000174 => rule 7 in section 0
an alias in an instance type: 071b014204014201040001740301040001690500020300000174016901 => valid
a core alias of another sort: `module-of-f``instance-of-module`060701000201000166 => rule 7 in section 2
# Outer aliases of modules and components
an outer alias of a module: `module-of-f`04160061736d0d0001000606010011020100020401000000 => valid
an outer alias of a module that is not there: 0606010011020000 => rule 3 in section 0
an outer alias of a component: `empty-component`04150061736d0d00010006050104020100050401000000 => valid
an outer alias of a component that is not there: `empty-component`06050104020001 => rule 3 in section 1
# Outer aliases that lead beyond the outermost component, and out of instance types
an outer alias of a component beyond the outermost one: `empty-component`06050104020101 => rule 8 in section 1
an outer alias in an instance type beyond the outermost component: 0709027d42010203020200 => rule 8 in section 0
an outer alias of its own instance type: 070a014202017d0203020000 => valid
out of an instance type and then out of a component: 0702017d04120061736d0d00010007080142010203020200 => valid
# Outer aliases that carry a resource out, or do not
out of an instance type and a component, a resource: `resource`04120061736d0d00010007080142010203020200 => rule 2 in section 1
a function that names a resource is not carried out: 070d033f7f00690040010178010100040f0061736d0d00010006050103020102 => rule 2 in section 1
an instance type that declares its resources is carried out: 071a014204040001720301016900014001017801010004000166010204170061736d0d000100060501030201000a06010001690500 => valid
a resource within one component: `resource`060501030200000703016901 => valid";

#[test]
fn aliases_and_what_they_carry_out(rt: HostRuntime) -> Result<(), Fail> {
    hold(&rt, rt.alloc(), Asked::Validity, ROWS)
}
