//! Each rule, broken and just kept.

use crate::rows::{Asked, hold};
use std::test::Fail;

/// What a row is about, the sections of a component, and what is answered.
const ROWS: &str = "\
# Modules and components in the component: rules 1 and 2
a body of another type: 011b0061736d010000000105016000017f030201000a0601040042070b => rule 1 in section 0
a body of its type: `module-of-f` => valid
a faulty section of a component in it: `empty-component`040d0061736d0d0001000703017000 => rule 2 in section 1
components in it, the one in the other: 04160061736d0d00010004080061736d0d00010007020179 => valid
# Indexes: rule 3
a lift to a type that is not there: `core-f``function-type-u32`0806010000000001 => rule 3 in section 4
a lift to a type that is there: `core-f``function-type-u32``lift` => valid
a repeated label beside an index that is not there: 0709017202016100016179 => rule 3 in section 0
# Arguments of modules: rules 4 and 5
no argument for an import: `module-without-f``instance-of-module` => rule 4 in section 1
an argument that exports no such item: `module-without-f`020a02010000000101611200 => rule 4 in section 1
an argument: `module-without-f``module-of-f`020b0200010000000101611200 => valid
an argument of another type: `module-without-f`011f0061736d0100000001040160000003020100070501016600000a040102000b020b0200010000000101611200 => rule 5 in section 2
# Names of items that are made together: rule 6
a name twice among core items: `core-f`020b0101020166000001660000 => rule 6 in section 3
names of core items in another case: `core-f`020b0101020166000001460000 => valid
a name of an instance in another case: `function-type``import-g`050d01010200016601000001460100 => rule 6 in section 2
# Aliases of exports: rule 7
an alias of what is not exported: `module-of-f``instance-of-module`060701000001000167 => rule 7 in section 2
an alias of another sort: `module-of-f``instance-of-module`060701000201000166 => rule 7 in section 2
an alias of a type that is a function: `function-type``import-g`050801010100016601000606010300000166 => rule 7 in section 3
an alias of a function: `function-type``import-g`050801010100016601000606010100000166 => valid
# Outer aliases: rule 8
an outer alias beyond the outermost component: 0702017906050103020100 => rule 8 in section 1
an outer alias of a scope that is there, with an index that is not: 0702017906050103020001 => rule 3 in section 1
an outer alias of its own scope: 0702017906050103020000 => valid
an outer alias that carries a resource out: `resource`040f0061736d0d00010006050103020100 => rule 2 in section 1
an outer alias of a type that names no resource: 07020179040f0061736d0d00010006050103020100 => valid
an outer alias of a resource in an instance type: 0712023f7f004202020302010004000172030000 => valid
an import of the resource of the component: 070d033f7f006900400101780101000a06010001660102 => rule 8 in section 1
# Labels and flags: rule 9
a label in another case: 0709017202016179014179 => rule 9 in section 0
labels that differ: 0709017202016179016279 => valid
flags without labels: 0703016e00 => rule 9 in section 0
33 flags: 077d016e21026c30026c31026c32026c33026c34026c35026c36026c37026c38026c39036c3130036c3131036c3132036c3133036c3134036c3135036c3136036c3137036c3138036c3139036c3230036c3231036c3232036c3233036c3234036c3235036c3236036c3237036c3238036c3239036c3330036c3331036c3332 => rule 9 in section 0
32 flags: 0779016e20026c30026c31026c32026c33026c34026c35026c36026c37026c38026c39036c3130036c3131036c3132036c3133036c3134036c3135036c3136036c3137036c3138036c3139036c3230036c3231036c3232036c3233036c3234036c3235036c3236036c3237036c3238036c3239036c3330036c3331 => valid
# Sizes and kinds of types: rules 10 and 11
100 lists in one another: 07ec016470797000700170027003700470057006700770087009700a700b700c700d700e700f7010701170127013701470157016701770187019701a701b701c701d701e701f7020702170227023702470257026702770287029702a702b702c702d702e702f7030703170327033703470357036703770387039703a703b703c703d703e703f70c00070c10070c20070c30070c40070c50070c60070c70070c80070c90070ca0070cb0070cc0070cd0070ce0070cf0070d00070d10070d20070d30070d40070d50070d60070d70070d80070d90070da0070db0070dc0070dd0070de0070df0070e00070e10070e200 => rule 10 in section 0
99 lists in one another: 07e9016370797000700170027003700470057006700770087009700a700b700c700d700e700f7010701170127013701470157016701770187019701a701b701c701d701e701f7020702170227023702470257026702770287029702a702b702c702d702e702f7030703170327033703470357036703770387039703a703b703c703d703e703f70c00070c10070c20070c30070c40070c50070c60070c70070c80070c90070ca0070cb0070cc0070cd0070ce0070cf0070d00070d10070d20070d30070d40070d50070d60070d70070d80070d90070da0070db0070dc0070dd0070de0070df0070e00070e100 => valid
a function over 99 lists: 07f1016470797000700170027003700470057006700770087009700a700b700c700d700e700f7010701170127013701470157016701770187019701a701b701c701d701e701f7020702170227023702470257026702770287029702a702b702c702d702e702f7030703170327033703470357036703770387039703a703b703c703d703e703f70c00070c10070c20070c30070c40070c50070c60070c70070c80070c90070ca0070cb0070cc0070cd0070ce0070cf0070d00070d10070d20070d30070d40070d50070d60070d70070d80070d90070da0070db0070dc0070dd0070de0070df0070e00070e10040010178e2000100 => rule 10 in section 0
a function where a value type is due: 070702400001007000 => rule 11 in section 0
an import of an instance by a value type: 070201790a06010001690500 => rule 11 in section 1
# Handles: rule 12
a handle of a value type: 070402796900 => rule 12 in section 0
a handle of a resource: 0706023f7f006900 => valid
resource.drop of a value type: 070201790803010300 => rule 12 in section 1
# Functions: rule 13, and resources: rule 14
a borrow in a result: 070a033f7f00680040000001 => rule 13 in section 0
a borrow as a parameter: 070d033f7f00680040010178010100 => valid
a parameter in another case: 070b0140020178790158790100 => rule 13 in section 0
a resource that an instance type defines: 0707014201013f7f00 => rule 14 in section 0
a destructor in an instance type: 0708014201013f7f0100 => rule 3 in section 0
# Destructors: rule 14, and declared names: rule 15
a destructor that gives a number: `core-f`0705013f7f0100 => rule 14 in section 3
a destructor: `module-with-destructor``instance-of-module``alias-of-f`0705013f7f0100 => valid
a declared name in another case: 070f014202040001610301040001410301 => rule 15 in section 0
a declared name twice, and behind it an index that is not there: 0712014203040001610301040001610301017009 => rule 15 in section 0
declared names: 070f014202040001610301040001620301 => valid
# Lifted functions: rules 16 and 17
a lift to a function of another core type: `core-f`07080140010178790079`lift` => rule 16 in section 4
an option twice: `core-f``function-type-u32`08080100000002000000 => rule 17 in section 4
an option once: `core-f``function-type-u32`080701000000010000 => valid
a string without a memory: `core-f`07050140000073`lift` => rule 17 in section 4
a post-return with a result: `core-f``function-type-u32`08080100000001050000 => rule 17 in section 4
# Resources of others: rule 18, and names: rules 19 and 20
resource.new of an imported resource: `import-r`0803010200 => rule 18 in section 1
resource.new of a resource of the component: `resource`0803010200 => valid
an imported name in another case: 0a0b0200016103010001410301 => rule 19 in section 0
imported names: 0a0b0200016103010001620301 => valid
a name with an underscore: 0a08010003615f620301 => rule 20 in section 0
a label with an underscore: 070801720103615f6279 => rule 20 in section 0
# Exports: rules 21 and 22
an exported name in another case: 070201790b0d02000161030000000141030000 => rule 21 in section 1
exported names: 070201790b0d02000161030000000162030000 => valid
a stated type of another function: 0709024000010040000079`import-f`0b09010001670100010101 => rule 22 in section 2
a stated type: 0709024000010040000100`import-f`0b09010001670100010101 => valid
# Arguments of components: rule 23, and annotated names: rule 24
an argument that lacks an export: 04200061736d0d000100070e01420201400001000400016601000a06010001690500050301010005080100000101690500 => rule 23 in section 2
an argument that has it: 04200061736d0d000100070e01420201400001000400016601000a06010001690500`function-type``import-g`0508010101000166010005080100000101690500 => valid
a method of a resource that does not stand before it: `import-r`070d02680040010473656c660101000a1001000b5b6d6574686f645d732e660102 => rule 24 in section 2
a method: `import-r`070d02680040010473656c660101000a1001000b5b6d6574686f645d722e660102 => valid
a method that takes the resource: `import-r`070d02690040010473656c660101000a1001000b5b6d6574686f645d722e660102 => rule 24 in section 2";

#[test]
fn each_rule(rt: HostRuntime) -> Result<(), Fail> {
    hold(&rt, rt.alloc(), Asked::Validity, ROWS)
}
