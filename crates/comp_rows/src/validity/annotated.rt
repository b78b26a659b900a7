//! Names of methods, constructors and static functions.

use crate::rows::{Asked, hold};
use std::test::Fail;

/// What a row is about, the sections of a component, and what is answered.
const ROWS: &str = "\
# Methods and constructors, and the resource that stands before them
a method before its resource: 0710033f7f00680040010473656c66010100`module-with-destructor``instance-of-module``alias-of-f`08060100000000020b1702000b5b6d6574686f645d722e78010000000172030000 => rule 24 in section 5
a method behind its resource: 0710033f7f00680040010473656c66010100`module-with-destructor``instance-of-module``alias-of-f`08060100000000020b1702000172030000000b5b6d6574686f645d722e78010000 => valid
an annotated type: `resource`0b1702000172030000000b5b7374617469635d722e78030000 => rule 24 in section 1
a constructor: `import-r`0707026900400000010a1301000e5b636f6e7374727563746f725d720102 => valid
a constructor of a result of the resource: `import-r`070c0369006a01010173400000020a1301000e5b636f6e7374727563746f725d720103 => rule 24 in section 2
a constructor that answers nothing: `import-r``function-type`0a1301000e5b636f6e7374727563746f725d720101 => rule 24 in section 2
# Parameters of methods, static functions, and names of resources
a method of no parameters: `import-r``function-type`0a1001000b5b6d6574686f645d722e780101 => rule 24 in section 2
a static function: `import-r``function-type`0a1001000b5b7374617469635d722e780101 => valid
a static function of no resource: `import-r``function-type`0a1001000b5b7374617469635d732e780101 => rule 24 in section 2
a resource whose name differs in case: `import-r``function-type`0a1001000b5b7374617469635d522e780101 => rule 24 in section 2
a method of a value type: 070c027d40010473656c660001000a1602000172030000000b5b6d6574686f645d722e780101 => rule 24 in section 1
# Which resource a method takes
the first parameter of a method may have any name: `import-r`070a026800400101780101000a1001000b5b6d6574686f645d722e780102 => valid
an alias counts as the resource: 0a0c020001720301000173030000070d02680040010473656c660201000a1001000b5b6d6574686f645d732e780103 => valid
a method of another resource: 0a0b0200017203010001730301070d02680040010473656c660201000a1001000b5b6d6574686f645d732e780103 => rule 24 in section 2
# Annotated names in instance types and inline instances
a method in an instance type: 07270142040400017203010168000140010473656c6601010004000b5b6d6574686f645d722e780102 => valid
a method before its resource in an instance type: `import-r`072d01420502030201000168000140010473656c6601010004000b5b6d6574686f645d722e78010204000172030000 => rule 24 in section 1
a method in an inline instance: `import-r`070d02680040010473656c660101000a0601000166010205170101020001720300000b5b6d6574686f645d722e780100 => valid
a method alone in an inline instance: `import-r`070d02680040010473656c660101000a060100016601020512010101000b5b6d6574686f645d722e780100 => rule 24 in section 3";

#[test]
fn annotated_names(rt: HostRuntime) -> Result<(), Fail> {
    hold(&rt, rt.alloc(), Asked::Validity, ROWS)
}
