//! Who makes resources, and which are one.

use crate::rows::{Asked, hold};
use std::test::Fail;

/// What a row is about, the sections of a component, and what is answered.
const ROWS: &str = "\
# Who may make a resource, look into it, and drop it
resource.new of a value type: 0702017d0803010200 => rule 12 in section 1
resource.rep of a value type: 0702017d0803010400 => rule 12 in section 1
resource.rep of an imported resource: `import-r`0803010400 => rule 18 in section 1
resource.drop of an imported resource: `import-r`0803010300 => valid
# Imports of resources
an import of the resource of an instance of the component: `component-of-resource``instance-of-0`0606010300000172070a026900400101780101000a06010001660102 => rule 8 in section 4
an import equal to the resource of an instance of the component: `component-of-resource``instance-of-0`06060103000001720a0701000173030000 => rule 8 in section 3
an import of an imported resource: `import-r`070a026900400101780101000a06010001660102 => valid
# Exports of resources
resource.new of an exported resource: `resource`0b07010001720300000803010201 => valid
resource.new of a resource that is exported as an abstract one: `resource`0b090100017203000103010803010201 => rule 18 in section 2
a resource exported as equal to itself: `resource`0b0a010001720300010300000803010201 => valid
a resource exported as equal to another: 0707023f7f003f7f000b0a01000172030001030001 => rule 22 in section 1
a value type exported as a resource: 0702017d0b09010001720300010301 => rule 22 in section 1
# Which resources are one
instances of one component have resources of their own: `component-of-resource`050702000000000000060b020300000172030001017204160061736d0d0001000a0c020001610301000162030000050c010001020161030001620301 => rule 23 in section 4
an instance and itself: `component-of-resource`050702000000000000060b020300000172030000017204160061736d0d0001000a0c020001610301000162030000050c010001020161030001620301 => valid
two exports of one resource: 041d0061736d0d0001000704013f7f000b0d02000172030000000173030000`instance-of-0`060b020300000172030000017304160061736d0d0001000a0c020001610301000162030000050c010001020161030001620301 => valid
a resource through an instance keeps its number: 04190061736d0d0001000a060100017203010b0701000173030000`resource`0508010000010172030006060103000001730803010201 => valid";

#[test]
fn resources_and_their_makers(rt: HostRuntime) -> Result<(), Fail> {
    hold(&rt, rt.alloc(), Asked::Validity, ROWS)
}
