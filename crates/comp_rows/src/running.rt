//! What runs: which component is refused and why, and how much code one holds. The components are written by hand by the Component
//! Model's Binary.md.

mod scripts;

use crate::reading;
use crate::rows::{Asked, hold};
use crate::words::{broken_rule, named, said, shown};
use comp_read::{CompReadFault, read_component};
use component_judge::{Refusal, code_bytes, judge_component};
use std::alloc::Global;
use std::test::Fail;
use virt_base::AppFault;

fn fault_in_words(alloc: Global, fault: &AppFault) -> Result<String, Fail> {
    match fault {
        AppFault::Malformed(at) => reading::in_words(alloc, CompReadFault::Malformed(*at)),
        AppFault::Unsupported(at, byte) => {
            reading::in_words(alloc, CompReadFault::Unsupported(*at, *byte))
        }
        AppFault::Invalid(rule, section) => broken_rule(alloc, *rule, *section),
        AppFault::Unlisted(name) => named(alloc, "unlisted ", name.as_str()),
        AppFault::HandleExport(name) => named(alloc, "handle-export ", name.as_str()),
        AppFault::WrongType(name) => named(alloc, "wrong-type ", name.as_str()),
        AppFault::TwoVersions(name) => named(alloc, "two-versions ", name.as_str()),
    }
}

/// Why something is refused, in words.
fn in_words(alloc: Global, refusal: &Refusal) -> Result<String, Fail> {
    match refusal {
        Refusal::Refused(fault) => fault_in_words(alloc, fault),
        Refusal::OverLimit(what, value) => {
            let mut words = named(alloc, "over ", what.as_str())?;
            words.push(' ')?;
            shown(alloc, words.as_str(), value)
        }
        Refusal::BadScript(path) => named(alloc, "at ", path.as_str()),
        Refusal::NoMemory => said(alloc, "no memory"),
    }
}

pub fn answer(alloc: Global, bytes: &[u8]) -> Result<String, Fail> {
    match judge_component(alloc, bytes) {
        Ok(_) => said(alloc, "runs"),
        Err(refusal) => in_words(alloc, &refusal),
    }
}

/// How much code a component holds.
pub fn code(alloc: Global, bytes: &[u8]) -> Result<String, Fail> {
    let Ok(component) = read_component(alloc, bytes) else {
        return said(alloc, "not read");
    };
    shown(alloc, "", &code_bytes(bytes, &component))
}

const ROWS: &str = "\
# What runs
nothing: whole 0061736d0d000100 => runs
a function: `core-f``function-type-u32``lift``export-f` => runs
an import of an instance of a function: 070e01420201400000790400016601000a0a010005613a622f630500 => runs
# Reading is asked before validity, and validity before imports and exports
a float instruction: 01230061736d010000000105016000017f03020100070501016600000a070105004107920b`instance-of-module` => unsupported at 43 byte 92
a section whose size passes the end: 01220061736d => malformed at 8
a body of another type: 01220061736d010000000105016000017f03020100070501016600000a0601040042070b => rule 1 in section 0
an invalid section behind an import of a function: `function-type-u32``import-f``instance-of-0` => rule 3 in section 2
# Imports and exports
an import of a function: `function-type-u32``import-f` => unlisted f
an instance in an imported instance: 070c0142020142000400016905000a0a010005613a622f630500 => unlisted a:b/c
an import that is met, and one that is not: 07120242020140000079040001660100400000790a0f020005613a622f6305000001660101 => unlisted f
an export of a resource: `resource`0b0701000172030000 => handle-export r
an import that is not met, and an export of a resource: 070802400000793f7f00`import-f`0b0701000172030100 => unlisted f
# Components in one another
in 99 others: around 99 0061736d0d000100 => runs
in 100 others: around 100 0061736d0d000100 => over nesting 101";

#[test]
fn components_are_run(rt: HostRuntime) -> Result<(), Fail> {
    hold(&rt, rt.alloc(), Asked::Running, ROWS)
}

/// What stands after the size of a code section counts, of all modules at any depth.
const SIZES: &str = "\
nothing: whole 0061736d0d000100 => 0
a function: `core-f``function-type-u32``lift``export-f` => 6
a component that holds two: 04530061736d0d00010001220061736d010000000105016000017f03020100070501016600000a0601040041070b0204010000000607010000010001660705014000007908060100000000000b0701000166010000`core-f``function-type-u32``lift``export-f` => 12
a module without code: `empty-module` => 0
a module with a section that is none of code: 010c0061736d0100000000020161 => 0";

#[test]
fn sizes_of_code(rt: HostRuntime) -> Result<(), Fail> {
    hold(&rt, rt.alloc(), Asked::Code, SIZES)
}
