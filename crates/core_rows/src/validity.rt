//! Rows: modules that break each rule, some that break two, and some that are valid.

use crate::bodies::instrs_of;
use crate::pieces::module_of;
use crate::rows::{hold, shown};
use core_validate::validate;
use std::alloc::Global;
use std::test::Fail;
use virt_base::Items;
use wasm_ast::{Body, Lean, Module};

const ROWS: &str = "\
# The wrong constant, and the right one.
gives 0a06010400 4207 0b => Invalid(7)
gives 0a06010400 4100 0b => valid
gives 0a08010600 4100 4100 0b => Invalid(7)
bare 0a04010200 0b => valid
# One row a rule.
bare 0a07010500 0209 0b 0b => Invalid(1)
bare 0a06010400 1009 0b => Invalid(2)
bare 0a09010700 4100 2509 1a 0b => Invalid(3)
bare 0a0a010800 4100 280200 1a 0b => Invalid(4)
bare 0a07010500 2309 1a 0b => Invalid(5)
bare 0a07010500 2009 1a 0b => Invalid(6)
bare 0a06010400 0c01 0b => Invalid(6)
bare 0a08010600 4100 2401 0b => Invalid(8)
paged 0a0a010800 4100 280300 1a 0b => Invalid(10)
bare 0a07010500 fc0900 0b => Invalid(14)
bare 0a07010500 fc0d01 0b => Invalid(15)
bare 0a07010500 d200 1a 0b => Invalid(16)
# The least of two rules.
bare 0a07010500 1a 2009 0b => Invalid(6)
bare 0a08010600 4207 2401 0b => Invalid(7)
bare 0a0a010800 4100 280300 1a 0b => Invalid(4)
bare 0a0e010c00 4100 4100 4100 fc080000 0b => Invalid(4)
paged 0a0e010c00 4100 4100 4100 fc080000 0b => Invalid(14)
bare 0a0e010c00 4100 4100 4100 fc0c0900 0b => Invalid(15)
bare 0a0e010c00 4207 4100 4100 fc0c0900 0b => Invalid(7)
bare 0a0e010c00 4100 4100 4100 fc0c0909 0b => Invalid(3)
bare 0a0a010800 fc0d01 fc0900 0b => Invalid(14)
bare 0a07010500 d209 1a 0b => Invalid(2)
# Code behind a jump.
gives 0a15011300 027e 027f 00 0e010001 0b 1a 4207 0b 1a 4100 0b => valid
gives 0a07010500 00 1b d1 0b => valid
bare 0a0a010800 00 1c0170 2600 0b => valid
gives 0a08010600 00 1c0170 0b => Invalid(7)
gives 0a05010300 0f 0b => Invalid(7)
gives 0a09010700 4100 0f 2000 0b => Invalid(6)
bare 0a09010700 00 2301 2401 0b => Invalid(8)
# Blocks.
gives 0a0e010c00 4100 047f 4100 05 4100 0b 0b => valid
gives 0a0b010900 4100 047f 4100 0b 0b => Invalid(7)
gives 0a0c010a00 4100 047f 4100 05 0b 0b => Invalid(7)
gives 0a0d010b00 027f 4100 4100 0d00 0b 0b => valid
gives 0a0b010900 027f 4100 0d00 0b 0b => Invalid(7)
takes 0a0b010900 2000 4100 110200 0b => valid
takes 0a09010700 2000 4207 1b 0b => Invalid(7)
takes 0a09010700 2000 2000 6a 0b => valid
# An imported function of a type that is not there.
start types 020e02016d016e037f00016d016e0009 func table globals elements code => Invalid(1)
# An imported table of 2 to 1 entries.
start types 021102016d016e037f00016d016e0170010201 func table globals elements code => Invalid(11)
# A function of a type that is not there.
start types import 0303020109 table globals elements 0a070202000b02000b => Invalid(1)
# A memory of 4,097 pages.
start types import func table 050401008120 globals elements code => Invalid(11)
# A memory of at most 65,537 pages.
start types import func table 0506010101818004 globals elements code => Invalid(11)
# Two memories, one of 2 to 1 pages.
start types import func table 0506020001010201 globals elements code => Invalid(4)
# A global of another type than its constant.
start types import func table 0610037f0041000b7e0142070b7f0042070b elements code => Invalid(7)
# A global of a sum.
start types import func table 0613037f0041000b7e0142070b7f00410041006a0b elements code => Invalid(9)
# A global of one that is not imported.
start types import func table 0610037f0041000b7e0142070b7f0023010b elements code => Invalid(9)
# A global of one that is imported.
start types import func table 0610037f0041000b7e0142070b7f0023000b elements code => valid
# A branch in a global.
start types import func table 0610037f0041000b7e0142070b7f000c000b elements code => Invalid(6)
# A return in a global.
start types import func table 0611037f0041000b7e0142070b7f0041000f0b elements code => Invalid(7)
# An export of a table that is not there.
start types import func table globals 07050101610101 elements code => Invalid(3)
# Two exports of one name.
start types import func table globals 070d03016100000162000001610100 elements code => Invalid(12)
# A start function that is not there.
start types import func table globals 080109 elements code => Invalid(2)
# An offset of another type among elements.
start types import func table globals 0909020100000042070b00 code => Invalid(7)
# Functions for a table of another type.
start types import func 0407027000016f0001 globals 090b02010000020141000b0000 code => Invalid(7)
# An active segment without a memory.
start types import func table globals elements code 0b06010041000b00 => Invalid(4)
# A passive segment without a memory.
start types import func table globals elements code 0b03010100 => valid
# More locals than 50,000.
start types import 0303020101 table globals elements 0a130202000b0e02ffffffff0f7fffffffff0f7f0b => Invalid(11)
# A start function that gives a result.
start types import 0303020100 table globals 080101 elements 0a090202000b040041000b => Invalid(13)
# The type of a module that exports a function, a memory, a variable i64 and a table of funcref.
start types import 03020102 table memory globals 07110401660000016d02000167030201740100 elements 0a0601040041000b => \
ModuleType { imports: Items { items: [\
CoreImport { module: Text { chars: \"m\" }, name: Text { chars: \"n\" }, item: Global(I32, false) }] }, exports: Items { items: [\
CoreExport { name: Text { chars: \"f\" }, \
item: Func(Shared { kept: CoreFunc { params: Items { items: [I32] }, results: Items { items: [I32] } } }) }, \
CoreExport { name: Text { chars: \"m\" }, item: Memory(Limits { min: 1, max: None }) }, \
CoreExport { name: Text { chars: \"g\" }, item: Global(I64, true) }, \
CoreExport { name: Text { chars: \"t\" }, item: Table(Funcref, Limits { min: 1, max: None }) }] } }";

/// The rule that a module breaks, or the type of one that exports something.
fn judged(alloc: Global, module: &Module) -> Result<String, Fail> {
    match validate(alloc, module) {
        Ok(ty) if ty.exports.is_empty() => Ok(String::from_str(alloc, "valid")?),
        Ok(ty) => shown(alloc, &ty),
        Err(fault) => shown(alloc, &fault),
    }
}

fn judge(alloc: Global, words: &str) -> Result<String, Fail> {
    let module = module_of(alloc, words)?;
    judged(alloc, &module)
}

/// Bodies that no bytes spell: an `else` alone, a block without an end, and an end too many.
const UNSPELLED: &str = "\
050b => Invalid(7)
020b => Invalid(7)
0b0b => Invalid(7)";

/// What is said of a module whose one body has these instructions.
fn judge_body(alloc: Global, opcodes: &str) -> Result<String, Fail> {
    let mut bodies = Items::empty(alloc);
    bodies.push(Body {
        locals: Items::empty(alloc),
        code: instrs_of(alloc, opcodes)?,
    })?;
    let mut module = module_of(alloc, "bare code")?;
    module.code = Lean::new(alloc, bodies)?;
    judged(alloc, &module)
}

#[test]
fn modules_are_judged(rt: HostRuntime) -> Result<(), Fail> {
    hold(&rt, rt.alloc(), ROWS, judge)?;
    hold(&rt, rt.alloc(), UNSPELLED, judge_body)
}
