//! Rows: the instructions of a body, what they leave, and where their blocks lead.

use crate::rows::{hold, same, shown};
use core_body::{
    Spaces, TypeLists, check_body, check_expression, lesser, operands_are_found, same_ref, value_of,
};
use core_store::Code;
use std::alloc::Global;
use std::test::Fail;
use virt_base::{CoreType, Items};
use wasm_ast::{BlockType, Body, CoreFunc, Instr, Instrs, Op, RefType};

/// The instruction of an opcode: blocks have no type, and a constant is 1.
fn instr_of(opcode: u8) -> Instr {
    match opcode {
        0x02 => Instr::Block(BlockType::Empty),
        0x03 => Instr::Loop(BlockType::Empty),
        0x04 => Instr::If(BlockType::Empty),
        0x05 => Instr::Else,
        0x0B => Instr::End,
        0x41 => Instr::Plain(Op::I32Const(1)),
        _ => Instr::Plain(Op::Nop),
    }
}

/// The instructions of opcodes in hexadecimal digits, with or without their ends.
pub fn instrs_of(alloc: Global, opcodes: &str) -> Result<Instrs, Fail> {
    let mut all = Items::empty(alloc);
    for opcode in hex::decode(alloc, opcodes.as_bytes())? {
        all.push(instr_of(opcode))?;
    }
    Ok(all)
}

/// Bodies by their opcodes, and whether their code is empty, how long it is and what it holds.
const CODE: &str = "\
010b => (false, 2, [Plain(Nop), End])
# blocks without an end, a second `else`, and an `else` without an `if`
0201 => no code
03040b => no code
0405050b0b => no code
0501 => no code";

fn code_of(alloc: Global, opcodes: &str) -> Result<Option<Code>, Fail> {
    Ok(Code::new(alloc, instrs_of(alloc, opcodes)?)?)
}

fn code_in_words(alloc: Global, opcodes: &str) -> Result<String, Fail> {
    match code_of(alloc, opcodes)? {
        Some(code) => shown(alloc, &(code.is_empty(), code.len(), code.instrs())),
        None => Ok(String::from_str(alloc, "no code")?),
    }
}

/// A body of blocks in one another (WebAssembly Core 2.0, section 5.4.1): how long it is, and where its blocks lead, after their
/// ends, and an `if` to its else part, or to its end where it has none.
const NESTED: &str = "\
0203040105010b0b04010b0b0b => ((13, 13), (12, 8, 7), (Jump { other: 5, behind: 7 }, Jump { other: 10, behind: 11 }))";

fn jumps_in_words(alloc: Global, opcodes: &str) -> Result<String, Fail> {
    let Some(code) = code_of(alloc, opcodes)? else {
        return Err(Fail::from("no code"));
    };
    let jumps = code.jumps();
    match jumps {
        [outer, repeated, first, _, middle, _, _, _, last, ..] => {
            let lengths = (code.len(), jumps.len());
            let ends = (outer.behind, repeated.behind, middle.behind);
            shown(alloc, &(lengths, ends, (first, last)))
        }
        _ => Err(Fail::from("too few jumps")),
    }
}

#[test]
fn where_blocks_lead(rt: HostRuntime) -> Result<(), Fail> {
    hold(&rt, rt.alloc(), CODE, code_in_words)?;
    hold(&rt, rt.alloc(), NESTED, jumps_in_words)
}

#[test]
fn a_body_and_an_expression(rt: HostRuntime) -> Result<(), Fail> {
    let alloc = rt.alloc();
    let mut results = Items::empty(alloc);
    results.push(CoreType::I32)?;
    let types = [CoreFunc {
        params: Items::empty(alloc),
        results,
    }];
    let lists = TypeLists::new(alloc, &types)?;
    let spaces = Spaces {
        types: &lists,
        functions: &[],
        tables: &[],
        memories: 0,
        globals: &[],
        imported_globals: 0,
        elements: &[],
        data_count: None,
        refs: &[],
    };
    let body = Body {
        locals: Items::empty(alloc),
        code: instrs_of(alloc, "410b")?,
    };
    let code = body.code.as_slice();
    let found = (
        (
            check_body(alloc, &spaces, Some(0), &body),
            check_body(alloc, &spaces, None, &body),
            check_expression(alloc, &spaces, CoreType::I32, code),
            check_expression(alloc, &spaces, CoreType::I64, code),
        ),
        spaces.function_type(0).is_none(),
        spaces.block_type(BlockType::Value(CoreType::I64)).is_some(),
        lesser(Some(3), Some(2)),
        same_ref(RefType::Func, RefType::Extern),
        value_of(RefType::Extern),
    );
    operands_are_found();
    same(
        &rt,
        alloc,
        &found,
        "((Ok(None), Ok(Some(7)), Ok(None), Ok(Some(7))), true, true, Some(2), false, Externref)",
    )
}
