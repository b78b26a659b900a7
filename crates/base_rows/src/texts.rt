//! Rows: bytes that are texts and bytes that are none (The Unicode Standard, table 3-7), how texts compare, and how much memory kept items
//! take.

use crate::rows::{hold, printed, same};
use std::alloc::Global;
use std::mem::size_of;
use std::test::Fail;
use virt_base::{Cursor, Text, copy_bytes, next_byte};
use wasm_ast::{
    BranchTable, ConstExpr, Data, Elements, Instr, Module, Op, Section, SelectTypes, TypeItem,
};

/// The Unicode Standard, table 3-7: overlong forms, surrogates, what is above U+10FFFF, cut forms, and a text.
const ROWS: &str = "\
text ff => Err(NotUtf8)
text c080 => Err(NotUtf8)
text eda080 => Err(NotUtf8)
text f4908080 => Err(NotUtf8)
text e282 => Err(NotUtf8)
text 6180 => Err(NotUtf8)
text 68c3a921 => Ok(Text { chars: \"hé!\" })";

pub fn made(alloc: Global, digits: &str) -> Result<String, Fail> {
    let bytes = hex::decode(alloc, digits.as_bytes())?;
    printed(alloc, &Text::new(alloc, bytes.as_slice()))
}

#[test]
fn makes_text(rt: HostRuntime) -> Result<(), Fail> {
    hold(rt.alloc(), ROWS)
}

#[test]
fn compares_texts(rt: HostRuntime) -> Result<(), Fail> {
    let alloc = rt.alloc();
    let text = Text::from_str(alloc, "hé!")?;
    let copy = text.copy(alloc)?;
    let other = Text::from_str(alloc, "he!")?;
    let found = printed(alloc, &(text.is_same(&copy), text.is_same(&other)))?;
    same("a copy and another text", found.as_str(), "(true, false)")
}

#[test]
fn keeps_lists(rt: HostRuntime) -> Result<(), Fail> {
    let alloc = rt.alloc();
    let mut copy = copy_bytes(alloc, b"12")?;
    let was_empty = copy.is_empty();
    copy.push(51)?;
    let len = copy.len();
    let mut c = Cursor { bytes: b"7", at: 0 };
    let (byte, end) = (next_byte(&mut c), next_byte(&mut c));
    let found = printed(alloc, &(was_empty, len, copy.into_vec(), byte, end))?;
    same(
        "a list and a cursor",
        found.as_str(),
        "(false, 3, [49, 50, 51], Some(55), None)",
    )
}

#[test]
fn an_instruction_is_small(rt: HostRuntime) -> Result<(), Fail> {
    let instructions = (size_of::<Op>(), size_of::<Instr>());
    let lists = (size_of::<SelectTypes>(), size_of::<BranchTable>());
    let sizes = printed(rt.alloc(), &(instructions, lists))?;
    same("sizes", sizes.as_str(), "((12, 16), (24, 24))")
}

/// Of the bytes that spell them, lists of these take at most 24 times as many.
#[test]
fn items_are_small(rt: HostRuntime) -> Result<(), Fail> {
    let expressions = (size_of::<ConstExpr>(), size_of::<Elements>());
    let segments = (size_of::<Data>(), size_of::<Module>());
    let parts = (size_of::<Section>(), size_of::<TypeItem>());
    let sizes = printed(rt.alloc(), &(expressions, segments, parts))?;
    same("sizes", sizes.as_str(), "((16, 56), (40, 176), (48, 24))")
}
