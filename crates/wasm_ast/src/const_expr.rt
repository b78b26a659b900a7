//! Constant expressions, in little memory where they have few instructions. Contracts see the instructions.

ghost use Rattle.std.specs.Prelude.{◌≡◌, IfOk, IfSome};
ghost use Rattle.wasm_ast.specs.ConstExprs.{code_kept, code_lent};

use crate::apart::Apart;
use crate::bare::Bare;
use crate::instr::{Instr, Instrs};
use std::alloc::Global;
use std::marker::Model;
use virt_base::{Items, NoMemory};

/// The end that closes an expression is not kept after none, one or two instructions of one byte, and these take no memory of
/// their own. Up to seven instructions take what they are.
#[derive(Debug, Drop)]
enum Kept {
    End,
    Bare(Bare),
    Bares(Bare, Bare),
    Two(Apart<[Instr; 2]>),
    Three(Apart<[Instr; 3]>),
    Four(Apart<[Instr; 4]>),
    Five(Apart<[Instr; 5]>),
    Six(Apart<[Instr; 6]>),
    Seven(Apart<[Instr; 7]>),
    More(Apart<Instrs>),
}

/// A constant expression, which contracts see as its instructions.
#[derive(Debug, Drop)]
pub struct ConstExpr {
    kept: Kept,
}

impl Model for ConstExpr {
    ghost use Rattle.std.specs.Prelude.{List};
    ghost use Rattle.wasm_ast.specs.declared.instr.Instr.{Instr};
    ghost use Rattle.wasm_ast.specs.ConstExprs.{code_kept};

    ghost Value = { List Instr };

    ghost view = { λ e. code_kept e.kept };
}

/// Instructions that are kept, or those of one byte made anew.
#[derive(Drop)]
enum Lent<'a> {
    One([Instr; 1]),
    Two([Instr; 2]),
    Three([Instr; 3]),
    Kept(&'a [Instr]),
}

/// The instructions of an expression, which contracts see as a list.
#[derive(Drop)]
pub struct Code<'a> {
    lent: Lent<'a>,
}

impl<'a> Model for Code<'a> {
    ghost use Rattle.std.specs.Prelude.{List};
    ghost use Rattle.wasm_ast.specs.declared.instr.Instr.{Instr};
    ghost use Rattle.wasm_ast.specs.ConstExprs.{code_lent};

    ghost Value = { List Instr };

    ghost view = { λ c. code_lent c.lent };
}

impl<'a> Code<'a> {
    pub fn as_slice(&self) -> &[Instr]
        ensures { result.now ≡ self.now }
    {
        match &self.lent {
            Lent::One(code) => code.as_slice(),
            Lent::Two(code) => code.as_slice(),
            Lent::Three(code) => code.as_slice(),
            Lent::Kept(code) => code,
        }
    }
}

fn bare_code(code: &[Instr]) -> Option<Kept>
    ensures { IfSome result (λ kept. code_kept kept ≡ code.now) }
{
    match code {
        [Instr::End] => Some(Kept::End),
        [first, Instr::End] => Some(Kept::Bare(Bare::of(first)?)),
        [first, second, Instr::End] => Some(Kept::Bares(Bare::of(first)?, Bare::of(second)?)),
        _ => None,
    }
}

fn seven_or_more(alloc: Global, code: Vec<Instr>) -> Result<Kept, NoMemory>
    ensures { IfOk result (λ kept. code_kept kept ≡ code.items) }
{
    match <[Instr; 7]>::try_from(code) {
        Ok(seven) => Ok(Kept::Seven(Apart::new(alloc, seven)?)),
        Err(code) => Ok(Kept::More(Apart::new(alloc, Items::new(code))?)),
    }
}

fn six_or_more(alloc: Global, code: Vec<Instr>) -> Result<Kept, NoMemory>
    ensures { IfOk result (λ kept. code_kept kept ≡ code.items) }
{
    match <[Instr; 6]>::try_from(code) {
        Ok(six) => Ok(Kept::Six(Apart::new(alloc, six)?)),
        Err(code) => seven_or_more(alloc, code),
    }
}

fn five_or_more(alloc: Global, code: Vec<Instr>) -> Result<Kept, NoMemory>
    ensures { IfOk result (λ kept. code_kept kept ≡ code.items) }
{
    match <[Instr; 5]>::try_from(code) {
        Ok(five) => Ok(Kept::Five(Apart::new(alloc, five)?)),
        Err(code) => six_or_more(alloc, code),
    }
}

fn four_or_more(alloc: Global, code: Vec<Instr>) -> Result<Kept, NoMemory>
    ensures { IfOk result (λ kept. code_kept kept ≡ code.items) }
{
    match <[Instr; 4]>::try_from(code) {
        Ok(four) => Ok(Kept::Four(Apart::new(alloc, four)?)),
        Err(code) => five_or_more(alloc, code),
    }
}

fn three_or_more(alloc: Global, code: Vec<Instr>) -> Result<Kept, NoMemory>
    ensures { IfOk result (λ kept. code_kept kept ≡ code.items) }
{
    match <[Instr; 3]>::try_from(code) {
        Ok(three) => Ok(Kept::Three(Apart::new(alloc, three)?)),
        Err(code) => four_or_more(alloc, code),
    }
}

fn two_or_more(alloc: Global, code: Vec<Instr>) -> Result<Kept, NoMemory>
    ensures { IfOk result (λ kept. code_kept kept ≡ code.items) }
{
    match <[Instr; 2]>::try_from(code) {
        Ok(two) => Ok(Kept::Two(Apart::new(alloc, two)?)),
        Err(code) => three_or_more(alloc, code),
    }
}

impl ConstExpr {
    /// The expression of these instructions.
    pub fn new(alloc: Global, code: Instrs) -> Result<ConstExpr, NoMemory>
        ensures { IfOk result (λ e. e ≡ code) }
    {
        let kept = match bare_code(code.as_slice()) {
            Some(kept) => kept,
            None => two_or_more(alloc, code.into_vec())?,
        };
        Ok(ConstExpr { kept })
    }

    pub fn code(&self) -> Code<'_>
        ensures { result ≡ self.now }
    {
        let lent = match &self.kept {
            Kept::End => Lent::One([Instr::End]),
            Kept::Bare(op) => Lent::Two([op.instr(), Instr::End]),
            Kept::Bares(first, second) => {
                Lent::Three([first.instr(), second.instr(), Instr::End])
            }
            Kept::Two(code) => Lent::Kept(code.as_slice()),
            Kept::Three(code) => Lent::Kept(code.as_slice()),
            Kept::Four(code) => Lent::Kept(code.as_slice()),
            Kept::Five(code) => Lent::Kept(code.as_slice()),
            Kept::Six(code) => Lent::Kept(code.as_slice()),
            Kept::Seven(code) => Lent::Kept(code.as_slice()),
            Kept::More(code) => Lent::Kept(code.as_slice()),
        };
        Code { lent }
    }
}
