//! Routines that a text spells.
//!
//! Statements stand after one another with `;` between them. Each is a verb and its numbers, in the order of the statement's
//! fields: `const to value`, `move to from`, an operator with `to a b`, `load to at offset width`, `store from at offset width`,
//! `leave name`, `new kind rep to`, `drop kind index`, `trap`, `answer`. `repeat name count {` and `when test {` begin a block,
//! which `}` ends. `take base slots` and `free base` are the routines of a slot table, over the locals 0 to 7.

use crate::reading::{halves, low, numbers};
use adapter_code::{
    Field, IntOp, Statement, Statements, append, choose, constant, load, repeat, store,
};
use std::alloc::Global;
use std::test::Fail;
use table_bytes::{OWN, free, take};

const WORDS: &str = "eq ne lt le add sub mul and or xor shl shr";

const OPERATORS: [IntOp; 12] = [
    IntOp::Eq,
    IntOp::Ne,
    IntOp::LtU,
    IntOp::LeU,
    IntOp::Add,
    IntOp::Sub,
    IntOp::Mul,
    IntOp::And,
    IntOp::Or,
    IntOp::Xor,
    IntOp::Shl,
    IntOp::ShrU,
];

fn operator(verb: &str) -> Result<IntOp, Fail> {
    for (word, op) in WORDS.split(' ').zip(OPERATORS) {
        if word == verb {
            return Ok(op);
        }
    }
    Err(Fail::from("no such statement"))
}

fn byte(number: u64) -> u8 {
    if number < 256 { number as u8 } else { u8::MAX }
}

fn of_none(verb: &str) -> Result<Statement, Fail> {
    match verb {
        "trap" => Ok(Statement::Trap),
        "answer" => Ok(Statement::Answer),
        _ => Err(Fail::from("no such statement")),
    }
}

fn of_two(verb: &str, a: u64, b: u64) -> Result<Statement, Fail> {
    match verb {
        "const" => Ok(constant(low(a), b)),
        "move" => Ok(Statement::Move {
            to: low(a),
            from: low(b),
        }),
        "drop" => Ok(Statement::DropHandle {
            kind: byte(a),
            index: low(b),
        }),
        _ => Err(Fail::from("no such statement")),
    }
}

fn of_three(verb: &str, a: u64, b: u64, c: u64) -> Result<Statement, Fail> {
    if verb == "new" {
        return Ok(Statement::NewHandle {
            kind: byte(a),
            rep: low(b),
            to: low(c),
        });
    }
    let op = operator(verb)?;
    Ok(Statement::Int {
        op,
        to: low(a),
        a: low(b),
        b: low(c),
    })
}

fn of_four(verb: &str, local: u64, at: u64, field: Field) -> Result<Statement, Fail> {
    match verb {
        "load" => Ok(load(low(local), low(at), field)),
        "store" => Ok(store(low(local), low(at), field)),
        _ => Err(Fail::from("no such statement")),
    }
}

fn statement(verb: &str, numbers: &[u64]) -> Result<Statement, Fail> {
    match numbers {
        [] => of_none(verb),
        [name] => Ok(Statement::Leave { name: low(*name) }),
        [a, b] => of_two(verb, *a, *b),
        [a, b, c] => of_three(verb, *a, *b, *c),
        [local, at, offset, width] => {
            let field = Field {
                offset: low(*offset),
                width: byte(*width),
            };
            of_four(verb, *local, *at, field)
        }
        _ => Err(Fail::from("too many numbers")),
    }
}

/// Adds what a piece of the text says, which is nothing where it is empty. The last statement is the first of the list.
fn put(alloc: Global, list: &mut Statements, piece: &str) -> Result<(), Fail> {
    if piece.is_empty() {
        return Ok(());
    }
    let (verb, words) = halves(piece, " ");
    let numbers = numbers(alloc, words)?;
    if verb == "take" {
        return put_taking(alloc, list, numbers.as_slice());
    }
    if verb == "free" {
        return put_freeing(alloc, list, numbers.as_slice());
    }
    list.push(statement(verb, numbers.as_slice())?)?;
    Ok(())
}

fn put_taking(alloc: Global, list: &mut Statements, numbers: &[u64]) -> Result<(), Fail> {
    let [base, slots] = numbers else {
        return Err(Fail::from("not two numbers"));
    };
    let mut taking = take(alloc, low(*base), low(*slots), &OWN)?;
    taking.reverse();
    Ok(append(list, taking)?)
}

fn put_freeing(alloc: Global, list: &mut Statements, numbers: &[u64]) -> Result<(), Fail> {
    let [base] = numbers else {
        return Err(Fail::from("not one number"));
    };
    let mut freeing = free(alloc, low(*base), &OWN)?;
    freeing.reverse();
    Ok(append(list, freeing)?)
}

/// Makes a block that begins with these words of the statements after a place of a list, which stand in order from its end.
fn put_block(alloc: Global, list: &mut Statements, head: &str, from: usize) -> Result<(), Fail> {
    if from > list.len() {
        return Err(Fail::from("no block ends"));
    }
    let mut body = list.split_off(from)?;
    body.reverse();
    list.push(block(alloc, head, body)?)?;
    Ok(())
}

/// A block that begins with these words.
fn block(alloc: Global, head: &str, body: Statements) -> Result<Statement, Fail> {
    let (_, words) = halves(head, " ");
    let numbers = numbers(alloc, words)?;
    match numbers.as_slice() {
        [name, count] => Ok(repeat(low(*name), low(*count), body)),
        [test] => Ok(choose(low(*test), body, Vec::new(alloc))),
        _ => Err(Fail::from("no such block")),
    }
}

/// The statements of a text. It is read from its end on, and so is a block.
pub fn routine(alloc: Global, text: &str) -> Result<Statements, Fail> {
    let mut list = Vec::new(alloc);
    // where the statements of each block begin in the list
    let mut ends = Vec::new(alloc);
    for piece in text.rsplit(';') {
        let piece = piece.trim();
        if piece == "}" {
            ends.push(list.len())?;
        } else if let Some(head) = piece.strip_suffix(" {") {
            put_block(alloc, &mut list, head, ends.pop().unwrap_or(usize::MAX))?;
        } else {
            put(alloc, &mut list, piece)?;
        }
    }
    list.reverse();
    Ok(list)
}
