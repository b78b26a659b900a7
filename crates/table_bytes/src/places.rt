//! Routines over locals of their own, put at other places.

ghost use Rattle.std.specs.Prelude.{◌≡◌, ◌<◌, true, IfOk, length, slice_index_or};
ghost use Rattle.adapter_code.specs.Code.{Code, Stop, Then, before, code_of, followed_by};
ghost use Rattle.adapter_code.specs.Plain.{IsPlain};
ghost use Rattle.adapter_code.specs.Placed.{place_in, moved_to, placed, within};

use adapter_code::{Statement, Statements, choose, repeat};
use std::alloc::Global;
use virt_base::NoMemory;

/// A routine over its own locals 0, 1, .. at home in others: its local i is the i-th of these.
#[cycle(placed_at)]
pub fn placed_at(alloc: Global, places: &[u32], list: &[Statement]) -> Result<Statements, NoMemory>
    requires { within (length places.now) (code_of list.now) ≡ true }
    ensures { IfOk result (λ new. code_of new.items ≡ placed places.now (code_of list.now)) }
{
    let mut new = Vec::new(alloc);
    for statement in list {
        new.push(one_at(alloc, places, statement)?)?;
    }
    Ok(new)
}

#[cycle(placed_at)]
fn one_at(alloc: Global, places: &[u32], statement: &Statement) -> Result<Statement, NoMemory>
    requires { within (length places.now) (before statement.now Stop) ≡ true }
    ensures { IfOk result (λ new. (rest : Code) → before new rest ≡ followed_by (placed places.now (before statement.now Stop)) rest) }
{
    match statement {
        Statement::If { test, yes, no } => {
            let first = placed_at(alloc, places, yes)?;
            let other = placed_at(alloc, places, no)?;
            Ok(choose(at(places, *test), first, other))
        }
        Statement::Repeat { name, count, body } => {
            let body = placed_at(alloc, places, body)?;
            Ok(repeat(*name, at(places, *count), body))
        }
        plain => Ok(plain_at(places, plain)),
    }
}

fn plain_at(places: &[u32], statement: &Statement) -> Statement
    requires plain { IsPlain statement.now }
    requires within { within (length places.now) (before statement.now Stop) ≡ true }
    ensures { (rest : Code) → before result rest ≡ followed_by (placed places.now (before statement.now Stop)) rest }
{
    let _statement = statement;
    match statement {
        Statement::Const { to, value } => Statement::Const {
            to: at(places, *to),
            value: *value,
        },
        Statement::Move { to, from } => Statement::Move {
            to: at(places, *to),
            from: at(places, *from),
        },
        Statement::Int { op, to, a, b } => Statement::Int {
            op: *op,
            to: at(places, *to),
            a: at(places, *a),
            b: at(places, *b),
        },
        Statement::Load {
            to,
            at: place,
            offset,
            width,
        } => Statement::Load {
            to: at(places, *to),
            at: at(places, *place),
            offset: *offset,
            width: *width,
        },
        Statement::Store {
            from,
            at: place,
            offset,
            width,
        } => Statement::Store {
            from: at(places, *from),
            at: at(places, *place),
            offset: *offset,
            width: *width,
        },
        Statement::NewHandle { kind, rep, to } => Statement::NewHandle {
            kind: *kind,
            rep: at(places, *rep),
            to: at(places, *to),
        },
        Statement::DropHandle { kind, index } => Statement::DropHandle {
            kind: *kind,
            index: at(places, *index),
        },
        Statement::Leave { name } => Statement::Leave { name: *name },
        Statement::Trap => Statement::Trap,
        Statement::Answer => Statement::Answer,
        Statement::If { .. } | Statement::Repeat { .. } => unreachable!(),
    }
}

fn at(places: &[u32], local: u32) -> u32
    requires { local < length places.now }
    ensures { result ≡ place_in places.now local }
{
    places[local as usize]
}
