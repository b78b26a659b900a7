//! How many locals a routine needs, so that each that it names is there.

ghost use Rattle.std.specs.Prelude.{◌≡◌, max, suc, ◌≤◌, ◌^◌};
ghost use Rattle.adapter_code.specs.Code.{Stop, before, code_of};
ghost use Rattle.adapter_code.specs.Plain.{IsPlain};
ghost use Rattle.adapter_stubs.specs.Named.{span};

use adapter_code::Statement;

/// How many locals there must be, so that each that a routine names is there: one more than the greatest, or none.
#[cycle(locals_named)]
pub fn locals_named(list: &[Statement]) -> u64
    ensures { result ≡ span (code_of list.now) }
{
    let mut most = 0;
    for statement in list {
        most = greater(most, named_in(statement));
    }
    most
}

#[cycle(locals_named)]
fn named_in(statement: &Statement) -> u64
    ensures { result ≡ span (before statement.now Stop) }
{
    match statement {
        Statement::If { test, yes, no } => {
            let nested = greater(locals_named(yes), locals_named(no));
            greater(behind(*test), nested)
        }
        Statement::Repeat { count, body, .. } => greater(behind(*count), locals_named(body)),
        plain => named_plainly(plain),
    }
}

fn named_plainly(statement: &Statement) -> u64
    requires { IsPlain statement.now }
    ensures { result ≡ span (before statement.now Stop) }
{
    let _statement = statement;
    match statement {
        Statement::Const { to, .. } => behind(*to),
        Statement::Move { to, from } => greater(behind(*to), behind(*from)),
        Statement::Int { to, a, b, .. } => {
            let read = greater(behind(*a), behind(*b));
            greater(behind(*to), read)
        }
        Statement::Load { to, at, .. } => greater(behind(*to), behind(*at)),
        Statement::Store { from, at, .. } => greater(behind(*from), behind(*at)),
        Statement::NewHandle { rep, to, .. } => greater(behind(*rep), behind(*to)),
        Statement::DropHandle { index, .. } => behind(*index),
        Statement::Leave { .. } | Statement::Trap | Statement::Answer => 0,
        Statement::If { .. } | Statement::Repeat { .. } => unreachable!(),
    }
}

// The local after one.
fn behind(local: u32) -> u64
    ensures { result ≡ suc local }
{
    local as u64 + 1
}

fn greater(a: u64, b: u64) -> u64
    ensures { result ≡ max a b }
{
    if a < b { b } else { a }
}
