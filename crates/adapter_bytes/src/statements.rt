//! The statements of a routine are counted down from a number, so that a count that is too large is found without an overflow.

ghost use Rattle.std.specs.Prelude.{◌≡◌, ◌+◌, ◌<◌, ◌^◌, IfSome, IfNone};
ghost use Rattle.adapter_code.specs.Code.{Stop, before, code_of};
ghost use Rattle.adapter_code.specs.Plain.{IsPlain};
ghost use Rattle.adapter_bytes.specs.Spelled.{statements, AreNumbered};

use adapter_code::Statement;

/// What is left of a number when a routine's statements are taken from it, or none where it has more.
#[cycle(weigh)]
pub fn weigh(list: &[Statement], left: u32) -> Option<u32>
    ensures some { IfSome result (λ rest. rest + statements (code_of list.now) ≡ left) }
    ensures none { IfNone result (left < statements (code_of list.now)) }
    ensures numbered { IfSome result (λ rest. AreNumbered (code_of list.now)) }
{
    let mut left = left;
    for statement in list {
        match weigh_one(statement, left) {
            Some(rest) => left = rest,
            None => return None,
        }
    }
    Some(left)
}

#[cycle(weigh)]
fn weigh_one(statement: &Statement, left: u32) -> Option<u32>
    ensures some { IfSome result (λ rest. rest + statements (before statement.now Stop) ≡ left) }
    ensures none { IfNone result (left < statements (before statement.now Stop)) }
    ensures numbered { IfSome result (λ rest. AreNumbered (before statement.now Stop)) }
{
    match statement {
        Statement::If { yes, no, .. } => match weigh(yes, left) {
            Some(rest) => match weigh(no, rest) {
                Some(rest) => spend(rest),
                None => None,
            },
            None => None,
        },
        Statement::Repeat { body, .. } => match weigh(body, left) {
            Some(rest) => spend(rest),
            None => None,
        },
        plain => weigh_plain(plain, left),
    }
}

fn weigh_plain(statement: &Statement, left: u32) -> Option<u32>
    requires { IsPlain statement.now }
    ensures some { IfSome result (λ rest. rest + statements (before statement.now Stop) ≡ left) }
    ensures none { IfNone result (left < statements (before statement.now Stop)) }
    ensures numbered { IfSome result (λ rest. AreNumbered (before statement.now Stop)) }
{
    let _statement = statement;
    match statement {
        Statement::Load { offset, .. } | Statement::Store { offset, .. } => weigh_at(*offset, left),
        Statement::If { .. } | Statement::Repeat { .. } => unreachable!(),
        _ => spend(left),
    }
}

// A statement with an offset.
fn weigh_at(offset: u32, left: u32) -> Option<u32>
    ensures some { IfSome result (λ rest. rest + 1 ≡ left) }
    ensures none { IfNone result (left < 1) }
    ensures numbered { offset < 2 ^ 32 }
{
    let _offset = offset;
    spend(left)
}

// One statement.
fn spend(left: u32) -> Option<u32>
    ensures some { IfSome result (λ rest. rest + 1 ≡ left) }
    ensures none { IfNone result (left < 1) }
{
    if left == 0 {
        return None;
    }
    Some(left - 1)
}
