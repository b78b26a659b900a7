//! Bounds on how deep statements stand in one another, so that labels and locals have numbers of 32 bits.

ghost use Rattle.std.specs.Prelude.{◌≡◌, ◌+◌, max, ◌<◌, ◌≤◌, ◌^◌, ◌↔◌, true, length};
ghost use Rattle.adapter_code.specs.Code.{Stop, before, code_of};
ghost use Rattle.adapter_compile.specs.Bounds.{nesting, brackets};

use adapter_code::{Statement, Width};

/// How deep the `Repeat`s of a routine stand in one another.
#[cycle(nesting)]
pub fn nesting_of(list: &[Statement]) -> u32
    requires { nesting (code_of list.now) < 2 ^ 32 }
    ensures { result ≡ nesting (code_of list.now) }
{
    let mut most = 0;
    for statement in list {
        most = greater(most, nesting_in(statement));
    }
    most
}

#[cycle(nesting)]
fn nesting_in(statement: &Statement) -> u32
    requires { nesting (before statement.now Stop) < 2 ^ 32 }
    ensures { result ≡ nesting (before statement.now Stop) }
{
    match statement {
        Statement::If { yes, no, .. } => greater(nesting_of(yes), nesting_of(no)),
        Statement::Repeat { body, .. } => 1 + nesting_of(body),
        _ => 0,
    }
}

fn greater(a: u32, b: u32) -> u32
    ensures { result ≡ max a b }
{
    if a < b { b } else { a }
}

/// Whether the number of locals and the depth of a routine's statements in one another are together below 2^32, which
/// `compile` and `put_routine` ask for.
pub fn is_shallow(widths: &[Width], routine: &[Statement]) -> bool
    ensures { result ≡ true ↔ (length widths.now + brackets (code_of routine.now) < 2 ^ 32) }
{
    let most = u32::MAX as usize;
    widths.len() <= most && list_is_within(routine, (most - widths.len()) as u32)
}

// Whether a list's brackets stand at most so deep in one another.
#[cycle(is_shallow)]
fn list_is_within(list: &[Statement], most: u32) -> bool
    ensures { result ≡ true ↔ (brackets (code_of list.now) ≤ most) }
{
    for statement in list {
        if !one_is_within(statement, most) {
            return false;
        }
    }
    true
}

#[cycle(is_shallow)]
fn one_is_within(statement: &Statement, most: u32) -> bool
    ensures { result ≡ true ↔ (brackets (before statement.now Stop) ≤ most) }
{
    match statement {
        Statement::If { yes, no, .. } => {
            if most == 0 {
                return false;
            }
            if !list_is_within(yes, most - 1) {
                return false;
            }
            list_is_within(no, most - 1)
        }
        Statement::Repeat { body, .. } => {
            if most < 2 {
                return false;
            }
            list_is_within(body, most - 2)
        }
        _ => true,
    }
}
