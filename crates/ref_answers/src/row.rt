//! What a function does that is answered without the host: it traps, or it answers a value and changes a handle.

#![tactic(auto, using(wit_types::proofs::ValueLemmas::values))]

ghost use Rattle.std.specs.Prelude.{◌≡◌, IfOk};
ghost use Rattle.reference_step.specs.State.{returns, fails, gives, gives_ok, moves};
ghost use Rattle.wit_types.specs.PlainValue.{plain_value};
ghost use Rattle.tree_table.specs.Tables.{Forest};
ghost use Rattle.ref_answers.specs.Seen.{content_in};
ghost use Rattle.ref_answers.specs.Shown.{shown};

use crate::values::{error_code, ok};
use ref_rules::Content;
use std::alloc::Global;
use virt_base::NoMemory;
use wit_types::Value;

/// What a function does that is answered without the host.
#[derive(Debug, Drop)]
pub enum Row {
    Traps,
    Does(Effect),
}

/// It returns a value, in which a handle stands for what is made, and its first handle may stand for something else then.
#[derive(Debug, Drop)]
pub struct Effect {
    pub value: Option<Value>,
    pub makes: Option<Content>,
    pub becomes: Option<Content>,
}

/// It returns a value, and changes nothing.
pub fn returns(value: Value) -> Row
    ensures { (f : Forest) → shown f result ≡ returns (plain_value value) }
{
    Row::Does(Effect {
        value: Some(value),
        makes: None,
        becomes: None,
    })
}

/// It returns a new handle.
pub fn gives(content: Content) -> Row
    ensures { (f : Forest) → shown f result ≡ gives (content_in f content) }
{
    Row::Does(Effect {
        value: Some(Value::Handle(0)),
        makes: Some(content),
        becomes: None,
    })
}

/// It returns an error code.
pub fn fails(alloc: Global, code: u32) -> Result<Row, NoMemory>
    ensures { IfOk result (λ row. (f : Forest) → shown f row ≡ fails code) }
{
    Ok(returns(error_code(alloc, code)?))
}

/// It returns a new handle as `ok`.
pub fn gives_ok(alloc: Global, content: Content) -> Result<Row, NoMemory>
    ensures { IfOk result (λ row. (f : Forest) → shown f row ≡ gives_ok (content_in f content)) }
{
    Ok(Row::Does(Effect {
        value: Some(ok(alloc, Value::Handle(0))?),
        makes: Some(content),
        becomes: None,
    }))
}

/// It returns a value, and its first handle stands for something else.
pub fn moves(content: Content, value: Value) -> Row
    ensures { (f : Forest) → shown f result ≡ moves (content_in f content) (plain_value value) }
{
    Row::Does(Effect {
        value: Some(value),
        makes: None,
        becomes: Some(content),
    })
}
