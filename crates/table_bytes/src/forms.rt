//! Parts of routines that come again and again.

ghost use Rattle.std.specs.Prelude.{◌≡◌, IfOk};
ghost use Rattle.adapter_code.specs.Code.{Code, Stop, Choose, before, code_of};
ghost use Rattle.table_bytes.specs.Forms.{plus_code, minus_code, element_code};

use adapter_code::{Statement, Statements, add, choose, constant, multiply, subtract};
use std::alloc::Global;
use virt_base::NoMemory;

/// Runs a list where a local is not 0.
pub fn when(alloc: Global, test: u32, list: Statements) -> Statement
    ensures { (rest : Code) → before result rest ≡ Choose test (code_of list.items) Stop rest }
{
    choose(test, list, Vec::new(alloc))
}

/// Runs a list where a local is 0.
pub fn unless(alloc: Global, test: u32, list: Statements) -> Statement
    ensures { (rest : Code) → before result rest ≡ Choose test Stop (code_of list.items) rest }
{
    choose(test, Vec::new(alloc), list)
}

/// Sets a local to another one and a constant; the two locals differ.
pub fn plus(alloc: Global, to: u32, a: u32, value: u64) -> Result<Statements, NoMemory>
    ensures { IfOk result (λ list. code_of list.items ≡ plus_code to a value Stop) }
{
    let list = vec![in alloc; constant(to, value), add(to, a, to)]?;
    Ok(list)
}

/// Sets a local to another one less a constant, which `scratch` holds meanwhile.
pub fn minus(
    alloc: Global,
    to: u32,
    a: u32,
    value: u64,
    scratch: u32,
) -> Result<Statements, NoMemory>
    ensures { IfOk result (λ list. code_of list.items ≡ minus_code to a value scratch Stop) }
{
    let list = vec![in alloc; constant(scratch, value), subtract(to, a, scratch)]?;
    Ok(list)
}

/// Sets a local to the place of an element of that many bytes after a base: `base` and `index` are locals.
pub fn element(
    alloc: Global,
    to: u32,
    base: u32,
    index: u32,
    size: u64,
    scratch: u32,
) -> Result<Statements, NoMemory>
    ensures { IfOk result (λ list. code_of list.items ≡ element_code to base index size scratch Stop) }
{
    let list = vec![in alloc;
        constant(scratch, size),
        multiply(to, index, scratch),
        add(to, to, base),
    ]?;
    Ok(list)
}
