//! The functions of the transfer area.

ghost use Rattle.std.specs.Prelude.{◌≡◌, ◌++◌, ◌∷◌, [], Option, IfOk, OnOk};
ghost use Rattle.adapter_code.specs.declared.statement.Width.{Width as WidthOf};
ghost use Rattle.adapter_code.specs.Layout.{Fits};
ghost use Rattle.adapter_transfer.specs.Transfer.{last_at as last_of, room_code, rounded_code, next_code, give_code, realloc_code, reset_code, body_of, IsRealloc, IsReset};

use crate::instructions::{constant, get, get_end, numeric, set, set_end};
use adapter_code::Layout;
use std::alloc::Global;
use virt_base::{Items, NoMemory};
use wasm_ast::{BlockType, Body, Instr};

/// The body of the adapter's realloc, a function of four parameters (CanonicalABI.md, "realloc").
///
/// The module's global 0 is the end of the used part of the transfer area. A request is answered with it, and it moves on by
/// the next multiple of 8 of the request's length; a request that passes the area's end traps. Nothing is ever freed or moved.
pub fn realloc(alloc: Global, layout: &Layout) -> Result<Body, NoMemory>
    requires { Fits layout.now }
    ensures code { IfOk result (λ body. body ≡ body_of (realloc_code layout.now)) }
    ensures does { IfOk result (λ body. IsRealloc layout.now body) }
{
    let mut code = Vec::new(alloc);
    put_room(&mut code, layout)?;
    put_next(&mut code)?;
    put_give(&mut code)?;
    closed(alloc, code)
}

/// The body of a post-return, whatever the flat results that it takes: the transfer area is unused again.
pub fn reset(alloc: Global, layout: &Layout) -> Result<Body, NoMemory>
    requires { Fits layout.now }
    ensures code { IfOk result (λ body. body ≡ body_of (reset_code layout.now)) }
    ensures does { IfOk result (λ body. (flat : Option WidthOf) → IsReset layout.now flat body) }
{
    let mut code = Vec::new(alloc);
    put_reset(&mut code, layout)?;
    closed(alloc, code)
}

fn put_reset(out: &mut Vec<Instr>, layout: &Layout) -> Result<(), NoMemory>
    requires { Fits layout.now }
    ensures { OnOk result (out.new.items ≡ out.old.items ++ reset_code layout.now) }
{
    put(out, constant(layout.transfer_at() as u64))?;
    put(out, set_end())
}

// A trap where fewer bytes are left than are asked for.
fn put_room(out: &mut Vec<Instr>, layout: &Layout) -> Result<(), NoMemory>
    requires { Fits layout.now }
    ensures { OnOk result (out.new.items ≡ out.old.items ++ room_code layout.now) }
{
    put(out, constant(last_at(layout)))?;
    put(out, get_end())?;
    put(out, numeric(0x6B))?;
    put(out, get(3))?;
    put(out, numeric(0x49))?;
    put(out, Instr::If(BlockType::Empty))?;
    put(out, Instr::Unreachable)?;
    put(out, Instr::End)
}

// The end after what is asked for.
fn put_next(out: &mut Vec<Instr>) -> Result<(), NoMemory>
    ensures { OnOk result (out.new.items ≡ out.old.items ++ next_code) }
{
    put(out, get(3))?;
    put_rounded(out)?;
    put(out, get_end())?;
    put(out, numeric(0x6A))?;
    put(out, set(3))
}

// The next multiple of 8 of an operand.
fn put_rounded(out: &mut Vec<Instr>) -> Result<(), NoMemory>
    ensures { OnOk result (out.new.items ≡ out.old.items ++ rounded_code) }
{
    put(out, constant(7))?;
    put(out, numeric(0x6A))?;
    put(out, constant(3))?;
    put(out, numeric(0x76))?;
    put(out, constant(3))?;
    put(out, numeric(0x74))
}

// The answer, and the new end.
fn put_give(out: &mut Vec<Instr>) -> Result<(), NoMemory>
    ensures { OnOk result (out.new.items ≡ out.old.items ++ give_code) }
{
    put(out, get_end())?;
    put(out, get(3))?;
    put(out, set_end())
}

// The last multiple of 8 in the area.
fn last_at(layout: &Layout) -> u64
    requires { Fits layout.now }
    ensures { result ≡ last_of layout.now }
{
    layout.transfer_at() as u64 + layout.transfer as u64 / 8 * 8
}

// A body without further locals.
fn closed(alloc: Global, mut code: Vec<Instr>) -> Result<Body, NoMemory>
    ensures { IfOk result (λ body. body ≡ body_of code.items) }
{
    code.push(Instr::End)?;
    let locals = Items::empty(alloc);
    let code = Items::new(code);
    Ok(Body { locals, code })
}

// One more instruction.
fn put(out: &mut Vec<Instr>, instr: Instr) -> Result<(), NoMemory>
    ensures { OnOk result (out.new.items ≡ out.old.items ++ instr ∷ []) }
{
    out.push(instr)?;
    Ok(())
}
