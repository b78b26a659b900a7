//! The bodies of the stubs' functions: the routine before, and where it leaves a flag that is not 0, the call of the host's function and
//! the routine after.

ghost use Rattle.std.specs.Prelude.{◌≡◌, suc, ◌+◌, ◌<◌, ◌≤◌, ◌^◌, max, ◌++◌, ◌∷◌, [], IfOk, OnOk, length};
ghost use Rattle.adapter_code.specs.Code.{code_of};
ghost use Rattle.adapter_compile.specs.Instructions.{get as get_of};
ghost use Rattle.adapter_compile.specs.Bounds.{brackets};
ghost use Rattle.adapter_stubs.specs.Stub.{gets, result_at, keeps_result, host_code};
ghost use Rattle.adapter_stubs.specs.Widths.{gives as gives_of, host_params, stub_widths as stub_widths_of, flag_of, result_of as result_in};
ghost use Rattle.adapter_stubs.specs.Bodies.{host_call as host_call_of, asking_code, answer_code, stub_body as stub_body_of, counters_of, IsStub};

use crate::host_call::HostCall;
use crate::stub::{HostFunc, Stub};
use crate::widths::stub_widths;
use adapter_code::{Statement, Width};
use adapter_compile::{HandleCalls, declared, nesting_of, put_routine};
use std::alloc::Global;
use virt_base::{CoreType, Items, NoMemory};
use wasm_ast::{BlockType, Body, Instr, Op};

/// The body of a stub's function; its host's function has this index.
pub fn stub_body(alloc: Global, calls: &HandleCalls, at: u32, stub: &Stub) -> Result<Body, NoMemory>
    requires { IsStub stub.now }
    ensures { IfOk result (λ body. body ≡ stub_body_of calls.now at stub.now) }
{
    let widths = stub_widths(alloc, stub)?;
    let mut code = Vec::new(alloc);
    put_routine(alloc, &mut code, &widths, calls, &stub.before)?;
    put_asking(alloc, &mut code, &widths, calls, at, stub)?;
    put_answer(&mut code, result_of(stub), stub.flat.results.as_slice())?;
    code.push(Instr::End)?;
    let params = stub.flat.params.len();
    let locals = declared(alloc, &widths[params..], counters(stub))?;
    let code = Items::new(code);
    Ok(Body { locals, code })
}

fn counters(stub: &Stub) -> u32
    requires { IsStub stub.now }
    ensures { result ≡ counters_of stub.now }
{
    let before = nesting_of(&stub.before);
    let after = nesting_of(&stub.after);
    if before < after { after } else { before }
}

// Where the flat result stands.
fn result_of(stub: &Stub) -> u32
    requires { IsStub stub.now }
    ensures { result ≡ result_in stub.now }
{
    stub.flat.params.len() as u32 + 1 + host_len(&stub.host)
}

fn host_len(host: &Option<HostFunc>) -> u32
    requires { length (host_params host.now) ≤ 40000 }
    ensures { result ≡ length (host_params host.now) }
{
    match host {
        Some(host) => host.flat.params.len() as u32,
        None => 0,
    }
}

fn put_asking(
    alloc: Global,
    out: &mut Vec<Instr>,
    widths: &[Width],
    calls: &HandleCalls,
    at: u32,
    stub: &Stub,
) -> Result<(), NoMemory>
    requires stub { IsStub stub.now }
    requires widths { widths.now ≡ stub_widths_of stub.now }
    ensures { OnOk result (out.new.items ≡ out.old.items ++ asking_code calls.now at stub.now stub.now.host) }
{
    match &stub.host {
        Some(host) => {
            let flag = stub.flat.params.len() as u32;
            let call = host_call(at, host);
            put_host(alloc, out, widths, calls, flag, call, &stub.after)
        }
        None => Ok(()),
    }
}

fn host_call(function: u32, host: &HostFunc) -> HostCall
    requires { length host.now.flat.params ≤ 40000 }
    ensures { result ≡ host_call_of function host.now }
{
    let params = host.flat.params.len() as u32;
    let gives = gives(host.flat.results.as_slice());
    HostCall {
        function,
        params,
        gives,
    }
}

fn gives(results: &[CoreType]) -> bool
    ensures { result ≡ gives_of results.now }
{
    match results {
        [_, ..] => true,
        [] => false,
    }
}

// The question to the host, and the routine after it, where the flag is not 0.
fn put_host(
    alloc: Global,
    out: &mut Vec<Instr>,
    widths: &[Width],
    calls: &HandleCalls,
    flag: u32,
    call: HostCall,
    after: &[Statement],
) -> Result<(), NoMemory>
    requires few { flag + call.params ≤ 80000 }
    requires shallow { length widths.now + brackets (code_of after.now) < 2 ^ 32 }
    ensures { OnOk result (out.new.items ≡ out.old.items ++ host_code widths.now calls.now flag call (code_of after.now)) }
{
    put(out, get(flag))?;
    put(out, Instr::If(BlockType::Empty))?;
    put_gets(out, flag + 1, call.params)?;
    put(out, Instr::Call(call.function))?;
    put_keeps(out, flag, call)?;
    put_routine(alloc, out, widths, calls, after)?;
    put(out, Instr::End)
}

fn put_gets(out: &mut Vec<Instr>, from: u32, count: u32) -> Result<(), NoMemory>
    requires { from + count ≤ 80001 }
    ensures { OnOk result (out.new.items ≡ out.old.items ++ gets from count) }
{
    for i in 0..count {
        put(out, get(from + i))?;
    }
    Ok(())
}

fn put_keeps(out: &mut Vec<Instr>, flag: u32, call: HostCall) -> Result<(), NoMemory>
    requires { flag + call.params ≤ 80000 }
    ensures { OnOk result (out.new.items ≡ out.old.items ++ keeps_result flag call) }
{
    if call.gives {
        put(out, Instr::Plain(Op::LocalSet(flag + 1 + call.params)))?;
    }
    Ok(())
}

fn put_answer(out: &mut Vec<Instr>, at: u32, results: &[CoreType]) -> Result<(), NoMemory>
    ensures { OnOk result (out.new.items ≡ out.old.items ++ answer_code at results.now) }
{
    match results {
        [_, ..] => put(out, get(at)),
        [] => Ok(()),
    }
}

fn get(local: u32) -> Instr
    ensures { result ≡ get_of local }
{
    Instr::Plain(Op::LocalGet(local))
}

// One more instruction.
fn put(out: &mut Vec<Instr>, instr: Instr) -> Result<(), NoMemory>
    ensures { OnOk result (out.new.items ≡ out.old.items ++ instr ∷ []) }
{
    out.push(instr)?;
    Ok(())
}
