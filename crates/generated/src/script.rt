//! What a run of the generated component needs besides it: a script (JSON, RFC 8259) with an answer for each call of the host, and a policy
//! (TOML 1.0).

ghost use Rattle.std.specs.Prelude.{◌≡◌, ◌≤◌, ◌*◌, ◌++◌, IfOk, OnOk, string_bytes};
ghost use Rattle.generated.specs.Generated.{policy_text};
ghost use Rattle.generated.specs.Scripts.{answer_text, call_text, comma, host_calls, script_text, spaced};

use crate::items::random_calls;
use std::alloc::{AllocError, Global};

/// How many calls of the host that many functions make, each called once.
fn host_calls(functions: u32) -> u64
    ensures value { result ≡ host_calls functions }
    ensures few { result ≤ functions * 3 }
{
    let mut calls: u64 = 0;
    for i in 0..functions {
        calls += u64::from(random_calls(i));
    }
    calls
}

/// Adds what stands before the k-th text of a list.
#[tactic(auto, using(crate::proofs::Commas::comma_later))]
fn put_comma(out: &mut String, k: u64) -> Result<(), AllocError>
    ensures { OnOk result (string_bytes out.new ≡ string_bytes out.old ++ comma k) }
{
    if k == 0 {
        return Ok(());
    }
    out.push_str(",")
}

/// Adds that many answers: the k-th is 1000003 k + 7.
fn put_answers(alloc: Global, out: &mut String, count: u64) -> Result<(), AllocError>
    requires { count ≤ 12884901885 }
    ensures { OnOk result (string_bytes out.new ≡ string_bytes out.old ++ spaced answer_text count) }
{
    for k in 0..count {
        put_comma(out, k)?;
        let answer = 1_000_003 * k + 7;
        let text = format!(in alloc; "{{\"value\":{answer}}}")?;
        out.push_str(text.as_str())?;
    }
    Ok(())
}

/// Adds a call of each function.
fn put_calls(alloc: Global, out: &mut String, functions: u64) -> Result<(), AllocError>
    ensures { OnOk result (string_bytes out.new ≡ string_bytes out.old ++ spaced call_text functions) }
{
    for i in 0..functions {
        put_comma(out, i)?;
        let text = format!(in alloc; "[\"f{i}\",[]]")?;
        out.push_str(text.as_str())?;
    }
    Ok(())
}

/// The script over which a component of that many functions runs.
#[tactic(auto, unfolding(crate::specs::Scripts::script_text))]
pub fn generated_script(alloc: Global, functions: u32) -> Result<String, AllocError>
    ensures { IfOk result (λ out. string_bytes out ≡ script_text functions) }
{
    let mut out = String::from_str(alloc, "{\"answers\":[")?;
    put_answers(alloc, &mut out, host_calls(functions))?;
    out.push_str("],\"calls\":[")?;
    put_calls(alloc, &mut out, u64::from(functions))?;
    out.push_str("]}")?;
    Ok(out)
}

/// The policy under which a generated component is wrapped and run.
#[tactic(auto, unfolding(crate::specs::Generated::policy_text))]
pub fn generated_policy(alloc: Global) -> Result<String, AllocError>
    ensures { IfOk result (λ out. string_bytes out ≡ policy_text) }
{
    String::from_str(alloc, "random = \"allow\"\nclocks.monotonic = 5\n")
}
