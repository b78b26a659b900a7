//! The report: a line for each imported function, what an output would import, and the counts.

ghost use Rattle.std.specs.Prelude.{◌≡◌, IfOk, string_bytes};
ghost use Rattle.inspect_engine.specs.Report.{report, text_alone, text_of, text_under};

use crate::rows::{Row, rows_for};
use crate::texts::{push_count, push_counts, push_imports, push_rows};
use adapter_world::needs_of;
use policy_data::Policy;
use std::alloc::Global;
use virt_base::NoMemory;
use wasi_match::ListedUse;

fn text_alone(alloc: Global, rows: &[Row]) -> Result<String, NoMemory>
    ensures { IfOk result (λ text. string_bytes text ≡ text_alone rows.now) }
{
    let mut text = String::new(alloc);
    push_rows(alloc, rows, &mut text)?;
    push_count(alloc, rows, &mut text)?;
    Ok(text)
}

#[tactic(auto, using(adapter_world::proofs::Below::counting))]
fn text_under(
    alloc: Global,
    policy: &Policy,
    uses: &[ListedUse],
    rows: &[Row],
) -> Result<String, NoMemory>
    ensures { IfOk result (λ text. string_bytes text ≡ text_under policy.now uses.now rows.now) }
{
    let needs = needs_of(alloc, policy, uses)?;
    let mut text = String::new(alloc);
    push_rows(alloc, rows, &mut text)?;
    push_imports(alloc, needs.interfaces.as_slice(), &mut text)?;
    push_counts(alloc, rows, &mut text)?;
    Ok(text)
}

fn text_of(
    alloc: Global,
    policy: &Option<Policy>,
    uses: &[ListedUse],
    rows: &[Row],
) -> Result<String, NoMemory>
    ensures { IfOk result (λ text. string_bytes text ≡ text_of policy.now uses.now rows.now) }
{
    match policy {
        None => text_alone(alloc, rows),
        Some(policy) => text_under(alloc, policy, uses, rows),
    }
}

/// What an application imports, line by line, and what a policy leaves of it.
pub fn report_for(
    alloc: Global,
    policy: &Option<Policy>,
    uses: &[ListedUse],
) -> Result<String, NoMemory>
    ensures { IfOk result (λ text. string_bytes text ≡ report policy.now uses.now) }
{
    let rows = rows_for(alloc, policy, uses)?;
    text_of(alloc, policy, uses, rows.as_slice())
}
