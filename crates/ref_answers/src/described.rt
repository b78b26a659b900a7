//! All listed interfaces in one list, described once.

ghost use Rattle.std.specs.Prelude.{◌≡◌, ◌<◌, IfOk};
ghost use Rattle.wasi_table.specs.Plain.{plain_interface};
ghost use Rattle.reference_step.specs.Listed.{interface_at};
ghost use Rattle.ref_answers.specs.Versions.{AreDescribed};

use std::alloc::Global;
use virt_base::NoMemory;
use wasi_listed::INTERFACES;
use wasi_table::Interface;

#[tactic(auto, unfolding(wasi_listed::specs::Listed::described))]
fn describe(alloc: Global, number: u32) -> Result<Interface, NoMemory>
    requires { number < 27 }
    ensures { IfOk result (λ i. plain_interface i ≡ interface_at number) }
{
    wasi_listed::describe(alloc, number)
}

/// Each of them at the place of its number.
pub fn described(alloc: Global) -> Result<Vec<Interface>, NoMemory>
    ensures { IfOk result (λ all. AreDescribed all.items) }
{
    let mut interfaces = Vec::new(alloc);
    for number in 0..INTERFACES {
        interfaces.push(describe(alloc, number)?)?;
    }
    Ok(interfaces)
}
