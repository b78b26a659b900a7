//! The numbers of resources, one after another.

ghost use Rattle.std.specs.Prelude.{◌≡◌, ◌+◌, IfOk};

use virt_base::NoMemory;

/// The number after a number of a resource. No component has that many that there is none, which counts as no memory.
pub fn next_number(number: u32) -> Result<u32, NoMemory>
    ensures { IfOk result (λ next. next ≡ number + 1) }
{
    match number.checked_add(1) {
        None => Err(NoMemory),
        Some(next) => Ok(next),
    }
}
