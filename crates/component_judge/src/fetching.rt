//! The bytes of a file are fetched, where they are within a limit.

ghost use Rattle.component_judge.specs.Fetching.{Fetches, IsFaultOf, IsOverOf};

use crate::Refusal;
use crate::unready::Unready;
use outside::{FileFail, Files};
use std::alloc::Global;
use virt_base::Text;

fn file_fault(alloc: Global, name: &Text) -> Unready
    ensures { IsFaultOf name.now result }
{
    match name.copy(alloc) {
        Ok(name) => Unready::FileFault(name),
        Err(_) => Unready::Refused(Refusal::NoMemory),
    }
}

fn over_limit(alloc: Global, what: &str, value: u64) -> Unready
    ensures { IsOverOf what.now value result }
{
    match Text::from_str(alloc, what) {
        Ok(what) => Unready::Refused(Refusal::OverLimit(what, value)),
        Err(_) => Unready::Refused(Refusal::NoMemory),
    }
}

/// The bytes of a file within a limit.
pub fn fetch<F: Files>(
    alloc: Global,
    name: &Text,
    what: &str,
    limit: u64,
    files: &mut F,
) -> Result<Vec<u8>, Unready>
    ensures { Fetches name.now what.now limit (F.state files.old) (F.state files.new) result }
{
    match files.read(alloc, name, limit) {
        Ok(bytes) => Ok(bytes),
        Err(FileFail::Missing) | Err(FileFail::Failed) => Err(file_fault(alloc, name)),
        Err(FileFail::TooLong(len)) => Err(over_limit(alloc, what, len)),
        Err(FileFail::NoMemory) => Err(Unready::Refused(Refusal::NoMemory)),
    }
}
