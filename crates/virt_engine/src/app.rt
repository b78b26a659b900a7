//! The application of `virt`, read from its file and judged.

ghost use Rattle.virt_engine.specs.Apps.{FetchesApp};

use crate::status::Status;
use component_judge::{Fetched, fetch_wrapped};
use outside::Files;
use std::alloc::Global;
use virt_base::Text;

/// The application of a file, with what it is judged.
pub fn fetch_app<F: Files>(alloc: Global, name: &Text, files: &mut F) -> Result<Fetched, Status>
    ensures { FetchesApp name.now (F.state files.old) (F.state files.new) result }
{
    let fetched = fetch_wrapped(alloc, name, files)?;
    Ok(fetched)
}
