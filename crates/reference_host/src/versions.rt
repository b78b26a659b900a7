//! The versions under which interfaces are listed: those by which the component imports them.

ghost use Rattle.std.specs.Prelude.{◌≡◌, ◌==◌, IfOk};
ghost use Rattle.std.specs.List.{find};
ghost use Rattle.std.specs.Option.{option_copied};
ghost use Rattle.reference_host.specs.Versions.{version_of, versions_of};

use std::alloc::Global;
use virt_base::{NoMemory, Text};
use wasi_match::{Listed, ListedUse};

/// How many interfaces are listed.
const INTERFACES: u32 = 27;

fn use_of(uses: &[ListedUse], interface: u32) -> Option<&ListedUse>
    ensures { option_copied result ≡ find (λ u. u.interface == interface) uses.now }
{
    uses.iter().find(|u| u.interface == interface)
}

/// The version by which an interface is imported.
fn version_of(uses: &[ListedUse], interface: u32) -> &str
    ensures { result.now ≡ version_of uses.now interface }
{
    match use_of(uses, interface) {
        Some(u) => u.version.as_str(),
        None => "0.2.0",
    }
}

/// For each interface, by its number, the version by which it is imported.
pub fn versions_of(alloc: Global, listed: &Listed) -> Result<Vec<Text>, NoMemory>
    ensures { IfOk result (λ versions. versions.items ≡ versions_of listed.now.uses) }
{
    let uses = listed.uses.as_slice();
    let mut versions = Vec::new(alloc);
    for interface in 0..INTERFACES {
        let version = Text::from_str(alloc, version_of(uses, interface))?;
        versions.push(version)?;
    }
    Ok(versions)
}
