//! The reference host under a policy, over a host that answers by a script.

ghost use Rattle.std.specs.Prelude.{IfOk};
ghost use Rattle.policy_data.specs.Limits.{KeepsLimits};
ghost use Rattle.mount_tree.specs.Woods.{AreBuilt};

use crate::calls::script_of;
use host_script::{ExportTypes, ScriptHost};
use mount_tree::build;
use outside::{Contents, Entry, EntryKind, MemFiles, Named};
use policy_data::Policy;
use policy_toml::read_policy;
use reference_host::Referenced;
use std::alloc::Global;
use std::test::Fail;
use tree_table::Trees;
use virt_base::{Items, Text, copy_bytes};
use wasi_match::Listed;

pub type Under = Referenced<ScriptHost>;

/// The files outside: `d/x`, of three bytes, in the folder `d`.
fn files(alloc: Global) -> Result<MemFiles, Fail> {
    let mut contents = Contents {
        files: Items::empty(alloc),
        folders: Items::empty(alloc),
    };
    contents.files.push(Named {
        name: Text::from_str(alloc, "d/x")?,
        value: copy_bytes(alloc, b"xyz")?,
    })?;
    let mut entries = Items::empty(alloc);
    entries.push(Entry {
        name: Text::from_str(alloc, "x")?,
        kind: EntryKind::File,
    })?;
    contents.folders.push(Named {
        name: Text::from_str(alloc, "d")?,
        value: entries,
    })?;
    if !contents.is_in_order() {
        return Err(Fail::from("no order"));
    }
    Ok(MemFiles::new(alloc, contents, Items::empty(alloc))?)
}

fn trees_of(alloc: Global, policy: &Policy) -> Result<Trees, Fail>
    requires { KeepsLimits policy.now }
    ensures { IfOk result AreBuilt }
{
    let mut files = files(alloc)?;
    match build(alloc, policy, &mut files) {
        Ok(trees) => Ok(trees),
        Err(_) => Err(Fail::from("no trees")),
    }
}

fn policy_of(alloc: Global, text: &str) -> Result<Policy, Fail>
    ensures { IfOk result KeepsLimits }
{
    match read_policy(alloc, text.as_bytes()) {
        Ok(policy) => Ok(policy),
        Err(_) => Err(Fail::from("the policy is refused")),
    }
}

/// The reference host under a policy for an application with these imports, over a host that gives these answers.
pub fn host_of(alloc: Global, policy: &str, listed: &Listed, answers: &str) -> Result<Under, Fail> {
    let host = ScriptHost::new(script_of(alloc, &ExportTypes::none(alloc), answers, "")?.answers);
    let policy = policy_of(alloc, policy)?;
    let trees = trees_of(alloc, &policy)?;
    Ok(Referenced::new(alloc, policy, trees, listed, host)?)
}
