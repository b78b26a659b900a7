//! The keys at the top of a policy whose values are numbers or words: `version`, `deny`, `transfer-limit`, `slots`, `random`, `exit` and
//! `sockets`.

ghost use Rattle.toml.specs.View.{table_view};
ghost use Rattle.policy_toml.specs.Reading.{Gives};
ghost use Rattle.policy_toml.specs.Top.{access_of, limits_of, version_in};

use crate::keys::bad_value;
use crate::reader::{Reader, optional};
use crate::values::{Choice, Number};
use policy_data::{Access, Deny, ReadPolicyFault, Sockets, Version};
use std::alloc::Global;
use toml::{Table, Value};

/// The document's own numbers and words.
#[derive(Debug, Drop)]
pub struct Limits {
    pub version: Version,
    pub deny: Deny,
    pub transfer_limit: u32,
    pub slots: u32,
}

#[derive(Drop)]
struct VersionReader;

impl Reader for VersionReader {
    type Item = Version;

    ghost reads = { λ _. version_in };

    fn read(&self, alloc: Global, path: &str, value: &Value) -> Result<Version, ReadPolicyFault> {
        match value.as_integer() {
            Some(1) => Ok(Version::One),
            Some(2) => Ok(Version::Two),
            _ => bad_value(alloc, path),
        }
    }
}

/// The values of `version`, `deny`, `transfer-limit` and `slots`.
pub fn limits_of(alloc: Global, table: &Table) -> Result<Limits, ReadPolicyFault>
    ensures { Gives (limits_of (table_view table.now)) result }
{
    let version = optional(alloc, "", "version", Version::One, &VersionReader, table)?;
    let deny = optional(alloc, "", "deny", Deny::Trap, &Choice::new(), table)?;
    let transfer_limit = optional(
        alloc,
        "",
        "transfer-limit",
        16_777_216,
        &Number {
            least: 65_536,
            greatest: 67_108_864,
        },
        table,
    )?;
    let slots = optional(
        alloc,
        "",
        "slots",
        256,
        &Number {
            least: 1,
            greatest: 4096,
        },
        table,
    )?;
    Ok(Limits {
        version,
        deny,
        transfer_limit,
        slots,
    })
}

/// What the words of the document say on random numbers, on exiting and on sockets.
#[derive(Debug, Drop)]
pub struct Accesses {
    pub random: Access,
    pub exit: Access,
    pub sockets: Sockets,
}

/// The values of `random`, `exit` and `sockets`.
pub fn access_of(alloc: Global, table: &Table) -> Result<Accesses, ReadPolicyFault>
    ensures { Gives (access_of (table_view table.now)) result }
{
    let random = optional(alloc, "", "random", Access::Deny, &Choice::new(), table)?;
    let exit = optional(alloc, "", "exit", Access::Deny, &Choice::new(), table)?;
    let sockets = optional(alloc, "", "sockets", Sockets::Deny, &Choice::new(), table)?;
    Ok(Accesses {
        random,
        exit,
        sockets,
    })
}
