//! The table `stdio` of a policy: a word for each of the three standard streams.

ghost use Rattle.policy_toml.specs.Stdio.{stdio_keys, stdio_of};

use crate::reader::{TableReader, optional};
use crate::values::Choice;
use policy_data::{ReadPolicyFault, Stream};
use std::alloc::Global;
use toml::Table;

/// What `stdio` says.
#[derive(Debug, Drop)]
pub struct Stdio {
    pub stdin: Stream,
    pub stdout: Stream,
    pub stderr: Stream,
}

#[derive(Drop)]
pub struct StdioReader;

impl TableReader for StdioReader {
    type Item = Stdio;

    ghost known = { λ _. stdio_keys };

    ghost fields = { λ _. stdio_of };

    fn known(&self) -> &'static [&'static str] {
        &["stdin", "stdout", "stderr"]
    }

    fn fields(&self, alloc: Global, path: &str, table: &Table) -> Result<Stdio, ReadPolicyFault> {
        let stdin = optional(alloc, path, "stdin", Stream::Deny, &Choice::new(), table)?;
        let stdout = optional(alloc, path, "stdout", Stream::Deny, &Choice::new(), table)?;
        let stderr = optional(alloc, path, "stderr", Stream::Deny, &Choice::new(), table)?;
        Ok(Stdio {
            stdin,
            stdout,
            stderr,
        })
    }
}
