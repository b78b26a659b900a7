//! What a policy says as a whole, with the limits of each field. What fields are made of stands in `data` and `words`.

use crate::data::{
    Arguments, MonotonicClock, NetRules, Passes, Scratch, Texts, TreeSources, Variables, WallClock,
    WorkingDirectory,
};
use crate::words::{Access, Deny, HostFiles, Sockets, Stream, Version};

/// What a policy says: one field for each of its keys, under the key's path with `_` for a dot or a dash.
#[derive(Debug, Drop)]
pub struct Policy {
    pub version: Version,
    pub deny: Deny,
    /// The most bytes of a call's arguments and answer: 65536 to 67108864.
    pub transfer_limit: u32,
    /// The most handles of each kind: 1 to 4096.
    pub slots: u32,
    /// Whether all of the host's variables are passed.
    pub env_pass: bool,
    /// The host's variables that are passed, at most 1024.
    pub env_allow: Texts,
    /// Variables of the policy's own in byte order of their names, at most 1024.
    pub env_set: Variables,
    pub env_arguments: Arguments,
    pub env_cwd: WorkingDirectory,
    pub stdio_stdin: Stream,
    pub stdio_stdout: Stream,
    pub stdio_stderr: Stream,
    pub clocks_wall: WallClock,
    pub clocks_monotonic: MonotonicClock,
    pub random: Access,
    pub exit: Access,
    pub sockets: Sockets,
    pub fs_host: HostFiles,
    /// At most 64; empty beside all of the host's folders.
    pub fs_pass: Passes,
    /// At most 64.
    pub fs_tree: TreeSources,
    pub fs_scratch: Option<Scratch>,
    /// Without rules where the sockets do not go by rules.
    pub net: NetRules,
}
