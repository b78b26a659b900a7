//! The reader of a whole policy: its text as a TOML document (TOML 1.0), and the tables of that in the order of the policy's fields.

ghost use Rattle.std.specs.Prelude.{◌≡◌, ◌≤◌, length, IfOk};
ghost use Rattle.toml.specs.View.{table_view};
ghost use Rattle.policy_data.specs.Limits.{KeepsLimits};
ghost use Rattle.policy_data.specs.Sizes.{policy_size};
ghost use Rattle.policy_toml.specs.Reading.{Gives};
ghost use Rattle.policy_toml.specs.Policy.{GivesPolicy, back_of, front_of, policy_from, policy_of};

use crate::clocks::{Clocks, ClocksReader};
use crate::env::{Env, EnvReader};
use crate::fs::{Fs, FsReader};
use crate::keys::known_keys;
use crate::net::net_at;
use crate::reader::part;
use crate::stdio::{Stdio, StdioReader};
use crate::top::{Accesses, Limits, access_of, limits_of};
use policy_data::{NetRules, Policy, ReadPolicyFault, Version};
use std::alloc::Global;
use toml::Table;

/// The values up to `clocks`.
#[derive(Debug, Drop)]
pub struct Front {
    pub limits: Limits,
    pub env: Env,
    pub stdio: Stdio,
    pub clocks: Clocks,
}

/// The values from `random` on.
#[derive(Debug, Drop)]
pub struct Back {
    pub access: Accesses,
    pub fs: Fs,
    pub net: NetRules,
}

fn front_of(alloc: Global, table: &Table) -> Result<Front, ReadPolicyFault>
    ensures { Gives (front_of (table_view table.now)) result }
{
    let keys = [
        "version",
        "deny",
        "transfer-limit",
        "slots",
        "env",
        "stdio",
        "clocks",
        "random",
        "exit",
        "sockets",
        "fs",
        "net",
    ];
    known_keys(alloc, "", &keys, table)?;
    let limits = limits_of(alloc, table)?;
    let env = part(alloc, "env", EnvReader, table)?;
    let stdio = part(alloc, "stdio", StdioReader, table)?;
    let clocks = part(alloc, "clocks", ClocksReader, table)?;
    Ok(Front {
        limits,
        env,
        stdio,
        clocks,
    })
}

fn back_of(alloc: Global, version: Version, table: &Table) -> Result<Back, ReadPolicyFault>
    ensures { Gives (back_of version (table_view table.now)) result }
{
    let access = access_of(alloc, table)?;
    let fs = part(alloc, "fs", FsReader { version }, table)?;
    let net = net_at(alloc, access.sockets, table)?;
    Ok(Back { access, fs, net })
}

fn policy_from(front: Front, back: Back) -> Policy
    ensures { result ≡ policy_from front back }
{
    let Front {
        limits,
        env,
        stdio,
        clocks,
    } = front;
    let Env {
        pass,
        allow,
        set,
        arguments,
        cwd,
    } = env;
    let Back { access, fs, net } = back;
    let Fs {
        host,
        pass: passes,
        tree,
        scratch,
    } = fs;
    Policy {
        version: limits.version,
        deny: limits.deny,
        transfer_limit: limits.transfer_limit,
        slots: limits.slots,
        env_pass: pass,
        env_allow: allow,
        env_set: set,
        env_arguments: arguments,
        env_cwd: cwd,
        stdio_stdin: stdio.stdin,
        stdio_stdout: stdio.stdout,
        stdio_stderr: stdio.stderr,
        clocks_wall: clocks.wall,
        clocks_monotonic: clocks.monotonic,
        random: access.random,
        exit: access.exit,
        sockets: access.sockets,
        fs_host: host,
        fs_pass: passes,
        fs_tree: tree,
        fs_scratch: scratch,
        net,
    }
}

fn policy_of(alloc: Global, table: &Table) -> Result<Policy, ReadPolicyFault>
    ensures { Gives (policy_of (table_view table.now)) result }
{
    let front = front_of(alloc, table)?;
    let version = front.limits.version;
    let back = back_of(alloc, version, table)?;
    Ok(policy_from(front, back))
}

/// The policy that a text stands for, or its first fault. Tables are read depth first: a table's unknown keys are tested
/// as it is reached, the least in byte order first, and then its keys in the order of `Policy`'s fields. A policy
/// keeps the limits and checks of its text, and its strings and embedded bytes are together no longer than the text.
#[tactic(auto, using(crate::proofs::PolicySizes::policy_bounded))]
pub fn read_policy(alloc: Global, text: &[u8]) -> Result<Policy, ReadPolicyFault>
    ensures gives { GivesPolicy text.now result }
    ensures kept { IfOk result KeepsLimits }
    ensures bounded { IfOk result (λ policy. policy_size policy ≤ length text.now) }
{
    match toml::table_from_slice(alloc, text) {
        Ok(table) => policy_of(alloc, &table),
        Err(e) if e.is_memory() => Err(ReadPolicyFault::NoMemory),
        Err(_) => Err(ReadPolicyFault::NotToml),
    }
}
