//! Tests of policies: blocks of `rows`, and texts that rows cannot hold.

use crate::holding::{hold, same};
use crate::rows;
use crate::shown::shown;
use policy_toml::read_policy;
use std::alloc::Global;
use std::test::Fail;

#[test]
fn documents(rt: HostRuntime) -> Result<(), Fail> {
    hold(rt.alloc(), "policy", rows::DOCUMENTS)
}

#[test]
fn keys_that_stand_alone(rt: HostRuntime) -> Result<(), Fail> {
    hold(rt.alloc(), "policy", rows::TOP)
}

#[test]
fn unknown_keys(rt: HostRuntime) -> Result<(), Fail> {
    hold(rt.alloc(), "policy", rows::UNKNOWN)
}

#[test]
fn first_of_two_faults(rt: HostRuntime) -> Result<(), Fail> {
    hold(rt.alloc(), "policy", rows::ORDER)
}

#[test]
fn environment(rt: HostRuntime) -> Result<(), Fail> {
    hold(rt.alloc(), "policy", rows::ENV)
}

#[test]
fn streams_and_clocks(rt: HostRuntime) -> Result<(), Fail> {
    hold(rt.alloc(), "policy", rows::CLOCKS)
}

#[test]
fn folders(rt: HostRuntime) -> Result<(), Fail> {
    hold(rt.alloc(), "policy", rows::FOLDERS)
}

#[test]
fn trees(rt: HostRuntime) -> Result<(), Fail> {
    hold(rt.alloc(), "policy", rows::TREES)
}

#[test]
fn files(rt: HostRuntime) -> Result<(), Fail> {
    hold(rt.alloc(), "policy", rows::FILES)
}

#[test]
fn places(rt: HostRuntime) -> Result<(), Fail> {
    hold(rt.alloc(), "policy", rows::PLACES)
}

#[test]
fn links(rt: HostRuntime) -> Result<(), Fail> {
    hold(rt.alloc(), "policy", rows::LINKS)
}

#[test]
fn networks(rt: HostRuntime) -> Result<(), Fail> {
    hold(rt.alloc(), "policy", rows::NET)
}

#[test]
fn ports(rt: HostRuntime) -> Result<(), Fail> {
    hold(rt.alloc(), "policy", rows::PORTS)
}

#[test]
fn depths(rt: HostRuntime) -> Result<(), Fail> {
    hold(rt.alloc(), "policy", rows::DEPTHS)
}

#[test]
fn long_lists(rt: HostRuntime) -> Result<(), Fail> {
    hold(rt.alloc(), "policy", rows::LISTS)
}

#[test]
fn long_names(rt: HostRuntime) -> Result<(), Fail> {
    hold(rt.alloc(), "policy", rows::LENGTHS)
}

fn gives(alloc: Global, text: &[u8], wanted: &str) -> Result<(), Fail> {
    let found = shown(alloc, &read_policy(alloc, text))?;
    same("bytes", found.as_str(), wanted)
}

/// Texts that no row can hold: none, and with bytes that are no text, or that are not seen, or a line's end of two bytes.
#[test]
fn bytes_of_documents(rt: HostRuntime) -> Result<(), Fail> {
    let alloc = rt.alloc();
    gives(alloc, b"", "Ok()")?;
    gives(alloc, b"slots = 1\n# \xFF", "Err(NotToml)")?;
    gives(alloc, b"\xEF\xBB\xBFslots = 1", "Ok(slots: 1)")?;
    gives(
        alloc,
        b"env.cwd = '''a\r\nb'''",
        "Ok(env_cwd: Given(\"a\\r\\nb\"))",
    )
}
