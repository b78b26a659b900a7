//! Rows: the texts inside a policy, read one by one.

use crate::holding::{hold, parts};
use crate::shown::shown;
use path_names::{holds_byte, is_path};
use policy_text::{Paths, hex_bytes, network_of};
use std::alloc::Global;
use std::test::Fail;

/// Digits, paths, bytes and networks. A leaf clashes with its own path, and with what lies in it.
const ROWS: &str = "\
hex 0aF9 => Some([10, 249])
hex 0 => None
hex 0g => None
path a/b.c => true
path a//b => false
path a/.. => false
equals a=b => true
equals ab => false
network 10.0.0.0/8 => Some(six: false, numbers: [10, 0, 0, 0], length: 8)
network 10.0.0.0/33 => None
leaf a => true
leaf a-b => true
leaf a/b => false
folder a => false
folder c/d => true
folder c/d => true
leaf c/d => false
leaf c => false";

pub fn read(alloc: Global, paths: &mut Paths, asked: &str) -> Result<String, Fail> {
    let (what, text) = parts(asked, ' ')?;
    match what {
        "hex" => shown(alloc, &hex_bytes(alloc, text.as_bytes())?),
        "path" => shown(alloc, &is_path(text)),
        "equals" => shown(alloc, &holds_byte(text.as_bytes(), b'=')),
        "network" => shown(alloc, &network_of(alloc, text.as_bytes())?),
        _ => shown(alloc, &paths.add(alloc, text, what == "leaf")?),
    }
}

#[test]
fn texts(rt: HostRuntime) -> Result<(), Fail> {
    hold(rt.alloc(), "text", ROWS)
}
