//! How rows show a value: as it is printed for debugging, without what each row would repeat.

use std::alloc::Global;
use std::fmt::Debug;
use std::test::Fail;

/// What rows leave out of a value that is printed for debugging, piece by piece in this order: the names and braces of
/// structs, and each key of a policy where it says what an empty policy says.
const UNSAID: &str =
    "Items { items: |Text { chars: |Policy { |Variable { |WallTime { |Pass { |EmbeddedFile { |Link { |\
    Embedded { |TreeSource { |Scratch { |PortRange { |Rule { |NetRules { |Network { |VirtWords { |RunWords { |GenWords { |PlugWords { | }|\
    , deny: Trap|, transfer_limit: 16777216|, slots: 256|, env_pass: false|, env_allow: []|, env_set: []|\
    , env_arguments: Deny|, env_cwd: Deny|, stdio_stdin: Deny|, stdio_stdout: Deny|, stdio_stderr: Deny|\
    , clocks_wall: Deny|, clocks_monotonic: Deny|, random: Deny|, exit: Deny|, sockets: Deny|, fs_host: Deny|\
    , fs_pass: []|, fs_tree: []|, fs_scratch: None|, net: connect: [], bind: [], names: false|version: One, |version: One";

/// A text without a piece, wherever that stands.
fn without(alloc: Global, text: &str, piece: &str) -> Result<String, Fail> {
    let mut left = String::new(alloc);
    for part in text.split(piece) {
        left.push_str(part)?;
    }
    Ok(left)
}

/// A value as it is printed for debugging.
pub fn printed<T: Debug>(alloc: Global, value: &T) -> Result<String, Fail> {
    Ok(format!(in alloc; "{value:?}")?)
}

/// A value as rows give it.
pub fn shown<T: Debug>(alloc: Global, value: &T) -> Result<String, Fail> {
    let mut text = printed(alloc, value)?;
    for piece in UNSAID.split('|') {
        text = without(alloc, text.as_str(), piece)?;
    }
    Ok(text)
}
