//! Which key of a policy decides the functions of an interface.

ghost use Rattle.std.specs.Prelude.{◌≡◌};
ghost use Rattle.inspect_engine.specs.Texts.{family};

use wasi_listed::{fs, net};

/// `wasi:cli/environment`, the first after those of `wasi:io`.
const ENVIRONMENT: u32 = 3;
/// `wasi:cli/exit`.
const EXIT: u32 = 4;
/// `wasi:cli/stdin`, the first of the streams and terminals.
const STDIN: u32 = 5;
/// The first of `wasi:clocks`.
const CLOCKS: u32 = 13;
/// The first of `wasi:random`.
const RANDOM: u32 = 15;

/// The key of a policy under which the functions of an interface are decided. Those of `wasi:io` have none: they go by their handles.
pub fn family_of(interface: u32) -> &'static str
    ensures { result.now ≡ family interface }
{
    if interface < ENVIRONMENT {
        "io"
    } else if interface < EXIT {
        "env"
    } else if interface < STDIN {
        "exit"
    } else if interface < CLOCKS {
        "stdio"
    } else if interface < RANDOM {
        "clocks"
    } else if interface < fs::FIRST {
        "random"
    } else if interface < net::FIRST {
        "fs"
    } else {
        "sockets"
    }
}
