//! The matching of imports with the listed interfaces: what is said of a component with these imports and exports. `listed`, and for
//! each import the number of its interface, its version and the places of its functions; or the first fault.

mod entries;
mod types;

use crate::matching::entries::component;
use crate::rows::{same, sides};
use crate::words::{named, put, said};
use std::alloc::Global;
use std::process::Abort;
use std::test::Fail;
use wasi_match::{Listed, MatchFault, match_imports};

fn listed(alloc: Global, listed: &Listed) -> Result<String, Fail> {
    let mut text = said(alloc, "listed")?;
    for one in listed.uses.as_slice() {
        put(alloc, &mut text, " ", &one.interface)?;
        text.push('@')?;
        text.push_str(one.version.as_str())?;
        let mut before = ":";
        for place in one.functions.as_slice() {
            put(alloc, &mut text, before, place)?;
            before = ",";
        }
        if one.functions.as_slice().is_empty() {
            text.push(':')?;
        }
    }
    Ok(text)
}

fn outcome(alloc: Global, imports: &str, exports: &str) -> Result<String, Fail> {
    let ty = component(alloc, imports, exports)?;
    match match_imports(alloc, &ty) {
        Ok(found) => listed(alloc, &found),
        Err(MatchFault::Unlisted(name)) => named(alloc, "unlisted ", name.as_str()),
        Err(MatchFault::TwoVersions(name)) => named(alloc, "two-versions ", name.as_str()),
        Err(MatchFault::WrongType(name)) => named(alloc, "wrong-type ", name.as_str()),
        Err(MatchFault::HandleExport(name)) => named(alloc, "handle-export ", name.as_str()),
        Err(MatchFault::NoMemory) => said(alloc, "no memory"),
    }
}

/// Imports, exports, and what is said of a component with them.
const ROWS: &str = "\
# Names and versions
nothing | nothing => listed
instance wasi:random/random@0.2.0; func get-random-u64 -> u64; end | nothing => listed 15@0.2.0:1
instance wasi:random/random@0.2.0; func get-random-u64 -> u64; func get-random-bytes u64 -> list u8; end | nothing => listed 15@0.2.0:1,0
instance wasi:random/random@0.2.0; end | nothing => listed 15@0.2.0:
instance wasi:random/random@0.2.9; end | nothing => listed 15@0.2.9:
instance wasi:random/random@0.2.10; end | nothing => listed 15@0.2.10:
instance wasi:random/random@0.2.999; end | nothing => listed 15@0.2.999:
instance wasi:random/random@0.2.1000; end | nothing => unlisted wasi:random/random@0.2.1000
instance wasi:random/random@0.2.00; end | nothing => unlisted wasi:random/random@0.2.00
instance wasi:random/random@0.2.01; end | nothing => unlisted wasi:random/random@0.2.01
instance wasi:random/random@0.2.0-rc; end | nothing => unlisted wasi:random/random@0.2.0-rc
instance wasi:random/random@0.2.0+a; end | nothing => unlisted wasi:random/random@0.2.0+a
instance wasi:random/random@0.2.; end | nothing => unlisted wasi:random/random@0.2.
instance wasi:random/random@0.2; end | nothing => unlisted wasi:random/random@0.2
instance wasi:random/random@0.20; end | nothing => unlisted wasi:random/random@0.20
instance wasi:random/random@0.3.0; end | nothing => unlisted wasi:random/random@0.3.0
instance wasi:random/random@10.2.0; end | nothing => unlisted wasi:random/random@10.2.0
instance wasi:random/random@; end | nothing => unlisted wasi:random/random@
instance wasi:random/random; end | nothing => unlisted wasi:random/random
instance wasi:random/Random@0.2.0; end | nothing => unlisted wasi:random/Random@0.2.0
instance wasi:random/rando@0.2.0; end | nothing => unlisted wasi:random/rando@0.2.0
instance wasi:random/random@0.2.0@0.2.0; end | nothing => unlisted wasi:random/random@0.2.0@0.2.0
instance wasi:http/types@0.2.0; end | nothing => unlisted wasi:http/types@0.2.0
instance wasi:clocks/timezone@0.2.0; end | nothing => unlisted wasi:clocks/timezone@0.2.0
func f | nothing => unlisted f
func wasi:random/random@0.2.0 | nothing => unlisted wasi:random/random@0.2.0
type t u8 | nothing => unlisted t
resource r 1 | nothing => unlisted r
# Interfaces that are imported twice, and which fault comes first
instance wasi:io/error@0.2.0; end; instance wasi:io/poll@0.2.1; end; instance wasi:io/streams@0.2.2; end; instance wasi:cli/environment@0.2.3; end; instance wasi:cli/exit@0.2.4; end; instance wasi:cli/stdin@0.2.5; end; instance wasi:cli/stdout@0.2.6; end; instance wasi:cli/stderr@0.2.7; end; instance wasi:cli/terminal-input@0.2.8; end; instance wasi:cli/terminal-output@0.2.9; end; instance wasi:cli/terminal-stdin@0.2.10; end; instance wasi:cli/terminal-stdout@0.2.11; end; instance wasi:cli/terminal-stderr@0.2.12; end; instance wasi:clocks/wall-clock@0.2.13; end; instance wasi:clocks/monotonic-clock@0.2.14; end; instance wasi:random/random@0.2.15; end; instance wasi:random/insecure@0.2.16; end; instance wasi:random/insecure-seed@0.2.17; end; instance wasi:filesystem/types@0.2.18; end; instance wasi:filesystem/preopens@0.2.19; end; instance wasi:sockets/network@0.2.20; end; instance wasi:sockets/instance-network@0.2.21; end; instance wasi:sockets/ip-name-lookup@0.2.22; end; instance wasi:sockets/tcp@0.2.23; end; instance wasi:sockets/tcp-create-socket@0.2.24; end; instance wasi:sockets/udp@0.2.25; end; instance wasi:sockets/udp-create-socket@0.2.26; end | nothing => listed 0@0.2.0: 1@0.2.1: 2@0.2.2: 3@0.2.3: 4@0.2.4: 5@0.2.5: 6@0.2.6: 7@0.2.7: 8@0.2.8: 9@0.2.9: 10@0.2.10: 11@0.2.11: 12@0.2.12: 13@0.2.13: 14@0.2.14: 15@0.2.15: 16@0.2.16: 17@0.2.17: 18@0.2.18: 19@0.2.19: 20@0.2.20: 21@0.2.21: 22@0.2.22: 23@0.2.23: 24@0.2.24: 25@0.2.25: 26@0.2.26:
instance wasi:io/poll@0.2.0; end; instance wasi:io/poll@0.2.3; end | nothing => two-versions wasi:io/poll@0.2.3
instance wasi:io/poll@0.2.0; end; instance wasi:io/error@0.2.3; end | nothing => listed 1@0.2.0: 0@0.2.3:
instance wasi:io/poll@0.2.0; end; instance wasi:io/error@0.2.0; end; instance wasi:io/poll@0.2.1; func no; end | nothing => two-versions wasi:io/poll@0.2.1
instance wasi:io/poll@0.2.0; end; instance wasi:io/poll@0.3.0; end | nothing => unlisted wasi:io/poll@0.3.0
instance wasi:io/poll@0.2.0; func no; end; instance wasi:http/types@0.2.0; end | nothing => wrong-type wasi:io/poll@0.2.0
instance wasi:http/types@0.2.0; end; instance wasi:io/poll@0.2.0; func no; end | nothing => unlisted wasi:http/types@0.2.0
instance wasi:io/poll@0.2.0; end; instance wasi:io/poll@0.2.1; end; func f | nothing => two-versions wasi:io/poll@0.2.1
instance wasi:http/types@0.2.0; end | func f own:1 => unlisted wasi:http/types@0.2.0
# Types of entries
instance wasi:random/random@0.2.0; func get-random-u64 -> u32; end | nothing => wrong-type wasi:random/random@0.2.0
instance wasi:random/random@0.2.0; func get-random-u64; end | nothing => wrong-type wasi:random/random@0.2.0
instance wasi:random/random@0.2.0; func get-random-u64 u64 -> u64; end | nothing => wrong-type wasi:random/random@0.2.0
instance wasi:random/random@0.2.0; func get-random-bytes u32 -> list u8; end | nothing => wrong-type wasi:random/random@0.2.0
instance wasi:random/random@0.2.0; func get-random-bytes u64 -> list s64; end | nothing => wrong-type wasi:random/random@0.2.0
instance wasi:random/random@0.2.0; func get-random-bytes -> list u8; end | nothing => wrong-type wasi:random/random@0.2.0
instance wasi:random/random@0.2.0; func get-random; end | nothing => wrong-type wasi:random/random@0.2.0
instance wasi:random/random@0.2.0; type get-random-u64 u64; end | nothing => wrong-type wasi:random/random@0.2.0
instance wasi:random/random@0.2.0; functype get-random-u64 -> u64; end | nothing => wrong-type wasi:random/random@0.2.0
instance wasi:random/random@0.2.0; instance get-random-u64; end; end | nothing => wrong-type wasi:random/random@0.2.0
instance wasi:random/random@0.2.0; func get-random-u64 -> u64; instance more; end; end | nothing => wrong-type wasi:random/random@0.2.0
instance wasi:random/random@0.2.0; declared more; end | nothing => wrong-type wasi:random/random@0.2.0
instance wasi:cli/exit@0.2.0; func exit result _ _; end | nothing => listed 4@0.2.0:0
instance wasi:cli/exit@0.2.1; func exit result _ _; func exit-with-code u8; end | nothing => wrong-type wasi:cli/exit@0.2.1
instance wasi:cli/exit@0.2.0; func exit result u8 _; end | nothing => wrong-type wasi:cli/exit@0.2.0
instance wasi:cli/environment@0.2.0; func initial-cwd -> option string; func get-environment -> list tuple:2 string string; end | nothing => listed 3@0.2.0:2,0
instance wasi:cli/environment@0.2.0; func get-environment -> list tuple:3 string string string; end | nothing => wrong-type wasi:cli/environment@0.2.0
instance wasi:cli/environment@0.2.0; func get-environment -> list record:a,b string string; end | nothing => wrong-type wasi:cli/environment@0.2.0
instance wasi:clocks/wall-clock@0.2.0; type datetime record:seconds,nanoseconds u64 u32; func now -> record:seconds,nanoseconds u64 u32; end | nothing => listed 13@0.2.0:0
instance wasi:clocks/wall-clock@0.2.0; type datetime record:seconds,nanoseconds u64 u64; end | nothing => wrong-type wasi:clocks/wall-clock@0.2.0
instance wasi:clocks/wall-clock@0.2.0; type datetime record:nanoseconds,seconds u32 u64; end | nothing => wrong-type wasi:clocks/wall-clock@0.2.0
instance wasi:clocks/wall-clock@0.2.0; type datetime record:Seconds,nanoseconds u64 u32; end | nothing => wrong-type wasi:clocks/wall-clock@0.2.0
instance wasi:clocks/wall-clock@0.2.0; type datetime tuple:2 u64 u32; end | nothing => wrong-type wasi:clocks/wall-clock@0.2.0
instance wasi:clocks/wall-clock@0.2.0; type date record:seconds,nanoseconds u64 u32; end | nothing => wrong-type wasi:clocks/wall-clock@0.2.0
instance wasi:clocks/wall-clock@0.2.0; resource datetime 1; end | nothing => wrong-type wasi:clocks/wall-clock@0.2.0
instance wasi:sockets/network@0.2.0; type ip-address-family enum:ipv4,ipv6; end | nothing => listed 20@0.2.0:
instance wasi:sockets/network@0.2.0; type ip-address-family enum:ipv6,ipv4; end | nothing => wrong-type wasi:sockets/network@0.2.0
instance wasi:sockets/network@0.2.0; type ip-address-family flags:ipv4,ipv6; end | nothing => wrong-type wasi:sockets/network@0.2.0
instance wasi:sockets/network@0.2.0; type network u32; end | nothing => wrong-type wasi:sockets/network@0.2.0
instance wasi:sockets/network@0.2.1; func network-error-code borrow:1 -> option u8; end | nothing => wrong-type wasi:sockets/network@0.2.1
instance wasi:filesystem/types@0.2.0; type path-flags flags:symlink-follow; type datetime record:seconds,nanoseconds u64 u32; end | nothing => listed 18@0.2.0:
instance wasi:clocks/monotonic-clock@0.2.0; type duration u64; func subscribe-duration u64 -> own:1; end | nothing => listed 14@0.2.0:3
instance wasi:sockets/tcp@0.2.0; type duration u64; resource tcp-socket 1; func [method]tcp-socket.is-listening borrow:1 -> bool; end | nothing => listed 23@0.2.0:10
# Resources, each of one kind
instance wasi:io/error@0.2.0; resource error 1; end; instance wasi:io/poll@0.2.0; resource pollable 2; func poll list borrow:2 -> list u32; end; instance wasi:io/streams@0.2.0; resource error 1; resource output-stream 3; type stream-error variant:last-operation-failed,closed own:1 _; func [method]output-stream.check-write borrow:3 -> result u64 variant:last-operation-failed,closed own:1 _; func [method]output-stream.subscribe borrow:3 -> own:2; end; instance wasi:cli/stdout@0.2.0; resource output-stream 3; func get-stdout -> own:3; end | nothing => listed 0@0.2.0: 1@0.2.0:2 2@0.2.0:5,10 6@0.2.0:0
instance wasi:io/error@0.2.0; resource error 1; end; instance wasi:io/poll@0.2.0; resource pollable 2; func poll list borrow:2 -> list u32; end; instance wasi:io/streams@0.2.0; resource error 1; resource output-stream 3; type stream-error variant:last-operation-failed,closed own:1 _; func [method]output-stream.check-write borrow:3 -> result u64 variant:last-operation-failed,closed own:1 _; func [method]output-stream.subscribe borrow:3 -> own:2; end; instance wasi:cli/stdout@0.2.0; resource output-stream 3; func get-stdout -> own:2; end | nothing => wrong-type wasi:cli/stdout@0.2.0
instance wasi:io/error@0.2.0; resource error 1; end; instance wasi:io/poll@0.2.0; resource pollable 2; func poll list borrow:2 -> list u32; end; instance wasi:io/streams@0.2.0; resource error 1; resource output-stream 3; type stream-error variant:last-operation-failed,closed own:1 _; func [method]output-stream.check-write borrow:3 -> result u64 variant:last-operation-failed,closed own:1 _; func [method]output-stream.subscribe borrow:3 -> own:2; end; instance wasi:cli/stdout@0.2.0; resource output-stream 4; func get-stdout -> own:4; end | nothing => wrong-type wasi:cli/stdout@0.2.0
instance wasi:io/error@0.2.0; resource error 1; end; instance wasi:io/poll@0.2.0; resource pollable 2; func poll list borrow:2 -> list u32; end; instance wasi:io/streams@0.2.0; resource error 1; resource output-stream 3; type stream-error variant:last-operation-failed,closed own:1 _; func [method]output-stream.check-write borrow:3 -> result u64 variant:last-operation-failed,closed own:1 _; func [method]output-stream.subscribe borrow:3 -> own:2; end; instance wasi:cli/stdout@0.2.0; func get-stdout -> own:4; end | nothing => wrong-type wasi:cli/stdout@0.2.0
instance wasi:io/error@0.2.0; resource error 1; end; instance wasi:io/poll@0.2.0; resource pollable 2; func poll list borrow:2 -> list u32; end; instance wasi:io/streams@0.2.0; resource error 1; resource output-stream 3; type stream-error variant:last-operation-failed,closed own:1 _; func [method]output-stream.check-write borrow:3 -> result u64 variant:last-operation-failed,closed own:1 _; func [method]output-stream.subscribe borrow:3 -> own:2; end; instance wasi:cli/stdin@0.2.0; resource input-stream 4; func get-stdin -> own:4; end | nothing => listed 0@0.2.0: 1@0.2.0:2 2@0.2.0:5,10 5@0.2.0:0
instance wasi:io/error@0.2.0; resource error 1; end; instance wasi:io/poll@0.2.0; resource pollable 2; func poll list borrow:2 -> list u32; end; instance wasi:io/streams@0.2.0; resource error 1; resource output-stream 3; type stream-error variant:last-operation-failed,closed own:1 _; func [method]output-stream.check-write borrow:3 -> result u64 variant:last-operation-failed,closed own:1 _; func [method]output-stream.subscribe borrow:3 -> own:2; end; instance wasi:cli/stdin@0.2.0; resource input-stream 3; end | nothing => wrong-type wasi:cli/stdin@0.2.0
instance wasi:io/poll@0.2.0; resource pollable 2; func poll list borrow:2 -> list u32; end; instance wasi:io/error@0.2.0; resource error 2; end | nothing => wrong-type wasi:io/error@0.2.0
instance wasi:cli/stdin@0.2.6; resource input-stream 1; func get-stdin -> own:1; end | nothing => listed 5@0.2.6:0
instance wasi:cli/stdout@0.2.0; resource output-stream 1; end; instance wasi:cli/stderr@0.2.0; resource output-stream 1; func get-stderr -> own:1; end | nothing => listed 6@0.2.0: 7@0.2.0:0
instance wasi:cli/stdout@0.2.0; resource output-stream 1; end; instance wasi:cli/stderr@0.2.0; resource output-stream 2; func get-stderr -> own:2; end | nothing => wrong-type wasi:cli/stderr@0.2.0
instance wasi:io/poll@0.2.0; resource pollable 1; func [method]pollable.ready borrow:2 -> bool; end | nothing => wrong-type wasi:io/poll@0.2.0
instance wasi:io/poll@0.2.0; resource pollable 1; func [method]pollable.ready own:1 -> bool; end | nothing => wrong-type wasi:io/poll@0.2.0
instance wasi:io/poll@0.2.0; func [method]pollable.ready borrow:5 -> bool; func [method]pollable.block borrow:5; end | nothing => listed 1@0.2.0:0,1
instance wasi:io/poll@0.2.0; func [method]pollable.ready borrow:5 -> bool; func [method]pollable.block borrow:6; end | nothing => wrong-type wasi:io/poll@0.2.0
instance wasi:filesystem/preopens@0.2.0; resource descriptor 7; func get-directories -> list tuple:2 own:7 string; end | nothing => listed 19@0.2.0:0
# Resource types and handles in exports
nothing | func f u32 string -> list u8 => listed
nothing | instance wasi:cli/run@0.2.0; func run -> result _ _; end => listed
nothing | func f own:1 => handle-export f
nothing | func f list borrow:1 => handle-export f
nothing | func f -> option own:1 => handle-export f
nothing | func f; func g -> result u8 own:1; func h own:1 => handle-export g
nothing | resource r 1 => handle-export r
nothing | type t u8; type u own:1 => handle-export u
nothing | functype t list u8 => listed
nothing | functype t list own:1 => handle-export t
nothing | instance i; func f; func g own:1; end => handle-export i
nothing | instance i; func f; resource r 1; end => handle-export i
nothing | instance i; func f; instance j; func g; end; end => listed
nothing | instance i; func f; instance j; func g borrow:2; end; end => handle-export i
nothing | instance i; declared t; end; declared u => listed
nothing | declared t 4 => handle-export t
nothing | instance i; instance j; declared t 4; end; end => handle-export i
instance wasi:io/poll@0.2.0; resource pollable 1; end | instance p; resource pollable 1; end => handle-export p
instance wasi:io/poll@0.2.0; resource pollable 1; end | func f => listed 1@0.2.0:
instance wasi:io/poll@0.2.0; func no; end | func f own:1 => wrong-type wasi:io/poll@0.2.0";

#[test]
fn imports_and_exports_match(rt: HostRuntime) -> Result<(), Fail> {
    let alloc = rt.alloc();
    for row in ROWS.lines() {
        if row.starts_with("# ") {
            continue;
        }
        let (given, wanted) = sides(row)?;
        let Some((imports, exports)) = given.split_once(" | ") else {
            return Err(Fail::from("no exports"));
        };
        same(
            &rt,
            given,
            outcome(alloc, imports, exports)?.as_str(),
            wanted,
        );
    }
    Ok(())
}
