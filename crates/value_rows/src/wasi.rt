//! The 27 listed interfaces of WASI 0.2: their names, how much each has, and some of their parts.

use crate::rows::{Asked, hold, is_printed, number_in, parts, printed, same};
use std::alloc::Global;
use std::test::Fail;
use wasi_listed::{FUNCTIONS, INTERFACES, describe, function};
use wasi_table::{Interface, KINDS};

pub fn number_of(name: &str) -> Option<u32> {
    let name = name.as_bytes();
    if let Some(number) = wasi_listed::io::interface_of(name) {
        return Some(number);
    }
    if let Some(number) = wasi_listed::fs::interface_of(name) {
        return Some(number);
    }
    wasi_listed::net::interface_of(name)
}

fn described(alloc: Global, number: &str) -> Result<Interface, Fail> {
    let number = number_in(number)?;
    if number >= INTERFACES {
        return Err(Fail::new("no interface"));
    }
    Ok(describe(alloc, number)?)
}

/// By its number, the name of an interface, the number by the name, and how many uses, types and functions it has.
const ROWS: &str = "\
0 => (\"wasi:io/error\", Some(0), 0, 1, 1)
1 => (\"wasi:io/poll\", Some(1), 0, 1, 3)
2 => (\"wasi:io/streams\", Some(2), 2, 3, 15)
3 => (\"wasi:cli/environment\", Some(3), 0, 0, 3)
4 => (\"wasi:cli/exit\", Some(4), 0, 0, 1)
5 => (\"wasi:cli/stdin\", Some(5), 1, 0, 1)
6 => (\"wasi:cli/stdout\", Some(6), 1, 0, 1)
7 => (\"wasi:cli/stderr\", Some(7), 1, 0, 1)
8 => (\"wasi:cli/terminal-input\", Some(8), 0, 1, 0)
9 => (\"wasi:cli/terminal-output\", Some(9), 0, 1, 0)
10 => (\"wasi:cli/terminal-stdin\", Some(10), 1, 0, 1)
11 => (\"wasi:cli/terminal-stdout\", Some(11), 1, 0, 1)
12 => (\"wasi:cli/terminal-stderr\", Some(12), 1, 0, 1)
13 => (\"wasi:clocks/wall-clock\", Some(13), 0, 1, 2)
14 => (\"wasi:clocks/monotonic-clock\", Some(14), 1, 2, 4)
15 => (\"wasi:random/random\", Some(15), 0, 0, 2)
16 => (\"wasi:random/insecure\", Some(16), 0, 0, 2)
17 => (\"wasi:random/insecure-seed\", Some(17), 0, 0, 1)
18 => (\"wasi:filesystem/types\", Some(18), 4, 14, 29)
19 => (\"wasi:filesystem/preopens\", Some(19), 1, 0, 1)
20 => (\"wasi:sockets/network\", Some(20), 0, 9, 0)
21 => (\"wasi:sockets/instance-network\", Some(21), 1, 0, 1)
22 => (\"wasi:sockets/ip-name-lookup\", Some(22), 4, 1, 3)
23 => (\"wasi:sockets/tcp\", Some(23), 8, 2, 28)
24 => (\"wasi:sockets/tcp-create-socket\", Some(24), 4, 0, 1)
25 => (\"wasi:sockets/udp\", Some(25), 5, 5, 18)
26 => (\"wasi:sockets/udp-create-socket\", Some(26), 4, 0, 1)";

pub fn interface(alloc: Global, number: &str) -> Result<String, Fail> {
    let interface = described(alloc, number)?;
    let name = interface.name.as_str();
    let counts = (
        interface.uses.len(),
        interface.types.len(),
        interface.functions.len(),
    );
    printed(
        alloc,
        &(name, number_of(name), counts.0, counts.1, counts.2),
    )
}

#[test]
fn has_the_listed_names_and_counts(rt: HostRuntime) -> Result<(), Fail> {
    hold(rt.alloc(), Asked::Interface, ROWS)
}

const OTHER_NAMES: &str = "\
wasi:io/error@0.2.0 => None
 => None
wasi:IO/error => None
wasi:filesystem => None
wasi:sockets/tcp@0.2.0 => None";

#[test]
fn finds_no_other_name(rt: HostRuntime) -> Result<(), Fail> {
    hold(rt.alloc(), Asked::Number, OTHER_NAMES)
}

/// The first functions of some interfaces, and the last ones, with the interface and the place in it.
const NUMBERED: &str = "\
0 => (0, 0, \"[method]error.to-debug-string\")
3 => (1, 2, \"poll\")
4 => (2, 0, \"[method]input-stream.read\")
22 => (4, 0, \"exit\")
39 => (17, 0, \"insecure-seed\")
40 => (18, 0, \"[method]descriptor.read-via-stream\")
69 => (19, 0, \"get-directories\")
70 => (21, 0, \"instance-network\")
101 => (23, 27, \"[method]tcp-socket.subscribe\")
121 => (26, 0, \"create-udp-socket\")";

pub fn function_at(alloc: Global, number: &str) -> Result<String, Fail> {
    let number = number_in(number)?;
    if number >= FUNCTIONS {
        return Err(Fail::new("no function"));
    }
    let found = function(alloc, number)?;
    let name = found.function.name.as_str();
    printed(alloc, &(found.interface, found.place, name))
}

#[test]
fn numbers_functions(rt: HostRuntime) -> Result<(), Fail> {
    hold(rt.alloc(), Asked::Function, NUMBERED)
}

/// A type or a function of an interface by its place, or the uses, and what stands in them, as WIT has it.
const PARTS: &str =
    r#"2 type 0 => name: Text { chars: "stream-error" }, meaning: Value(Variant(Cases { items: [Case { name: Text { chars: "last-operation-failed" }, ty: Some(Own(0)) }, Case { name: Text { chars: "closed" }, ty: None }] }))
1 function 0 => name: Text { chars: "[method]pollable.ready" }, ty: FuncType { params: Fields { items: [Field { name: Text { chars: "" }, ty: Borrow(1) }] }, result: Some(Bool) }
14 function 3 => name: Text { chars: "subscribe-duration" }, ty: FuncType { params: Fields { items: [Field { name: Text { chars: "" }, ty: U64 }] }, result: Some(Own(1)) }, names: Items { items: [Text { chars: "duration" }, Text { chars: "pollable" }] }
18 uses 0 => Items { items: [Use { interface: 2, name: Text { chars: "input-stream" } }, Use { interface: 2, name: Text { chars: "output-stream" } }, Use { interface: 0, name: Text { chars: "error" } }, Use { interface: 13, name: Text { chars: "datetime" } }] }
18 type 4 => name: Text { chars: "descriptor-stat" }, meaning: Value(Record(Fields { items: [Field { name: Text { chars: "type" }, ty: Enum(Items { items: [Text { chars: "unknown" }, Text { chars: "block-device" }, Text { chars: "character-device" }, Text { chars: "directory" }, Text { chars: "fifo" }, Text { chars: "symbolic-link" }, Text { chars: "regular-file" }, Text { chars: "socket" }] }) }, Field { name: Text { chars: "link-count" }, ty: U64 }, Field { name: Text { chars: "size" }, ty: U64 }, Field { name: Text { chars: "data-access-timestamp" }, ty: Option(Record(Fields { items: [Field { name: Text { chars: "seconds" }, ty: U64 }, Field { name: Text { chars: "nanoseconds" }, ty: U32 }] })) }, Field { name: Text { chars: "data-modification-timestamp" }, ty: Option(Record(Fields { items: [Field { name: Text { chars: "seconds" }, ty: U64 }, Field { name: Text { chars: "nanoseconds" }, ty: U32 }] })) }, Field { name: Text { chars: "status-change-timestamp" }, ty: Option(Record(Fields { items: [Field { name: Text { chars: "seconds" }, ty: U64 }, Field { name: Text { chars: "nanoseconds" }, ty: U32 }] })) }] }))
25 type 4 => name: Text { chars: "outgoing-datagram-stream" }, meaning: Kind(13)
20 type 4 => name: Text { chars: "ipv6-address" }, meaning: Value(Tuple(Types { items: [U16, U16, U16, U16, U16, U16, U16, U16] }))"#;

fn part(alloc: Global, asked: &str) -> Result<String, Fail> {
    let (number, rest) = parts(asked, " ")?;
    let (sort, place) = parts(rest, " ")?;
    let interface = described(alloc, number)?;
    let place = number_in(place)? as usize;
    match sort {
        "type" => printed(alloc, &interface.types.as_slice().get(place)),
        "function" => printed(alloc, &interface.functions.as_slice().get(place)),
        _ => printed(alloc, &interface.uses),
    }
}

#[test]
fn has_the_parts_of_wit(rt: HostRuntime) -> Result<(), Fail> {
    for row in PARTS.lines() {
        let (asked, wanted) = parts(row, " => ")?;
        let found = part(rt.alloc(), asked)?;
        if !found.as_str().contains(wanted) {
            same(row, found.as_str(), wanted)?;
        }
    }
    Ok(())
}

/// How many interfaces and functions are listed, how many types of others `wasi:io` hands on, and the last kind of resources.
#[test]
fn hands_on_what_is_known(rt: HostRuntime) -> Result<(), Fail> {
    let alloc = rt.alloc();
    let known = wasi_listed::io::known_types(alloc)?;
    let counts = (INTERFACES, FUNCTIONS, known.len(), KINDS[13]);
    let wanted = "(27, 122, 10, \"outgoing-datagram-stream\")";
    is_printed(alloc, "counts", &counts, wanted)
}

/// The tables say what is written in the notation of WIT, and know each word.
#[test]
fn laws() {
    wasi_listed::io::table_is_wit();
    wasi_listed::fs::table_is_wit();
    wasi_listed::net::table_is_wit();
}
