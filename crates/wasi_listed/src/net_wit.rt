//! The text in WIT (Component Model, WIT.md) that says the same as the table of `net`, by a law there.

/// The same interfaces in the notation of WIT (WASI 0.2.0), spelled a second time beside the table. Parameters stand without names.
pub const WIT: &str = "\
interface wasi:sockets/network {
  resource network;
  enum error-code { unknown, access-denied, not-supported, invalid-argument, out-of-memory, \
timeout, concurrency-conflict, not-in-progress, would-block, invalid-state, new-socket-limit, \
address-not-bindable, address-in-use, remote-unreachable, connection-refused, connection-reset, \
connection-aborted, datagram-too-large, name-unresolvable, temporary-resolver-failure, \
permanent-resolver-failure }
  enum ip-address-family { ipv4, ipv6 }
  type ipv4-address = tuple<u8, u8, u8, u8>;
  type ipv6-address = tuple<u16, u16, u16, u16, u16, u16, u16, u16>;
  variant ip-address { ipv4(ipv4-address), ipv6(ipv6-address) }
  record ipv4-socket-address { port: u16, address: ipv4-address }
  record ipv6-socket-address { port: u16, flow-info: u32, address: ipv6-address, scope-id: u32 }
  variant ip-socket-address { ipv4(ipv4-socket-address), ipv6(ipv6-socket-address) }
}
interface wasi:sockets/instance-network {
  use wasi:sockets/network.{network};
  instance-network: func() -> own<network>;
}
interface wasi:sockets/ip-name-lookup {
  use wasi:io/poll.{pollable};
  use wasi:sockets/network.{network};
  use wasi:sockets/network.{error-code};
  use wasi:sockets/network.{ip-address};
  resolve-addresses: func(borrow<network>, string) -> result<own<resolve-address-stream>, error-code>;
  resource resolve-address-stream {
    resolve-next-address: func() -> result<option<ip-address>, error-code>;
    subscribe: func() -> own<pollable>;
  }
}
interface wasi:sockets/tcp {
  use wasi:io/streams.{input-stream};
  use wasi:io/streams.{output-stream};
  use wasi:io/poll.{pollable};
  use wasi:clocks/monotonic-clock.{duration};
  use wasi:sockets/network.{network};
  use wasi:sockets/network.{error-code};
  use wasi:sockets/network.{ip-socket-address};
  use wasi:sockets/network.{ip-address-family};
  enum shutdown-type { receive, send, both }
  resource tcp-socket {
    start-bind: func(borrow<network>, ip-socket-address) -> result<_, error-code>;
    start-connect: func(borrow<network>, ip-socket-address) -> result<_, error-code>;
    finish-bind: func() -> result<_, error-code>;
    start-listen: func() -> result<_, error-code>;
    finish-listen: func() -> result<_, error-code>;
    shutdown: func(shutdown-type) -> result<_, error-code>;
    finish-connect: func() -> result<tuple<own<input-stream>, own<output-stream>>, error-code>;
    accept: func() -> result<tuple<own<tcp-socket>, own<input-stream>, own<output-stream>>, error-code>;
    local-address: func() -> result<ip-socket-address, error-code>;
    remote-address: func() -> result<ip-socket-address, error-code>;
    is-listening: func() -> bool;
    address-family: func() -> ip-address-family;
    set-listen-backlog-size: func(u64) -> result<_, error-code>;
    keep-alive-enabled: func() -> result<bool, error-code>;
    set-keep-alive-enabled: func(bool) -> result<_, error-code>;
    keep-alive-idle-time: func() -> result<duration, error-code>;
    set-keep-alive-idle-time: func(duration) -> result<_, error-code>;
    keep-alive-interval: func() -> result<duration, error-code>;
    set-keep-alive-interval: func(duration) -> result<_, error-code>;
    keep-alive-count: func() -> result<u32, error-code>;
    set-keep-alive-count: func(u32) -> result<_, error-code>;
    hop-limit: func() -> result<u8, error-code>;
    set-hop-limit: func(u8) -> result<_, error-code>;
    receive-buffer-size: func() -> result<u64, error-code>;
    set-receive-buffer-size: func(u64) -> result<_, error-code>;
    send-buffer-size: func() -> result<u64, error-code>;
    set-send-buffer-size: func(u64) -> result<_, error-code>;
    subscribe: func() -> own<pollable>;
  }
}
interface wasi:sockets/tcp-create-socket {
  use wasi:sockets/network.{network};
  use wasi:sockets/network.{error-code};
  use wasi:sockets/network.{ip-address-family};
  use wasi:sockets/tcp.{tcp-socket};
  create-tcp-socket: func(ip-address-family) -> result<own<tcp-socket>, error-code>;
}
interface wasi:sockets/udp {
  use wasi:io/poll.{pollable};
  use wasi:sockets/network.{network};
  use wasi:sockets/network.{error-code};
  use wasi:sockets/network.{ip-socket-address};
  use wasi:sockets/network.{ip-address-family};
  record incoming-datagram { data: list<u8>, remote-address: ip-socket-address }
  record outgoing-datagram { data: list<u8>, remote-address: option<ip-socket-address> }
  resource udp-socket {
    start-bind: func(borrow<network>, ip-socket-address) -> result<_, error-code>;
    finish-bind: func() -> result<_, error-code>;
    stream: func(option<ip-socket-address>) -> result<tuple<own<incoming-datagram-stream>, own<outgoing-datagram-stream>>, error-code>;
    local-address: func() -> result<ip-socket-address, error-code>;
    remote-address: func() -> result<ip-socket-address, error-code>;
    address-family: func() -> ip-address-family;
    unicast-hop-limit: func() -> result<u8, error-code>;
    set-unicast-hop-limit: func(u8) -> result<_, error-code>;
    receive-buffer-size: func() -> result<u64, error-code>;
    set-receive-buffer-size: func(u64) -> result<_, error-code>;
    send-buffer-size: func() -> result<u64, error-code>;
    set-send-buffer-size: func(u64) -> result<_, error-code>;
    subscribe: func() -> own<pollable>;
  }
  resource incoming-datagram-stream {
    receive: func(u64) -> result<list<incoming-datagram>, error-code>;
    subscribe: func() -> own<pollable>;
  }
  resource outgoing-datagram-stream {
    check-send: func() -> result<u64, error-code>;
    send: func(list<outgoing-datagram>) -> result<u64, error-code>;
    subscribe: func() -> own<pollable>;
  }
}
interface wasi:sockets/udp-create-socket {
  use wasi:sockets/network.{network};
  use wasi:sockets/network.{error-code};
  use wasi:sockets/network.{ip-address-family};
  use wasi:sockets/udp.{udp-socket};
  create-udp-socket: func(ip-address-family) -> result<own<udp-socket>, error-code>;
}
";
