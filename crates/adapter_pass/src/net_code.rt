//! The cases of `error-code` of `wasi:sockets/network` (WASI 0.2), by their numbers.

pub const UNKNOWN: u64 = 0;

pub const ACCESS_DENIED: u64 = 1;

pub const NOT_SUPPORTED: u64 = 2;

pub const INVALID_ARGUMENT: u64 = 3;

pub const OUT_OF_MEMORY: u64 = 4;

pub const TIMEOUT: u64 = 5;

pub const CONCURRENCY_CONFLICT: u64 = 6;

pub const NOT_IN_PROGRESS: u64 = 7;

pub const WOULD_BLOCK: u64 = 8;

pub const INVALID_STATE: u64 = 9;

pub const NEW_SOCKET_LIMIT: u64 = 10;

pub const ADDRESS_NOT_BINDABLE: u64 = 11;

pub const ADDRESS_IN_USE: u64 = 12;

pub const REMOTE_UNREACHABLE: u64 = 13;

pub const CONNECTION_REFUSED: u64 = 14;

pub const CONNECTION_RESET: u64 = 15;

pub const CONNECTION_ABORTED: u64 = 16;

pub const DATAGRAM_TOO_LARGE: u64 = 17;

pub const NAME_UNRESOLVABLE: u64 = 18;

pub const TEMPORARY_RESOLVER_FAILURE: u64 = 19;

pub const PERMANENT_RESOLVER_FAILURE: u64 = 20;
