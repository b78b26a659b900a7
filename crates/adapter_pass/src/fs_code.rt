//! The cases of `error-code` of `wasi:filesystem/types` (WASI 0.2), by their numbers.

pub const ACCESS: u64 = 0;

pub const WOULD_BLOCK: u64 = 1;

pub const ALREADY: u64 = 2;

pub const BAD_DESCRIPTOR: u64 = 3;

pub const BUSY: u64 = 4;

pub const DEADLOCK: u64 = 5;

pub const QUOTA: u64 = 6;

pub const EXIST: u64 = 7;

pub const FILE_TOO_LARGE: u64 = 8;

pub const ILLEGAL_BYTE_SEQUENCE: u64 = 9;

pub const IN_PROGRESS: u64 = 10;

pub const INTERRUPTED: u64 = 11;

pub const INVALID: u64 = 12;

pub const IO: u64 = 13;

pub const IS_DIRECTORY: u64 = 14;

pub const LOOP: u64 = 15;

pub const TOO_MANY_LINKS: u64 = 16;

pub const MESSAGE_SIZE: u64 = 17;

pub const NAME_TOO_LONG: u64 = 18;

pub const NO_DEVICE: u64 = 19;

pub const NO_ENTRY: u64 = 20;

pub const NO_LOCK: u64 = 21;

pub const INSUFFICIENT_MEMORY: u64 = 22;

pub const INSUFFICIENT_SPACE: u64 = 23;

pub const NOT_DIRECTORY: u64 = 24;

pub const NOT_EMPTY: u64 = 25;

pub const NOT_RECOVERABLE: u64 = 26;

pub const UNSUPPORTED: u64 = 27;

pub const NO_TTY: u64 = 28;

pub const NO_SUCH_DEVICE: u64 = 29;

pub const OVERFLOW: u64 = 30;

pub const NOT_PERMITTED: u64 = 31;

pub const PIPE: u64 = 32;

pub const READ_ONLY: u64 = 33;

pub const INVALID_SEEK: u64 = 34;

pub const TEXT_FILE_BUSY: u64 = 35;

pub const CROSS_DEVICE: u64 = 36;
