//! The text in WIT (Component Model, WIT.md) that says the same as the table of `fs`, by a law there.

/// The same interfaces in the notation of WIT (WASI 0.2.0), spelled a second time beside the table. Parameters stand without names.
pub const WIT: &str = "\
interface wasi:filesystem/types {
  use wasi:io/streams.{input-stream};
  use wasi:io/streams.{output-stream};
  use wasi:io/error.{error};
  use wasi:clocks/wall-clock.{datetime};
  type filesize = u64;
  type link-count = u64;
  enum descriptor-type { unknown, block-device, character-device, directory, fifo, symbolic-link, \
regular-file, socket }
  flags descriptor-flags { read, write, file-integrity-sync, data-integrity-sync, \
requested-write-sync, mutate-directory }
  record descriptor-stat { type: descriptor-type, link-count: link-count, size: filesize, \
data-access-timestamp: option<datetime>, data-modification-timestamp: option<datetime>, \
status-change-timestamp: option<datetime> }
  flags path-flags { symlink-follow }
  flags open-flags { create, directory, exclusive, truncate }
  variant new-timestamp { no-change, now, timestamp(datetime) }
  record directory-entry { type: descriptor-type, name: string }
  enum advice { normal, sequential, random, will-need, dont-need, no-reuse }
  record metadata-hash-value { lower: u64, upper: u64 }
  enum error-code { access, would-block, already, bad-descriptor, busy, deadlock, quota, exist, \
file-too-large, illegal-byte-sequence, in-progress, interrupted, invalid, io, is-directory, loop, \
too-many-links, message-size, name-too-long, no-device, no-entry, no-lock, insufficient-memory, \
insufficient-space, not-directory, not-empty, not-recoverable, unsupported, no-tty, \
no-such-device, overflow, not-permitted, pipe, read-only, invalid-seek, text-file-busy, \
cross-device }
  resource descriptor {
    read-via-stream: func(filesize) -> result<own<input-stream>, error-code>;
    write-via-stream: func(filesize) -> result<own<output-stream>, error-code>;
    append-via-stream: func() -> result<own<output-stream>, error-code>;
    advise: func(filesize, filesize, advice) -> result<_, error-code>;
    sync-data: func() -> result<_, error-code>;
    sync: func() -> result<_, error-code>;
    set-size: func(filesize) -> result<_, error-code>;
    set-times: func(new-timestamp, new-timestamp) -> result<_, error-code>;
    get-flags: func() -> result<descriptor-flags, error-code>;
    get-type: func() -> result<descriptor-type, error-code>;
    read: func(filesize, filesize) -> result<tuple<list<u8>, bool>, error-code>;
    write: func(list<u8>, filesize) -> result<filesize, error-code>;
    read-directory: func() -> result<own<directory-entry-stream>, error-code>;
    create-directory-at: func(string) -> result<_, error-code>;
    remove-directory-at: func(string) -> result<_, error-code>;
    unlink-file-at: func(string) -> result<_, error-code>;
    symlink-at: func(string, string) -> result<_, error-code>;
    stat: func() -> result<descriptor-stat, error-code>;
    stat-at: func(path-flags, string) -> result<descriptor-stat, error-code>;
    set-times-at: func(path-flags, string, new-timestamp, new-timestamp) -> result<_, error-code>;
    link-at: func(path-flags, string, borrow<descriptor>, string) -> result<_, error-code>;
    rename-at: func(string, borrow<descriptor>, string) -> result<_, error-code>;
    open-at: func(path-flags, string, open-flags, descriptor-flags) -> result<own<descriptor>, error-code>;
    readlink-at: func(string) -> result<string, error-code>;
    is-same-object: func(borrow<descriptor>) -> bool;
    metadata-hash: func() -> result<metadata-hash-value, error-code>;
    metadata-hash-at: func(path-flags, string) -> result<metadata-hash-value, error-code>;
  }
  resource directory-entry-stream {
    read-directory-entry: func() -> result<option<directory-entry>, error-code>;
  }
  filesystem-error-code: func(borrow<error>) -> option<error-code>;
}
interface wasi:filesystem/preopens {
  use wasi:filesystem/types.{descriptor};
  get-directories: func() -> list<tuple<own<descriptor>, string>>;
}
";
