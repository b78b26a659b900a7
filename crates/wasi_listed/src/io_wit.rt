//! The text in WIT (Component Model, WIT.md) that says the same as the table of `io`, by a law there.

/// The same interfaces in the notation of WIT (WASI 0.2.0), spelled a second time beside the table. Parameters stand without names.
pub const WIT: &str = "\
interface wasi:io/error {
  resource error {
    to-debug-string: func() -> string;
  }
}
interface wasi:io/poll {
  resource pollable {
    ready: func() -> bool;
    block: func();
  }
  poll: func(list<borrow<pollable>>) -> list<u32>;
}
interface wasi:io/streams {
  use wasi:io/error.{error};
  use wasi:io/poll.{pollable};
  variant stream-error { last-operation-failed(own<error>), closed }
  resource input-stream {
    read: func(u64) -> result<list<u8>, stream-error>;
    blocking-read: func(u64) -> result<list<u8>, stream-error>;
    skip: func(u64) -> result<u64, stream-error>;
    blocking-skip: func(u64) -> result<u64, stream-error>;
    subscribe: func() -> own<pollable>;
  }
  resource output-stream {
    check-write: func() -> result<u64, stream-error>;
    write: func(list<u8>) -> result<_, stream-error>;
    blocking-write-and-flush: func(list<u8>) -> result<_, stream-error>;
    flush: func() -> result<_, stream-error>;
    blocking-flush: func() -> result<_, stream-error>;
    subscribe: func() -> own<pollable>;
    write-zeroes: func(u64) -> result<_, stream-error>;
    blocking-write-zeroes-and-flush: func(u64) -> result<_, stream-error>;
    splice: func(borrow<input-stream>, u64) -> result<u64, stream-error>;
    blocking-splice: func(borrow<input-stream>, u64) -> result<u64, stream-error>;
  }
}
interface wasi:cli/environment {
  get-environment: func() -> list<tuple<string, string>>;
  get-arguments: func() -> list<string>;
  initial-cwd: func() -> option<string>;
}
interface wasi:cli/exit {
  exit: func(result);
}
interface wasi:cli/stdin {
  use wasi:io/streams.{input-stream};
  get-stdin: func() -> own<input-stream>;
}
interface wasi:cli/stdout {
  use wasi:io/streams.{output-stream};
  get-stdout: func() -> own<output-stream>;
}
interface wasi:cli/stderr {
  use wasi:io/streams.{output-stream};
  get-stderr: func() -> own<output-stream>;
}
interface wasi:cli/terminal-input {
  resource terminal-input;
}
interface wasi:cli/terminal-output {
  resource terminal-output;
}
interface wasi:cli/terminal-stdin {
  use wasi:cli/terminal-input.{terminal-input};
  get-terminal-stdin: func() -> option<own<terminal-input>>;
}
interface wasi:cli/terminal-stdout {
  use wasi:cli/terminal-output.{terminal-output};
  get-terminal-stdout: func() -> option<own<terminal-output>>;
}
interface wasi:cli/terminal-stderr {
  use wasi:cli/terminal-output.{terminal-output};
  get-terminal-stderr: func() -> option<own<terminal-output>>;
}
interface wasi:clocks/wall-clock {
  record datetime { seconds: u64, nanoseconds: u32 }
  now: func() -> datetime;
  resolution: func() -> datetime;
}
interface wasi:clocks/monotonic-clock {
  use wasi:io/poll.{pollable};
  type instant = u64;
  type duration = u64;
  now: func() -> instant;
  resolution: func() -> duration;
  subscribe-instant: func(instant) -> own<pollable>;
  subscribe-duration: func(duration) -> own<pollable>;
}
interface wasi:random/random {
  get-random-bytes: func(u64) -> list<u8>;
  get-random-u64: func() -> u64;
}
interface wasi:random/insecure {
  get-insecure-random-bytes: func(u64) -> list<u8>;
  get-insecure-random-u64: func() -> u64;
}
interface wasi:random/insecure-seed {
  insecure-seed: func() -> tuple<u64, u64>;
}
";
