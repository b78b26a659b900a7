//! The table of `io` as one text (WASI 0.2). It stands apart since it is data alone.

/// The interfaces of `wasi:io`, `wasi:cli`, `wasi:clocks` and `wasi:random` (WASI 0.2.0), in the notation of `wasi_table`.
pub const TABLE: &str = "\
    wasi:io/error;\
    resource error,\
    to-debug-string -> string.\
    \
    wasi:io/poll;\
    resource pollable,\
    ready -> bool,\
    block;\
    function poll list borrow pollable -> list u32.\
    \
    wasi:io/streams;\
    use error;\
    use pollable;\
    variant stream-error,\
    last-operation-failed own error,\
    closed;\
    resource input-stream,\
    read u64 -> result list u8 stream-error,\
    blocking-read u64 -> result list u8 stream-error,\
    skip u64 -> result u64 stream-error,\
    blocking-skip u64 -> result u64 stream-error,\
    subscribe -> own pollable;\
    resource output-stream,\
    check-write -> result u64 stream-error,\
    write list u8 -> result _ stream-error,\
    blocking-write-and-flush list u8 -> result _ stream-error,\
    flush -> result _ stream-error,\
    blocking-flush -> result _ stream-error,\
    subscribe -> own pollable,\
    write-zeroes u64 -> result _ stream-error,\
    blocking-write-zeroes-and-flush u64 -> result _ stream-error,\
    splice borrow input-stream u64 -> result u64 stream-error,\
    blocking-splice borrow input-stream u64 -> result u64 stream-error.\
    \
    wasi:cli/environment;\
    function get-environment -> list tuple2 string string;\
    function get-arguments -> list string;\
    function initial-cwd -> option string.\
    \
    wasi:cli/exit;\
    function exit result _ _.\
    \
    wasi:cli/stdin;\
    use input-stream;\
    function get-stdin -> own input-stream.\
    \
    wasi:cli/stdout;\
    use output-stream;\
    function get-stdout -> own output-stream.\
    \
    wasi:cli/stderr;\
    use output-stream;\
    function get-stderr -> own output-stream.\
    \
    wasi:cli/terminal-input;\
    resource terminal-input.\
    \
    wasi:cli/terminal-output;\
    resource terminal-output.\
    \
    wasi:cli/terminal-stdin;\
    use terminal-input;\
    function get-terminal-stdin -> option own terminal-input.\
    \
    wasi:cli/terminal-stdout;\
    use terminal-output;\
    function get-terminal-stdout -> option own terminal-output.\
    \
    wasi:cli/terminal-stderr;\
    use terminal-output;\
    function get-terminal-stderr -> option own terminal-output.\
    \
    wasi:clocks/wall-clock;\
    record datetime,\
    seconds u64,\
    nanoseconds u32;\
    function now -> datetime;\
    function resolution -> datetime.\
    \
    wasi:clocks/monotonic-clock;\
    use pollable;\
    type instant u64;\
    type duration u64;\
    function now -> instant;\
    function resolution -> duration;\
    function subscribe-instant instant -> own pollable;\
    function subscribe-duration duration -> own pollable.\
    \
    wasi:random/random;\
    function get-random-bytes u64 -> list u8;\
    function get-random-u64 -> u64.\
    \
    wasi:random/insecure;\
    function get-insecure-random-bytes u64 -> list u8;\
    function get-insecure-random-u64 -> u64.\
    \
    wasi:random/insecure-seed;\
    function insecure-seed -> tuple2 u64 u64";
