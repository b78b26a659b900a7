//! Whether a handle of a kind can be the host's, by what the policy leaves to the host.

ghost use Rattle.std.specs.Prelude.{◌≡◌, ◌||◌};
ghost use Rattle.reference_step.specs.Access.{any_sockets, asks_folders, can_be_host, host_input, host_kinds, host_output, is_host_stream, all_files, is_hosted, by_monotonic};

use policy_data::{HostFiles, MonotonicClock, Policy, Sockets, Stream};

fn is_host_stream(stream: Stream) -> bool
    ensures { result ≡ is_host_stream stream }
{
    match stream {
        Stream::Allow => true,
        Stream::Ignore => false,
        Stream::Deny => false,
    }
}

fn all_files(files: HostFiles) -> bool
    ensures { result ≡ all_files files }
{
    match files {
        HostFiles::All => true,
        HostFiles::Deny => false,
    }
}

fn asks_folders(policy: &Policy) -> bool
    ensures { result ≡ asks_folders policy.now }
{
    all_files(policy.fs_host) || !policy.fs_pass.is_empty()
}

fn any_sockets(sockets: Sockets) -> bool
    ensures { result ≡ any_sockets sockets }
{
    match sockets {
        Sockets::Allow => true,
        Sockets::Deny => false,
        Sockets::Rules => true,
    }
}

fn is_host_clock(clock: MonotonicClock) -> bool
    ensures { result ≡ is_hosted (by_monotonic clock) }
{
    match clock {
        MonotonicClock::Allow => true,
        MonotonicClock::Deny => false,
        MonotonicClock::Fixed(_) => false,
    }
}

fn host_input(policy: &Policy) -> bool
    ensures { result ≡ host_input policy.now }
{
    is_host_stream(policy.stdio_stdin) || asks_folders(policy) || any_sockets(policy.sockets)
}

fn host_terminal(policy: &Policy) -> bool
    ensures { result ≡ (is_host_stream policy.now.stdio_stdout || is_host_stream policy.now.stdio_stderr) }
{
    is_host_stream(policy.stdio_stdout) || is_host_stream(policy.stdio_stderr)
}

fn host_output(policy: &Policy) -> bool
    ensures { result ≡ host_output policy.now }
{
    is_host_stream(policy.stdio_stdout)
        || is_host_stream(policy.stdio_stderr)
        || asks_folders(policy)
        || any_sockets(policy.sockets)
}

fn host_pollable(policy: &Policy) -> bool
    ensures { result ≡ (host_input policy.now || host_output policy.now || is_hosted (by_monotonic policy.now.clocks_monotonic) || any_sockets policy.now.sockets) }
{
    host_input(policy)
        || host_output(policy)
        || is_host_clock(policy.clocks_monotonic)
        || any_sockets(policy.sockets)
}

/// Whether a handle of a kind can be the host's.
pub fn can_be_host(policy: &Policy, kind: u32) -> bool
    ensures { result ≡ can_be_host policy.now kind }
{
    match kind {
        0 => host_input(policy) || host_output(policy),
        1 => host_pollable(policy),
        2 => host_input(policy),
        3 => host_output(policy),
        4 => is_host_stream(policy.stdio_stdin),
        5 => host_terminal(policy),
        6 => asks_folders(policy),
        7 => asks_folders(policy),
        8 => any_sockets(policy.sockets),
        9 => any_sockets(policy.sockets),
        10 => any_sockets(policy.sockets),
        11 => any_sockets(policy.sockets),
        12 => any_sockets(policy.sockets),
        13 => any_sockets(policy.sockets),
        _ => false,
    }
}
