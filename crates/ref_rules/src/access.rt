//! Whether a function asks the host, is denied, or is answered without it: for each listed interface, by which words of a policy.

ghost use Rattle.std.specs.Prelude.{◌≡◌, ◌<◌, length, not, ◌||◌};
ghost use Rattle.reference_step.specs.Access.{access, by_stream, by_word, by_sockets, by_wall, by_monotonic, by_arguments, by_folder, by_environment, hosted_if, is_hosted, is_host_stream, is_empty, is_some_text, asks_folders, all_files};
ghost use Rattle.ref_rules.specs.Seen.{access_of};
ghost use Rattle.ref_rules.specs.Sources.{by_source};

use policy_data::{
    Access as Word, Arguments, HostFiles, MonotonicClock, Policy, Sockets, Stream, WallClock,
    WorkingDirectory,
};

/// How a function is answered under a policy.
#[derive(Debug, Clone, Copy, PartialEq, Eq)]
pub enum Access {
    /// The host is asked, where every handle that is given is the host's.
    Hosted,
    Denied,
    /// It is answered without the host.
    Virtual,
}

/// By which words of a policy the functions of an interface go.
#[derive(Debug, Clone, Copy, PartialEq, Eq)]
enum Source {
    /// By the handles that they are given.
    Handles,
    Environment,
    Exit,
    Stdin,
    Stdout,
    Stderr,
    TerminalIn,
    TerminalOut,
    TerminalError,
    Wall,
    Monotonic,
    Random,
    Folders,
    Sockets,
}

/// Those of each interface, by its number.
const SOURCES: [Source; 27] = [
    Source::Handles,
    Source::Handles,
    Source::Handles,
    Source::Environment,
    Source::Exit,
    Source::Stdin,
    Source::Stdout,
    Source::Stderr,
    Source::Handles,
    Source::Handles,
    Source::TerminalIn,
    Source::TerminalOut,
    Source::TerminalError,
    Source::Wall,
    Source::Monotonic,
    Source::Random,
    Source::Random,
    Source::Random,
    Source::Handles,
    Source::Folders,
    Source::Handles,
    Source::Sockets,
    Source::Handles,
    Source::Handles,
    Source::Sockets,
    Source::Handles,
    Source::Sockets,
];

fn hosted_if(asks: bool) -> Access
    ensures { access_of result ≡ hosted_if asks }
{
    if asks {
        Access::Hosted
    } else {
        Access::Virtual
    }
}

fn by_stream(stream: Stream) -> Access
    ensures { access_of result ≡ by_stream stream }
{
    match stream {
        Stream::Allow => Access::Hosted,
        Stream::Ignore => Access::Virtual,
        Stream::Deny => Access::Denied,
    }
}

fn is_host_stream(stream: Stream) -> bool
    ensures { result ≡ is_host_stream stream }
{
    match stream {
        Stream::Allow => true,
        Stream::Ignore => false,
        Stream::Deny => false,
    }
}

fn by_word(word: Word) -> Access
    ensures { access_of result ≡ by_word word }
{
    match word {
        Word::Allow => Access::Hosted,
        Word::Deny => Access::Denied,
    }
}

fn by_sockets(sockets: Sockets) -> Access
    ensures { access_of result ≡ by_sockets sockets }
{
    match sockets {
        Sockets::Allow => Access::Hosted,
        Sockets::Deny => Access::Denied,
        Sockets::Rules => Access::Hosted,
    }
}

fn by_wall(clock: WallClock) -> Access
    ensures { access_of result ≡ by_wall clock }
{
    match clock {
        WallClock::Allow => Access::Hosted,
        WallClock::Deny => Access::Denied,
        WallClock::Fixed(_) => Access::Virtual,
    }
}

fn by_monotonic(clock: MonotonicClock) -> Access
    ensures { access_of result ≡ by_monotonic clock }
{
    match clock {
        MonotonicClock::Allow => Access::Hosted,
        MonotonicClock::Deny => Access::Denied,
        MonotonicClock::Fixed(_) => Access::Virtual,
    }
}

fn by_arguments(arguments: &Arguments) -> Access
    ensures { access_of result ≡ by_arguments arguments.now }
{
    match arguments {
        Arguments::Allow => Access::Hosted,
        Arguments::Deny => Access::Virtual,
        Arguments::Given(_) => Access::Virtual,
    }
}

fn by_folder(folder: &WorkingDirectory) -> Access
    ensures { access_of result ≡ by_folder folder.now }
{
    match folder {
        WorkingDirectory::Allow => Access::Hosted,
        WorkingDirectory::Deny => Access::Virtual,
        WorkingDirectory::Given(_) => Access::Virtual,
    }
}

fn all_files(files: HostFiles) -> bool
    ensures { result ≡ all_files files }
{
    match files {
        HostFiles::All => true,
        HostFiles::Deny => false,
    }
}

/// Whether some of the host's variables are passed.
fn asks_variables(policy: &Policy) -> bool
    ensures { result ≡ (policy.now.env_pass || is_some_text policy.now.env_allow) }
{
    policy.env_pass || !policy.env_allow.is_empty()
}

/// Whether get-directories asks the host.
fn asks_folders(policy: &Policy) -> bool
    ensures { result ≡ asks_folders policy.now }
{
    all_files(policy.fs_host) || !policy.fs_pass.is_empty()
}

fn by_environment(policy: &Policy, function: &str) -> Access
    ensures { access_of result ≡ by_environment policy.now function.now }
{
    if function == "get-environment" {
        hosted_if(asks_variables(policy))
    } else if function == "get-arguments" {
        by_arguments(&policy.env_arguments)
    } else {
        by_folder(&policy.env_cwd)
    }
}

fn by_source(policy: &Policy, source: Source, function: &str) -> Access
    ensures { access_of result ≡ by_source policy.now source function.now }
{
    match source {
        Source::Handles => Access::Hosted,
        Source::Environment => by_environment(policy, function),
        Source::Exit => by_word(policy.exit),
        Source::Stdin => by_stream(policy.stdio_stdin),
        Source::Stdout => by_stream(policy.stdio_stdout),
        Source::Stderr => by_stream(policy.stdio_stderr),
        Source::TerminalIn => hosted_if(is_host_stream(policy.stdio_stdin)),
        Source::TerminalOut => hosted_if(is_host_stream(policy.stdio_stdout)),
        Source::TerminalError => hosted_if(is_host_stream(policy.stdio_stderr)),
        Source::Wall => by_wall(policy.clocks_wall),
        Source::Monotonic => by_monotonic(policy.clocks_monotonic),
        Source::Random => by_word(policy.random),
        Source::Folders => hosted_if(asks_folders(policy)),
        Source::Sockets => by_sockets(policy.sockets),
    }
}

/// How a function is answered, by the number of its interface and its name.
#[tactic(auto, using(crate::proofs::SourceLemmas::source_access, crate::proofs::SourceLemmas::no_source))]
pub fn function_access(policy: &Policy, interface: u32, function: &str) -> Access
    ensures { access_of result ≡ access policy.now interface function.now }
{
    let interface = interface as usize;
    if interface < SOURCES.len() {
        by_source(policy, SOURCES[interface], function)
    } else {
        Access::Denied
    }
}
