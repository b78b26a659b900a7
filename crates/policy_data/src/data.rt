//! What the fields of a policy are made of: variables, clocks, folders, trees, the scratch folder, and rules on addresses.

use virt_base::{Bytes, Items, Text};

/// Texts in order.
pub type Texts = Items<Text>;

/// An environment variable and its value.
#[derive(Debug, Drop)]
pub struct Variable {
    pub name: Text,
    pub value: Text,
}

/// Variables in order.
pub type Variables = Items<Variable>;

/// The arguments that the application sees: none, those of the host, or these.
#[derive(Debug, Drop)]
pub enum Arguments {
    Deny,
    Allow,
    Given(Texts),
}

/// The working directory that the application sees: none, that of the host, or this one.
#[derive(Debug, Drop)]
pub enum WorkingDirectory {
    Deny,
    Allow,
    Given(Text),
}

/// A time of the wall clock: seconds from 1970-01-01T00:00:00Z on, and nanoseconds below a second.
#[derive(Debug, Clone, Copy, PartialEq, Eq)]
pub struct WallTime {
    pub seconds: u64,
    pub nanoseconds: u32,
}

/// The wall clock that the application sees: that of the host, none, or one that stands still.
#[derive(Debug, Clone, Copy, PartialEq, Eq)]
pub enum WallClock {
    Allow,
    Deny,
    Fixed(WallTime),
}

/// The monotonic clock that the application sees: that of the host, none, or one that stands still at that many nanoseconds.
#[derive(Debug, Clone, Copy, PartialEq, Eq)]
pub enum MonotonicClock {
    Allow,
    Deny,
    Fixed(u64),
}

/// A folder of the host that the application sees under another name.
#[derive(Debug, Drop)]
pub struct Pass {
    pub host: Text,
    pub shown: Text,
}

/// Passed folders in order, which differ in the names that are shown.
pub type Passes = Items<Pass>;

/// What a file holds: these bytes, or the bytes of the file of this name outside.
#[derive(Debug, Drop)]
pub enum Content {
    Bytes(Bytes),
    File(Text),
}

/// A file at a path of a tree.
#[derive(Debug, Drop)]
pub struct EmbeddedFile {
    pub path: Text,
    pub content: Content,
}

/// Files in byte order of their paths.
pub type EmbeddedFiles = Items<EmbeddedFile>;

/// A symbolic link at a path of a tree, to a target of 1 to 4096 bytes without NUL.
#[derive(Debug, Drop)]
pub struct Link {
    pub path: Text,
    pub target: Text,
}

/// Links in byte order of their paths.
pub type Links = Items<Link>;

/// What a policy writes out of a tree. No path is two of a file, a folder and a link. Folders above a path stand in no
/// list.
#[derive(Debug, Drop)]
pub struct Embedded {
    pub files: EmbeddedFiles,
    /// In the order of the text, where one may be named twice.
    pub folders: Texts,
    /// Empty in the first version.
    pub links: Links,
}

/// What is in a tree: what the folder of this name outside holds, or what the policy writes out.
#[derive(Debug, Drop)]
pub enum TreeContent {
    Mount(Text),
    Embedded(Embedded),
}

/// A tree, whose name no passed folder and no other tree has.
#[derive(Debug, Drop)]
pub struct TreeSource {
    pub name: Text,
    pub content: TreeContent,
}

/// Trees in order.
pub type TreeSources = Items<TreeSource>;

/// A writable folder in memory, whose name no passed folder and no tree has.
#[derive(Debug, Drop)]
pub struct Scratch {
    pub name: Text,
    /// How many blocks of 4096 bytes its files may take: 1 to 8192.
    pub blocks: u32,
    /// How many files it may have: 1 to 256.
    pub files: u32,
}

/// The numbers of an address: 4 of 0 to 255, or 8 of 0 to 65535.
pub type Numbers = Items<u16>;

/// The ports from one to another, both included, where the first is not above the second.
#[derive(Debug, Clone, Copy, PartialEq, Eq)]
pub struct PortRange {
    pub from: u16,
    pub to: u16,
}

/// Ranges of ports in order.
pub type Ranges = Items<PortRange>;

/// The addresses of a network, at some ports.
#[derive(Debug, Drop)]
pub struct Rule {
    /// Whether the addresses are of IPv6.
    pub six: bool,
    /// 4 numbers of an IPv4 network, or 8 of an IPv6 network.
    pub numbers: Numbers,
    /// How many of the numbers' first bits count: 0 to 32, or 0 to 128.
    pub length: u8,
    /// 1 to 64 of them; all ports are the range 0 to 65535.
    pub ports: Ranges,
}

/// Rules in order, at most 256.
pub type Rules = Items<Rule>;

/// Which addresses the sockets reach, and whether names are resolved.
#[derive(Debug, Drop)]
pub struct NetRules {
    pub connect: Rules,
    pub bind: Rules,
    pub names: bool,
}

/// A network: what the addresses in it begin with.
#[derive(Debug, Drop)]
pub struct Network {
    pub six: bool,
    pub numbers: Numbers,
    pub length: u8,
}
