//! The kinds of resources in the listed interfaces: 14 names, numbered by their places. Handle types of listed interfaces have these
//! numbers.

ghost use Rattle.std.specs.Prelude.{◌≡◌, ◌<◌, IfSome, length, map, position};
ghost use Rattle.std.specs.Str.{bytes_eq};
ghost use Rattle.wasi_table.specs.Types.{kind_of, place_in};

/// The kinds of resources in the listed interfaces, by number.
pub const KINDS: [&str; 14] = [
    "error",
    "pollable",
    "input-stream",
    "output-stream",
    "terminal-input",
    "terminal-output",
    "descriptor",
    "directory-entry-stream",
    "network",
    "resolve-address-stream",
    "tcp-socket",
    "udp-socket",
    "incoming-datagram-stream",
    "outgoing-datagram-stream",
];

fn place_of(name: &str, names: &[&str]) -> Option<usize>
    ensures place { result ≡ position (λ w. bytes_eq w.now name.now) names.now }
    ensures bound { IfSome result (λ place. place < length names.now) }
{
    names.iter().position(|other| *other == name)
}

/// The place of a name among names.
pub fn place_in(name: &str, names: &[&str]) -> Option<usize>
    ensures place { result ≡ place_in name.now (map (λ w. w.now) names.now) }
    ensures bound { IfSome result (λ place. place < length names.now) }
{
    place_of(name, names)
}

/// The number of a kind.
pub fn kind_of(name: &str) -> Option<u32>
    ensures { result ≡ kind_of name.now }
{
    match place_in(name, &KINDS) {
        Some(place) => Some(place as u32),
        None => None,
    }
}
