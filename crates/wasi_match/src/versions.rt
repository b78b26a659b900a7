//! The names under which a component imports a listed interface: the interface's name, `@`, and a version of WASI 0.2.

ghost use Rattle.std.specs.Prelude.{◌≡◌, ◌<◌, IfSome, option_map};
ghost use Rattle.std.specs.List.{list_all};
ghost use Rattle.comp_names.specs.Labels.{is_digit};
ghost use Rattle.wasi_match.specs.Names.{is_patch, is_version, interface_named, cut, in_version, listed_as};
ghost use Rattle.wasi_match.specs.VersionsViews.{plain_name};

use wasi_listed::INTERFACES;

/// A listed interface by its number, and the version that a name names it by.
#[derive(Debug, Clone, Copy)]
pub struct ListedName<'a> {
    pub interface: u32,
    pub version: &'a str,
}

/// The number of the listed interface with a name without version.
#[tactic(auto, using(crate::proofs::NumberLaws::below_all), unfolding(crate::specs::Names::interface_named))]
pub fn interface_named(name: &[u8]) -> Option<u32>
    ensures value { result ≡ interface_named name.now }
    ensures bound { IfSome result (λ number. number < INTERFACES) }
{
    if let Some(number) = wasi_listed::io::interface_of(name) {
        return Some(number);
    }
    if let Some(number) = wasi_listed::fs::interface_of(name) {
        return Some(number);
    }
    wasi_listed::net::interface_of(name)
}

fn is_digit(byte: u8) -> bool
    ensures { result ≡ is_digit byte }
{
    b'0' <= byte && byte <= b'9'
}

fn are_digits(text: &[u8]) -> bool
    ensures { result ≡ list_all is_digit text.now }
{
    text.iter().all(|b| is_digit(*b))
}

/// Whether a text is a number from 0 to 999 without a leading zero.
fn is_patch(text: &[u8]) -> bool
    ensures { result ≡ is_patch text.now }
{
    match text.split_first() {
        None => false,
        Some((first, rest)) => {
            is_digit(*first)
                && are_digits(rest)
                && rest.len() < 3
                && (rest.is_empty() || *first != b'0')
        }
    }
}

/// Whether a version is one of WASI 0.2: `0.2.` and a number from 0 to 999 without a leading zero.
pub fn is_version(version: &[u8]) -> bool
    ensures { result ≡ is_version version.now }
{
    match version.strip_prefix(b"0.2.") {
        None => false,
        Some(patch) => is_patch(patch),
    }
}

/// What stands before the first `@` of a name, and what after it.
fn cut(name: &str) -> Option<(&str, &str)>
    ensures { option_map (λ p. (p.0.now, p.1.now)) result ≡ cut name.now }
{
    name.split_once('@')
}

/// The interface of that name in a version, if it is one of WASI 0.2.
fn in_version<'a>(base: &str, version: &'a str) -> Option<ListedName<'a>>
    ensures value { option_map plain_name result ≡ in_version version.now (interface_named base.now) }
    ensures bound { IfSome result (λ n. n.interface < INTERFACES) }
{
    if !is_version(version.as_bytes()) {
        return None;
    }
    match interface_named(base.as_bytes()) {
        None => None,
        Some(interface) => Some(ListedName { interface, version }),
    }
}

/// The listed interface that a name names, and in which version: none where it is another name, or the version is none of
/// WASI 0.2.
pub fn listed_name(name: &str) -> Option<ListedName<'_>>
    ensures value { option_map plain_name result ≡ listed_as name.now }
    ensures bound { IfSome result (λ n. n.interface < INTERFACES) }
{
    match cut(name) {
        None => None,
        Some((base, version)) => in_version(base, version),
    }
}
