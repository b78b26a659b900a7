//! Which names components may import and export by, and what `[constructor]`, `[method]` and `[static]` say of a function (Component
//! Model, Explainer.md, "Import and Export Definitions").

ghost use Rattle.std.specs.Prelude.{◌≡◌, option_map, codes};
ghost use Rattle.std.specs.List.{list_all};
ghost use Rattle.comp_names.specs.Names.{annotation_of, behind, cut, is_in_namespace, is_in_package, is_in_version, is_interface, is_legal, is_version, is_versioned, of_constructor, of_member};

use crate::labels::{cut, is_in_version, is_label};

/// What the annotation of a name says of its function.
#[derive(Debug, Clone, Copy, PartialEq, Eq)]
pub enum Annotation {
    Constructor,
    Method,
    Static,
}

/// What stands after a prefix.
fn behind<'a>(prefix: &[u8], text: &'a [u8]) -> Option<&'a [u8]>
    ensures { option_map (λ p. p.now) result ≡ behind prefix.now text.now }
{
    match text.strip_prefix(prefix) {
        None => None,
        Some(rest) => Some(rest),
    }
}

/// The resource of a constructor: the whole label.
fn of_constructor<'a>(rest: Option<&'a [u8]>) -> Option<&'a [u8]>
    ensures { option_map (λ p. p.now) result ≡ of_constructor (option_map (λ p. p.now) rest.entry) }
{
    let label = rest?;
    if is_label(label) { Some(label) } else { None }
}

/// The resource of a method or a static function: the label before the point.
fn of_member<'a>(rest: Option<&'a [u8]>) -> Option<&'a [u8]>
    ensures { option_map (λ p. p.now) result ≡ of_member (option_map (λ p. p.now) rest.entry) }
{
    let (resource, member) = cut(rest?, b'.')?;
    if is_label(resource) && is_label(member) {
        Some(resource)
    } else {
        None
    }
}

/// A name's annotation, and the label of its resource.
pub fn annotation_of(name: &[u8]) -> Option<(Annotation, &[u8])>
    ensures { option_map (λ p. (p.0, p.1.now)) result ≡ annotation_of name.now }
{
    if let Some(label) = of_constructor(behind(b"[constructor]", name)) {
        return Some((Annotation::Constructor, label));
    }
    if let Some(label) = of_member(behind(b"[method]", name)) {
        return Some((Annotation::Method, label));
    }
    match of_member(behind(b"[static]", name)) {
        Some(label) => Some((Annotation::Static, label)),
        None => None,
    }
}

fn is_all_in_version(text: &[u8]) -> bool
    ensures { result ≡ list_all is_in_version text.now }
{
    text.iter().all(|b| is_in_version(*b))
}

fn is_version(text: &[u8]) -> bool
    ensures { result ≡ is_version text.now }
{
    !text.is_empty() && is_all_in_version(text)
}

/// A label, and perhaps `@` and a version.
fn is_versioned(text: &[u8]) -> bool
    ensures { result ≡ is_versioned text.now (cut 64 text.now) }
{
    match cut(text, b'@') {
        None => is_label(text),
        Some((label, version)) => is_label(label) && is_version(version),
    }
}

/// A label, `/`, and a label with or without a version.
fn is_in_package(text: &[u8]) -> bool
    ensures { result ≡ is_in_package (cut 47 text.now) }
{
    match cut(text, b'/') {
        None => false,
        Some((package, interface)) => is_label(package) && is_versioned(interface),
    }
}

fn is_interface(name: &[u8]) -> bool
    ensures { result ≡ is_interface name.now }
{
    match cut(name, b':') {
        None => false,
        Some((namespace, rest)) => is_label(namespace) && is_in_package(rest),
    }
}

/// Whether a component may import or export by this name.
pub fn is_legal(name: &[u8]) -> bool
    ensures { result ≡ is_legal name.now }
{
    is_label(name) || annotation_of(name).is_some() || is_interface(name)
}
