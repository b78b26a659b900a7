//! The name that a text may give to a new file, or the error code where it gives none.

#![tactic(auto, using(crate::proofs::NameLemmas::naming))]

ghost use Rattle.std.specs.Prelude.{◌≡◌, ◌∷◌, []};
ghost use Rattle.tree_table.specs.Paths.{parts_of, part_of};
ghost use Rattle.reference_step.specs.Nodes.{is_stay, legal, new_name};
ghost use Rattle.ref_scratch.specs.Places.{shown_name};
ghost use Rattle.ref_scratch.specs.Names.{new_of};

use crate::parts::{PartKind, begins_at_root, cut, part_kind};
use path_names::holds_byte;

/// The numbers of error codes in the enum `error-code`.
const ILLEGAL_BYTE_SEQUENCE: u32 = 9;

const NAME_TOO_LONG: u32 = 18;

const NO_ENTRY: u32 = 20;

/// The most bytes of a name.
const MOST: usize = 255;

/// A name, or the number of the error code.
#[derive(Debug, Clone, Copy)]
pub enum NewName<'a> {
    Named(&'a str),
    Unnamed(u32),
}

fn legal(name: &str) -> NewName<'_>
    ensures { shown_name result ≡ legal name.now }
{
    if name.len() > MOST {
        NewName::Unnamed(NAME_TOO_LONG)
    } else if holds_byte(name.as_bytes(), 0) {
        NewName::Unnamed(ILLEGAL_BYTE_SEQUENCE)
    } else {
        NewName::Named(name)
    }
}

fn is_stay(part: &str) -> bool
    ensures { result ≡ is_stay (part_of part.now) }
{
    match part_kind(part) {
        PartKind::Stay => true,
        PartKind::Up => false,
        PartKind::Named => false,
    }
}

fn last_part(part: &str) -> NewName<'_>
    ensures { shown_name result ≡ new_of (part.now ∷ []) }
{
    match part_kind(part) {
        PartKind::Stay => NewName::Unnamed(NO_ENTRY),
        PartKind::Up => NewName::Unnamed(NO_ENTRY),
        PartKind::Named => legal(part),
    }
}

fn new_part(text: &str) -> NewName<'_>
    ensures { shown_name result ≡ new_of (parts_of text.now) }
{
    let mut rest = text;
    while let Some((part, more)) = cut(rest) {
        if !is_stay(part) {
            return NewName::Unnamed(NO_ENTRY);
        }
        rest = more;
    }
    last_part(rest)
}

/// A text has a new name where its parts, but empty ones and `.`, are exactly one name, and that is the last part.
pub fn new_name(text: &str) -> NewName<'_>
    ensures { shown_name result ≡ new_name text.now }
{
    if begins_at_root(text) {
        return NewName::Unnamed(NO_ENTRY);
    }
    new_part(text)
}
