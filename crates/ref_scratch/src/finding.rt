//! Where a text leads from the scratch folder.

#![tactic(auto, using(crate::proofs::FindLemmas::leads))]

ghost use Rattle.std.specs.Prelude.{◌≡◌, ◌∷◌, []};
ghost use Rattle.tree_table.specs.Paths.{parts_of};
ghost use Rattle.tree_table.specs.Scratches.{find_file};
ghost use Rattle.reference_step.specs.Nodes.{found_file, lead_in};
ghost use Rattle.ref_scratch.specs.Places.{shown_found, IsThere};
ghost use Rattle.ref_scratch.specs.Leads.{inner, lead_parts};

use crate::folder::Folder;
use crate::parts::{PartKind, begins_at_root, cut, part_kind};

/// The number of error codes in the enum `error-code`.
const NO_ENTRY: u32 = 20;

const NOT_DIRECTORY: u32 = 24;

const NOT_PERMITTED: u32 = 31;

/// What a text leads to, or the number of the error code.
#[derive(Debug, Clone, Copy, PartialEq, Eq)]
pub enum Found {
    Root,
    File(u32),
    Missing(u32),
}

/// The file of a name.
fn named(folder: &Folder, name: &str) -> Found
    ensures value { shown_found result ≡ found_file (find_file folder.now name.now) }
    ensures there { IsThere folder.now result }
{
    match folder.find(name) {
        Some(number) => Found::File(number),
        None => Found::Missing(NO_ENTRY),
    }
}

/// Where the last part leads.
fn last_part(folder: &Folder, part: &str) -> Found
    ensures value { shown_found result ≡ lead_parts folder.now (part.now ∷ []) }
    ensures there { IsThere folder.now result }
{
    match part_kind(part) {
        PartKind::Stay => Found::Root,
        PartKind::Up => Found::Missing(NOT_PERMITTED),
        PartKind::Named => named(folder, part),
    }
}

/// Where a name leads after which a part stands.
fn inner_part(folder: &Folder, name: &str) -> Found
    ensures { shown_found result ≡ inner (find_file folder.now name.now) }
{
    match folder.find(name) {
        Some(_) => Found::Missing(NOT_DIRECTORY),
        None => Found::Missing(NO_ENTRY),
    }
}

/// Where the parts of a text lead.
fn lead_parts(folder: &Folder, text: &str) -> Found
    ensures value { shown_found result ≡ lead_parts folder.now (parts_of text.now) }
    ensures there { IsThere folder.now result }
{
    let mut rest = text;
    while let Some((part, more)) = cut(rest) {
        match part_kind(part) {
            PartKind::Stay => {}
            PartKind::Up => return Found::Missing(NOT_PERMITTED),
            PartKind::Named => return inner_part(folder, part),
        }
        rest = more;
    }
    last_part(folder, rest)
}

/// Where a text leads from the scratch folder.
pub fn lead_in(folder: &Folder, text: &str) -> Found
    ensures value { shown_found result ≡ lead_in folder.now text.now }
    ensures there { IsThere folder.now result }
{
    if text.is_empty() {
        return Found::Missing(NO_ENTRY);
    }
    if begins_at_root(text) {
        return Found::Missing(NOT_PERMITTED);
    }
    lead_parts(folder, text)
}
