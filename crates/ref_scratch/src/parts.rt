//! The parts of a text, and what each asks for: to stay, to go up, or a name.

#![tactic(auto)]

ghost use Rattle.std.specs.Prelude.{◌≡◌, ◌∷◌, ◌<◌, [], IfNone, IfSome, length};
ghost use Rattle.tree_table.specs.Paths.{part_of, parts_of, is_rooted};
ghost use Rattle.ref_scratch.specs.Places.{shown_part};

/// To stay, to go up, or to go to what has this name.
#[derive(Clone, Copy, PartialEq, Eq, Debug)]
pub enum PartKind {
    Stay,
    Up,
    Named,
}

fn kind_of(part: &[u8]) -> PartKind
    ensures { shown_part result ≡ part_of part.now }
{
    match part {
        [] => PartKind::Stay,
        [b'.'] => PartKind::Stay,
        [b'.', b'.'] => PartKind::Up,
        _ => PartKind::Named,
    }
}

pub fn part_kind(part: &str) -> PartKind
    ensures { shown_part result ≡ part_of part.now }
{
    kind_of(part.as_bytes())
}

/// What stands before the first slash of a text, and what after it.
pub fn cut(text: &str) -> Option<(&str, &str)>
    ensures last { IfNone result (parts_of text.now ≡ text.now ∷ []) }
    ensures more { IfSome result (λ p. parts_of text.now ≡ p.0.now ∷ parts_of p.1.now) }
    ensures shorter { IfSome result (λ p. length p.1.now < length text.now) }
{
    text.split_once('/')
}

fn is_rooted(text: &[u8]) -> bool
    ensures { result ≡ is_rooted text.now }
{
    match text {
        [b'/', ..] => true,
        _ => false,
    }
}

/// Whether a text begins with a slash.
pub fn begins_at_root(text: &str) -> bool
    ensures { result ≡ is_rooted text.now }
{
    is_rooted(text.as_bytes())
}
