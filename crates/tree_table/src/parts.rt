//! The parts of a path's text, one after another, and what each asks for.

ghost use Rattle.std.specs.Prelude.{◌≡◌, ◌∷◌, [], IfSome, IfNone, position, nat_eq};
ghost use Rattle.tree_table.specs.Paths.{Stay, Up, Named, parts_of, part_of, is_rooted};

/// What a part of a path asks for.
#[derive(Clone, Copy, PartialEq, Eq, Debug)]
pub enum PartKind {
    Stay,
    Up,
    Named,
}

pub fn part_kind(part: &[u8]) -> PartKind
    ensures stay { result ≡ PartKind.Stay → part_of part.now ≡ Stay }
    ensures up { result ≡ PartKind.Up → part_of part.now ≡ Up }
    ensures named { result ≡ PartKind.Named → part_of part.now ≡ Named }
{
    match part {
        [] => PartKind::Stay,
        [b'.'] => PartKind::Stay,
        [b'.', b'.'] => PartKind::Up,
        _ => PartKind::Named,
    }
}

/// Where a text has its first slash.
fn slash(text: &[u8]) -> Option<usize>
    ensures { result ≡ position (λ b. nat_eq b 47) text.now }
{
    text.iter().position(|b| *b == b'/')
}

/// The first part of a text, and what is left after its slash.
pub fn first_part(text: &[u8]) -> (&[u8], Option<&[u8]>)
    ensures last { IfNone result.1 (parts_of text.now ≡ result.0.now ∷ []) }
    ensures more { IfSome result.1 (λ rest. parts_of text.now ≡ result.0.now ∷ parts_of rest.now) }
{
    match slash(text) {
        Some(at) => (&text[..at], Some(&text[at + 1..])),
        None => (text, None),
    }
}

/// Whether a text begins with a slash.
pub fn begins_at_root(text: &[u8]) -> bool
    ensures { result ≡ is_rooted text.now }
{
    match text {
        [b'/', ..] => true,
        _ => false,
    }
}
