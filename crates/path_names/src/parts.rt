//! Texts that are cut at a byte, or searched for one: paths, and other texts of a policy.

ghost use Rattle.std.specs.Prelude.{◌≡◌, ◌==◌, ◌<◌, IfSome, length, option_map, position};
ghost use Rattle.path_names.specs.Parts.{cut, holds_byte, parts_of, parts_with};

/// Whether a text has such a byte.
pub fn holds_byte(text: &[u8], byte: u8) -> bool
    ensures { result ≡ holds_byte byte text.now }
{
    text.iter().any(|b| *b == byte)
}

fn place_of(text: &[u8], byte: u8) -> Option<usize>
    ensures place { result ≡ position (λ b. b == byte) text.now }
    ensures bound { IfSome result (λ place. place < length text.now) }
{
    text.iter().position(|b| *b == byte)
}

/// What stands before the first such byte, and what after it.
pub fn cut(text: &[u8], byte: u8) -> Option<(&[u8], &[u8])>
    ensures value { option_map (λ p. (p.0.now, p.1.now)) result ≡ cut byte text.now }
    ensures parts { parts_of byte text.now ≡ parts_with byte text.now (option_map (λ p. (p.0.now, p.1.now)) result) }
    ensures shorter { IfSome result (λ p. length p.1.now < length text.now) }
{
    match place_of(text, byte) {
        None => None,
        Some(place) => Some((&text[..place], &text[place + 1..])),
    }
}
