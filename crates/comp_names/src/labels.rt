//! Which texts are labels: words of letters and digits that `-` joins (Component Model, Explainer.md, "Import and Export Definitions").

ghost use Rattle.std.specs.Prelude.{◌≡◌, ◌<◌, ◌==◌, ◌||◌, length, option_map, position, IfSome};
ghost use Rattle.std.specs.List.{list_all, slice_split};
ghost use Rattle.comp_names.specs.Labels.{is_digit, is_label, is_lower, is_upper, is_word, words_of};
ghost use Rattle.comp_names.specs.Names.{cut, parts_with, is_in_version};

fn is_lower(byte: u8) -> bool
    ensures { result ≡ is_lower byte }
{
    b'a' <= byte && byte <= b'z'
}

fn is_upper(byte: u8) -> bool
    ensures { result ≡ is_upper byte }
{
    b'A' <= byte && byte <= b'Z'
}

fn is_digit(byte: u8) -> bool
    ensures { result ≡ is_digit byte }
{
    b'0' <= byte && byte <= b'9'
}

fn is_all_lower(text: &[u8]) -> bool
    ensures { result ≡ list_all (λ b. is_lower b || is_digit b) text.now }
{
    text.iter().all(|b| is_lower(*b) || is_digit(*b))
}

fn is_all_upper(text: &[u8]) -> bool
    ensures { result ≡ list_all (λ b. is_upper b || is_digit b) text.now }
{
    text.iter().all(|b| is_upper(*b) || is_digit(*b))
}

/// A letter, and letters or digits, all letters in one case.
fn is_word(text: &[u8]) -> bool
    ensures { result ≡ is_word text.now }
{
    match text.split_first() {
        None => false,
        Some((first, rest)) => {
            is_lower(*first) && is_all_lower(rest) || is_upper(*first) && is_all_upper(rest)
        }
    }
}

/// A byte of a version: a letter, a digit, `.`, `-` or `+`.
pub fn is_in_version(byte: u8) -> bool
    ensures { result ≡ is_in_version byte }
{
    is_lower(byte)
        || is_upper(byte)
        || is_digit(byte)
        || byte == b'.'
        || byte == b'-'
        || byte == b'+'
}

fn place_of(text: &[u8], byte: u8) -> Option<usize>
    ensures place { result ≡ position (λ b. b == byte) text.now }
    ensures bound { IfSome result (λ place. place < length text.now) }
{
    text.iter().position(|b| *b == byte)
}

/// What stands before the first such byte, and what after it.
pub fn cut(text: &[u8], byte: u8) -> Option<(&[u8], &[u8])>
    ensures value { option_map (λ p. (p.0.now, p.1.now)) result ≡ cut byte text.now }
    ensures parts { slice_split (λ b. b == byte) text.now ≡ parts_with byte text.now (option_map (λ p. (p.0.now, p.1.now)) result) }
    ensures shorter { IfSome result (λ p. length p.1.now < length text.now) }
{
    match place_of(text, byte) {
        None => None,
        Some(place) => Some((&text[..place], &text[place + 1..])),
    }
}

/// Whether a text is a label: words that `-` joins.
pub fn is_label(text: &[u8]) -> bool
    ensures { result ≡ is_label text.now }
{
    let mut rest = text;
    while let Some((word, more)) = cut(rest, b'-') {
        if !is_word(word) {
            return false;
        }
        rest = more;
    }
    is_word(rest)
}
