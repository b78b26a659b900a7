//! A table cut into interfaces, items, lines and words, part by part. No memory is taken.

ghost use Rattle.std.specs.Prelude.{◌≡◌, ◌<◌, [], ◌∷◌, length, MatchOption};
ghost use Rattle.wasi_table.specs.Texts.{interfaces_in, items_in, items_of, left, lines_in, lines_of, parts_in, parts_of, words_in, words_of};

/// What is left of a text in parts, if a part is left.
pub type Rest = Option<&'static str>;

/// The first part and what is left, of parts that a character of ASCII joins.
fn cut(text: &'static str, joiner: char) -> Option<(&'static str, &'static str)>
    requires { joiner < 128 }
    ensures { MatchOption result (parts_of joiner text.now ≡ text.now ∷ []) (λ p. (parts_of joiner text.now ≡ p.0.now ∷ parts_of joiner p.1.now) × (length p.1.now < length text.now)) }
{
    text.split_once(joiner)
}

/// The next part and what is left.
fn next_part(rest: Rest, joiner: char) -> Option<(&'static str, Rest)>
    requires { joiner < 128 }
    ensures { MatchOption result (parts_in joiner rest.entry ≡ []) (λ p. (parts_in joiner rest.entry ≡ p.0.now ∷ parts_in joiner p.1) × (left p.1 < left rest.entry)) }
{
    let text = rest?;
    match cut(text, joiner) {
        None => Some((text, None)),
        Some((part, more)) => Some((part, Some(more))),
    }
}

/// The next word of a line.
pub fn next_word(rest: Rest) -> Option<(&'static str, Rest)>
    ensures { MatchOption result (words_in rest.entry ≡ []) (λ p. (words_in rest.entry ≡ p.0.now ∷ words_in p.1) × (left p.1 < left rest.entry)) }
{
    next_part(rest, ' ')
}

/// The next line of an item.
pub fn next_line(rest: Rest) -> Option<(&'static str, Rest)>
    ensures { MatchOption result (lines_in rest.entry ≡ []) (λ p. (lines_in rest.entry ≡ words_of p.0.now ∷ lines_in p.1) × (left p.1 < left rest.entry)) }
{
    next_part(rest, ',')
}

/// The next item of an interface.
pub fn next_item(rest: Rest) -> Option<(&'static str, Rest)>
    ensures { MatchOption result (items_in rest.entry ≡ []) (λ p. (items_in rest.entry ≡ lines_of p.0.now ∷ items_in p.1) × (left p.1 < left rest.entry)) }
{
    next_part(rest, ';')
}

/// The next interface of a table.
pub fn next_interface(rest: Rest) -> Option<(&'static str, Rest)>
    ensures { MatchOption result (interfaces_in rest.entry ≡ []) (λ p. (interfaces_in rest.entry ≡ items_of p.0.now ∷ interfaces_in p.1) × (left p.1 < left rest.entry)) }
{
    next_part(rest, '.')
}
