//! The items of an interface, as the keywords at their beginning tell them apart.

ghost use Rattle.std.specs.Prelude.{◌≡◌, option_map};
ghost use Rattle.wasi_table.specs.Items.{item_as, item_in, plain_item};
ghost use Rattle.wasi_table.specs.Texts.{lines_in, lines_of, words_in};

use crate::cut::{Rest, next_line, next_word};

/// An item of a table: what an interface uses, defines or offers.
#[derive(Clone, Copy)]
pub enum Item {
    /// A type of this name that another interface defines.
    Use(&'static str),
    /// A name for a type in words.
    Alias(&'static str, Rest),
    /// A record, with a line for each field: its label, and its type in words.
    Record(&'static str, Rest),
    /// A variant, with a line for each case: its label, and its payload's type in words if it has one.
    Variant(&'static str, Rest),
    /// Flags with these labels.
    Flags(&'static str, Rest),
    /// An enumeration with these labels.
    Enum(&'static str, Rest),
    /// A resource, with a line for each method: its own name, then its signature.
    Resource(&'static str, Rest),
    /// A function and its signature.
    Function(&'static str, Rest),
}

fn item_as(keyword: &str, name: &'static str, words: Rest, lines: Rest) -> Option<Item>
    ensures { option_map plain_item result ≡ item_as keyword.now name.now (words_in words.entry) (lines_in lines.entry) }
{
    match keyword {
        "use" => Some(Item::Use(name)),
        "type" => Some(Item::Alias(name, words)),
        "record" => Some(Item::Record(name, lines)),
        "variant" => Some(Item::Variant(name, lines)),
        "flags" => Some(Item::Flags(name, words)),
        "enum" => Some(Item::Enum(name, words)),
        "resource" => Some(Item::Resource(name, lines)),
        "function" => Some(Item::Function(name, words)),
        _ => None,
    }
}

/// The item that a text spells: in its first line a keyword, a name and words.
pub fn item_in(text: &'static str) -> Option<Item>
    ensures { option_map plain_item result ≡ item_in (lines_of text.now) }
{
    let (head, lines) = next_line(Some(text))?;
    let (keyword, rest) = next_word(Some(head))?;
    let (name, words) = next_word(rest)?;
    item_as(keyword, name, words, lines)
}
