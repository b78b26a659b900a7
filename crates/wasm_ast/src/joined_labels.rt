//! A list of labels in one piece of memory. An enum or flags type may have many short ones.

ghost use Rattle.std.specs.Prelude.{◌≡◌, ◌==◌, ◌<◌, ◌∷◌, ◌++◌, IfOk, IfSome, OnOk, IsUtf8, length, option_map, position};
ghost use Rattle.wasm_ast.specs.JoinedLabels.{labels_in, labels_with};

use std::alloc::Global;
use std::marker::Model;
use virt_base::{Items, NoMemory, Text, TextFault};
use wasm_format::trimmed;

/// Stands between two labels: a byte that no text in UTF-8 has.
const BETWEEN: u8 = 0xFF;

/// One label or more in one piece of memory, since short texts with pieces of their own take many times their bytes.
/// Contracts see the list of labels.
#[derive(Debug, Drop)]
pub struct JoinedLabels {
    bytes: Vec<u8>,
}

impl Model for JoinedLabels {
    ghost use Rattle.std.specs.Prelude.{List, ℕ};
    ghost use Rattle.wasm_ast.specs.JoinedLabels.{AreTexts, labels_in};

    ghost Value = { List (List ℕ) };

    ghost view = { λ j. labels_in j.bytes.items };

    ghost invariant = { λ j. AreTexts (labels_in j.bytes.items) };
}

fn push_label(bytes: &mut Vec<u8>, label: &Text) -> Result<(), NoMemory>
    ensures bytes { OnOk result (bytes.new.items ≡ bytes.old.items ++ 255 ∷ label.now) }
    ensures text { IsUtf8 label.now }
{
    let text = label.bytes();
    bytes.push(BETWEEN)?;
    bytes.extend_from_slice(text)?;
    Ok(())
}

fn place_between(bytes: &[u8]) -> Option<usize>
    ensures place { result ≡ position (λ b. b == 255) bytes.now }
    ensures bound { IfSome result (λ place. place < length bytes.now) }
{
    bytes.iter().position(|b| *b == BETWEEN)
}

/// The first label, and what stands after it; nothing where only one label is left.
fn cut(bytes: &[u8]) -> Option<(&[u8], &[u8])>
    ensures labels { labels_in bytes.now ≡ labels_with bytes.now (option_map (λ p. (p.0.now, p.1.now)) result) }
    ensures shorter { IfSome result (λ p. length p.1.now < length bytes.now) }
{
    match place_between(bytes) {
        None => None,
        Some(place) => Some((&bytes[..place], &bytes[place + 1..])),
    }
}

fn text_of(alloc: Global, label: &[u8]) -> Result<Text, NoMemory>
    requires { IsUtf8 label.now }
    ensures { IfOk result (λ text. text ≡ label.now) }
{
    match Text::new(alloc, label) {
        Ok(text) => Ok(text),
        Err(TextFault::NoMemory) => Err(NoMemory),
        Err(TextFault::NotUtf8) => unreachable!(),
    }
}

impl JoinedLabels {
    /// A label, and those after it.
    pub fn new(alloc: Global, first: &Text, more: &[Text]) -> Result<JoinedLabels, NoMemory>
        ensures { IfOk result (λ joined. joined ≡ first.now ∷ more.now) }
    {
        let mut bytes = Vec::from_slice(alloc, first.bytes())?;
        let mut rest = more;
        while let Some((label, others)) = rest.split_first() {
            push_label(&mut bytes, label)?;
            rest = others;
        }
        let bytes = trimmed(alloc, bytes)?;
        Ok(JoinedLabels { bytes })
    }

    /// The labels, each by itself.
    pub fn apart(&self, alloc: Global) -> Result<Items<Text>, NoMemory>
        ensures { IfOk result (λ labels. labels ≡ self.now) }
    {
        let mut labels = Items::empty(alloc);
        let mut rest = self.bytes.as_slice();
        while let Some((label, behind)) = cut(rest) {
            labels.push(text_of(alloc, label)?)?;
            rest = behind;
        }
        labels.push(text_of(alloc, rest)?)?;
        Ok(labels)
    }
}
