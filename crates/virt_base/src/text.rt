//! Text in UTF-8, which contracts see as its bytes. Texts are in the order of their bytes.

ghost use Rattle.std.specs.Prelude.{◌≡◌, ◌↔◌, refl, Some, IfOk, IsTrue, IsErrOf, IsUtf8, bytes_eq, string_bytes};
ghost use Rattle.std.specs.Ordering.{nat_cmp};
ghost use Rattle.std.specs.Cmp.{partial_equiv_from_equiv};
ghost use Rattle.std.specs.Cmp.Lexicographic.{slice_cmp, nat_list_eq_equiv, nat_list_cmp_total, texts_ties, texts_po};
ghost use Rattle.virt_base.specs.declared.text.TextFault.TheVariants.{NotUtf8};

use crate::fault::NoMemory;
use std::alloc::Global;
use std::cmp::Ordering;
use std::convert::AsStr;
use std::marker::Model;

/// Text in UTF-8, which contracts see as its bytes.
#[derive(Debug, Drop)]
pub struct Text {
    chars: String,
}

/// Why bytes are no text.
#[derive(Debug, Clone, Copy, PartialEq, Eq)]
pub enum TextFault {
    NotUtf8,
    NoMemory,
}

impl Model for Text {
    ghost use Rattle.std.specs.Prelude.{List, ℕ, string_bytes};

    ghost Value = { List ℕ };

    ghost view = { λ t. string_bytes t.chars };
}

impl Text {
    /// The text of these bytes: `NotUtf8` exactly where they are no UTF-8.
    pub fn new(alloc: Global, bytes: &[u8]) -> Result<Text, TextFault>
        ensures text { IfOk result (λ t. t ≡ bytes.now) }
        ensures utf8 { IfOk result (λ t. IsUtf8 t) }
        ensures refused { IsErrOf result TextFault.NotUtf8 → ¬ (IsUtf8 bytes.now) }
        ensures refuses { ¬ (IsUtf8 bytes.now) → IsErrOf result TextFault.NotUtf8 }
    {
        let Ok(text) = str::from_utf8(bytes) else {
            return Err(TextFault::NotUtf8);
        };
        match Text::from_str(alloc, text) {
            Ok(text) => Ok(text),
            Err(NoMemory) => Err(TextFault::NoMemory),
        }
    }

    /// The text of a string slice.
    pub fn from_str(alloc: Global, text: &str) -> Result<Text, NoMemory>
        ensures { IfOk result (λ t. t ≡ text.now) }
    {
        let chars = String::from_str(alloc, text)?;
        Ok(Text { chars })
    }

    /// The text of a string, which takes no memory.
    pub fn from_string(chars: String) -> Text
        ensures { result ≡ string_bytes chars }
    {
        Text { chars }
    }

    /// The string of a text, which takes no memory.
    pub fn into_string(self) -> String
        ensures { string_bytes result ≡ self }
    {
        self.chars
    }

    pub fn bytes(&self) -> &[u8]
        ensures value { result.now ≡ self.now }
        ensures utf8 { IsUtf8 result.now }
    {
        self.chars.as_str().as_bytes()
    }

    pub fn as_str(&self) -> &str
        ensures { result.now ≡ self.now }
    {
        self.chars.as_str()
    }

    /// An equal text.
    pub fn copy(&self, alloc: Global) -> Result<Text, NoMemory>
        ensures { IfOk result (λ t. t ≡ self.now) }
    {
        Text::from_str(alloc, self.as_str())
    }

    /// Whether two texts have the same bytes.
    pub fn is_same(&self, other: &Text) -> bool
        ensures { IsTrue result ↔ (self.now ≡ other.now) }
    {
        self.chars == other.chars
    }
}

impl AsStr for Text {
    ghost text = { λ t. t };

    fn as_str(&self) -> &str {
        self.chars.as_str()
    }
}

impl PartialEq for Text {
    ghost eq = { bytes_eq };

    ghost laws = { partial_equiv_from_equiv nat_list_eq_equiv };

    fn eq(&self, other: &Text) -> bool {
        self.as_str() == other.as_str()
    }
}

impl Eq for Text {
    ghost laws = { nat_list_eq_equiv };
}

/// Texts are in the order of their bytes.
impl PartialOrd for Text {
    ghost partial_cmp = { λ a b. Some (slice_cmp nat_cmp a b) };

    ghost laws = { texts_po };

    fn partial_cmp(&self, other: &Text) -> Option<Ordering> {
        Some(self.cmp(other))
    }
}

impl Ord for Text {
    ghost cmp = { slice_cmp nat_cmp };

    ghost total = { nat_list_cmp_total };

    ghost matches_partial_cmp = { λ a b. refl };

    ghost matches_eq = { texts_ties };

    fn cmp(&self, other: &Text) -> Ordering {
        self.as_str().cmp(other.as_str())
    }
}
