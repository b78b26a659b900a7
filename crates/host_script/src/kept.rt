//! The answers that a script has left, each as the compact text of its JSON, in one buffer.

ghost use Rattle.std.specs.Prelude.{◌≡◌, [], ◌∷◌, ◌++◌, OnErr, OnOk, drop, MatchOption};

use std::alloc::Global;
use std::marker::Model;
use virt_base::NoMemory;

/// The answers of a script that are left, in order, each as the compact text of its JSON. The texts stand in one buffer.
#[derive(Debug, Drop)]
pub struct Answers {
    bytes: Vec<u8>,
    lengths: Vec<u32>,
    /// That many texts were passed.
    passed: usize,
    /// The first text that is left begins here.
    start: usize,
}

impl Model for Answers {
    ghost use Rattle.std.specs.Prelude.{List, ℕ};
    ghost use Rattle.host_script.specs.Kept.{texts_left, HasTexts};

    ghost Value = { List (List ℕ) };

    ghost view = { λ a. texts_left a.passed a.start a.lengths.items a.bytes.items };

    ghost invariant = { λ a. HasTexts a.passed a.start a.lengths.items a.bytes.items };
}

impl Answers {
    /// No answer, which takes no memory.
    pub fn none(alloc: Global) -> Answers
        ensures { result ≡ [] }
    {
        Answers {
            bytes: Vec::new(alloc),
            lengths: Vec::new(alloc),
            passed: 0,
            start: 0,
        }
    }

    /// Where its memory comes from.
    pub fn allocator(&self) -> Global {
        *self.bytes.allocator()
    }

    /// Adds an answer at the end. Where memory runs out, nothing changes.
    pub fn push(&mut self, text: &[u8]) -> Result<(), NoMemory>
        ensures ok { OnOk result (self.new ≡ self.old ++ text.now ∷ []) }
        ensures err { OnErr result (self.new ≡ self.old) }
    {
        // No text of a script is longer.
        let Ok(length) = u32::try_from(text.len()) else {
            return Err(NoMemory);
        };
        self.lengths.reserve(1)?;
        self.bytes.extend_from_slice(text)?;
        self.lengths.push_reserved(length);
        Ok(())
    }

    /// The first answer that is left.
    pub fn first(&self) -> Option<&[u8]>
        ensures { MatchOption result (self.now ≡ []) (λ text. self.now ≡ text.now ∷ drop 1 self.now) }
    {
        if self.passed < self.lengths.len() {
            let end = self.start + self.lengths[self.passed] as usize;
            Some(&self.bytes[self.start..end])
        } else {
            None
        }
    }

    /// Passes the first answer that is left.
    pub fn pass(&mut self)
        ensures { self.new ≡ drop 1 self.old }
    {
        if self.passed < self.lengths.len() {
            self.start += self.lengths[self.passed] as usize;
            self.passed += 1;
        }
    }
}
