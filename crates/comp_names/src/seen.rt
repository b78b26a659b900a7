//! Names that were met, so that a second one like an earlier one is found. Letters of either case are alike, or only the same names are
//! (Component Model, Explainer.md, "Name Uniqueness").

ghost use Rattle.std.specs.Prelude.{◌≡◌, ◌||◌, not, false, List, ℕ, IfOk, OnOk, OnErr};
ghost use Rattle.comp_names.specs.Same.{is_same_name};
ghost use Rattle.comp_names.specs.Seen.{holds, holds_text};
ghost use Rattle.std.specs.Str.{bytes_eq};

use std::alloc::Global;
use std::collections::BTreeMap;
use virt_base::NoMemory;

/// Names that were met, where letters of either case are alike.
#[derive(Drop)]
pub struct SeenNames {
    seen: BTreeMap<String, bool>,
}

impl SeenNames {
    /// No name so far.
    pub fn new(alloc: Global) -> SeenNames
        ensures { (q : List ℕ) → holds result q ≡ false }
    {
        SeenNames {
            seen: BTreeMap::new(alloc),
        }
    }

    /// Adds a name. Whether none like it was there. Where memory runs out, nothing changes.
    pub fn add(&mut self, alloc: Global, name: &str) -> Result<bool, NoMemory>
        ensures new { IfOk result (λ new. new ≡ not (holds self.old name.now)) }
        ensures added { OnOk result ((q : List ℕ) → holds self.new q ≡ (is_same_name name.now q || holds self.old q)) }
        ensures err { OnErr result ((q : List ℕ) → holds self.new q ≡ holds self.old q) }
    {
        let key = name.to_ascii_lowercase(alloc)?;
        let old = self.seen.insert(key, true)?;
        Ok(old.is_none())
    }
}

/// Names that were met, where only the same name is alike.
#[derive(Drop)]
pub struct SeenTexts<'a> {
    seen: BTreeMap<&'a str, bool>,
}

impl<'a> SeenTexts<'a> {
    /// No name so far.
    pub fn new(alloc: Global) -> SeenTexts<'a>
        ensures { (q : List ℕ) → holds_text result q ≡ false }
    {
        SeenTexts {
            seen: BTreeMap::new(alloc),
        }
    }

    /// Adds a name. Whether it was not there.
    pub fn add(&mut self, name: &'a str) -> Result<bool, NoMemory>
        ensures new { IfOk result (λ new. new ≡ not (holds_text self.old name.now)) }
        ensures added { OnOk result ((q : List ℕ) → holds_text self.new q ≡ (bytes_eq name.now q || holds_text self.old q)) }
        ensures err { OnErr result ((q : List ℕ) → holds_text self.new q ≡ holds_text self.old q) }
    {
        let old = self.seen.insert(name, true)?;
        Ok(old.is_none())
    }
}
