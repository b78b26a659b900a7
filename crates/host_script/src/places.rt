//! Where each name of a list stands first, kept in an ordered map.

ghost use Rattle.std.specs.Prelude.{◌≡◌, if◌then◌else◌, List, ℕ, None, Some, OnErr, OnOk, string_bytes};
ghost use Rattle.std.specs.Option.{option_or};
ghost use Rattle.std.specs.Str.{bytes_eq};

use std::alloc::Global;
use std::collections::BTreeMap;
use virt_base::NoMemory;

/// Where each name of a list stands first. Names are kept in the order of their bytes, so that no list of names makes a look-up
/// slow.
#[derive(Debug, Drop)]
pub struct Places {
    by_name: BTreeMap<String, usize>,
}

impl Places {
    ghost use Rattle.host_script.specs.Exports.{place_of};

    /// No name, which takes no memory.
    pub fn none(alloc: Global) -> Places
        ensures { (q : List ℕ) → place_of result q ≡ None }
    {
        Places {
            by_name: BTreeMap::new(alloc),
        }
    }

    /// The place of a name that has none yet; that of others stays.
    pub fn add(&mut self, name: String, place: usize) -> Result<(), NoMemory>
        ensures ok { OnOk result ((q : List ℕ) → place_of self.new q ≡ option_or (place_of self.old q) (if bytes_eq (string_bytes name) q then Some place else None)) }
        ensures err { OnErr result ((q : List ℕ) → place_of self.new q ≡ place_of self.old q) }
    {
        if self.by_name.contains_key(name.as_str()) {
            return Ok(());
        }
        self.by_name.insert(name, place)?;
        Ok(())
    }

    /// The place of a name.
    pub fn get(&self, name: &str) -> Option<usize>
        ensures { result ≡ place_of self.now name.now }
    {
        self.by_name.get(name).copied()
    }
}
