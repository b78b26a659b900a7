//! The lines of what is seen of a run, kept until the run is over.

ghost use Rattle.std.specs.Prelude.{◌≡◌, ◌++◌, [], All, None, OnOk, map};
ghost use Rattle.host_port.specs.Calls.{plain_observation};
ghost use Rattle.script_lines.specs.Lines.{line_text, type_of};
ghost use Rattle.virt_words.specs.Lines.{PutsAll, text_of};
ghost use Rattle.virt_engine.specs.Lines.{IsLine, Adds};

use host_port::Observation;
use outside::{PutFailed, Sink};
use script_lines::append_line;
use std::alloc::Global;
use std::marker::Model;
use std::mem;
use virt_base::NoMemory;
use virt_words::put_lines;
use wit_types::WitType;

/// Lines of what is seen of a run, each with an LF at its end.
#[derive(Drop)]
pub struct Lines {
    /// One after the other.
    text: Vec<u8>,
    /// How many bytes each has.
    sizes: Vec<usize>,
}

impl Model for Lines {
    ghost use Rattle.std.specs.Prelude.{List, ℕ};
    ghost use Rattle.virt_words.specs.Lines.{cut};
    ghost use Rattle.virt_engine.specs.Lines.{AreLines};

    ghost Value = { List (List ℕ) };

    ghost view = { λ s. cut s.sizes.items s.text.items };

    ghost invariant = { λ s. AreLines s.sizes.items s.text.items };
}

impl Lines {
    pub fn none(alloc: Global) -> Lines
        ensures { result ≡ [] }
    {
        Lines {
            text: Vec::new(alloc),
            sizes: Vec::new(alloc),
        }
    }

    /// Adds the line of what is seen, where a returned value has this type. None is left where memory ran out.
    pub fn add(
        &mut self,
        alloc: Global,
        observation: &Observation,
        ty: Option<&WitType>,
    ) -> Result<(), NoMemory>
        ensures { OnOk result (Adds self.old self.new (line_text (type_of ty.entry) (plain_observation observation.now))) }
    {
        let Lines { text, sizes } = mem::replace(self, Lines::none(alloc));
        let mut sizes = sizes;
        let before = text.len();
        let longer = append_line(alloc, text, observation, ty)?;
        sizes.push(longer.len() - before)?;
        *self = Lines {
            text: longer,
            sizes,
        };
        Ok(())
    }

    /// Adds the lines of what is seen of a host.
    pub fn add_all(&mut self, alloc: Global, seen: &[Observation]) -> Result<(), NoMemory>
        ensures { OnOk result (self.new ≡ self.old ++ map (line_text None) (map plain_observation seen.now)) }
    {
        for observation in seen {
            self.add(alloc, observation, None)?;
        }
        Ok(())
    }

    /// Puts the lines, each by one `put`.
    pub fn put<S: Sink>(&self, out: &mut S) -> Result<(), PutFailed>
        ensures puts { PutsAll (text_of self.now) (S.state out.old) (S.state out.new) result }
        ensures seen { All IsLine self.now }
    {
        put_lines(self.text.as_slice(), self.sizes.as_slice(), out)
    }
}
