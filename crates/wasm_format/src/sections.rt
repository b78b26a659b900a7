//! Sections up to the end of the bytes, and the last place at which they might have ended. Core modules and components share it.

ghost use Rattle.std.specs.Prelude.{◌≡◌, length, IfOk, OnOk};
ghost use Rattle.virt_base.specs.Place.{rest, place};
ghost use Rattle.wasm_format.specs.Sections.{Sections, Ran, run, good_at, ended};
ghost use Rattle.wasm_format.specs.Reads.{Reads};

use crate::stop::Stop;
use std::alloc::Global;
use virt_base::{Cursor, NoMemory};

/// What is built section by section.
pub trait Building: Drop {
    type Part: Drop;

    /// How the sections are spelled, and what each does.
    ghost sections: { Sections Self Self.Part };

    /// Reads the next section.
    fn read_part(&self, alloc: Global, c: &mut Cursor<'_>) -> Result<Self::Part, Stop>
        ensures input { c.new.bytes ≡ c.old.bytes }
        ensures value { Reads result c.new ((sections.form self.now).read (place c.old)) };

    /// Adds it. After `NoMemory` nothing is said of the value.
    fn add(&mut self, part: Self::Part) -> Result<(), NoMemory>
        ensures { OnOk result (self.new ≡ sections.next self.old part) };

    /// Whether the sections may end here.
    fn can_end(&self) -> bool
        ensures { result ≡ sections.can_end self.now };
}

/// Notes a place at which the sections may end.
fn note_end<B: Building>(c: &Cursor<'_>, state: &B, good: &mut usize)
    ensures { good.new ≡ good_at B.sections state.now good.old c.now.at }
{
    if state.can_end() {
        *good = c.at;
    }
}

/// Ends the sections at the cursor, if it has come to the end of the bytes and they may end there.
fn finish<B: Building>(c: &Cursor<'_>, state: B, good: &mut usize) -> Result<B, Stop>
    ensures ran { Ran result good.new (run B.sections 0 state good.old c.now.at (rest c.now)) }
    ensures end { OnOk result (c.now.at ≡ length c.now.bytes.now) }
{
    if !state.can_end() {
        return Err(Stop::Malformed);
    }
    *good = c.at;
    if c.at < c.bytes.len() {
        return Err(Stop::Malformed);
    }
    Ok(state)
}

/// Reads sections to the end of the bytes. `good` is left as the last place at which they might have ended.
pub fn read_sections<B: Building>(
    alloc: Global,
    c: &mut Cursor<'_>,
    mut state: B,
    good: &mut usize,
) -> Result<B, Stop>
    ensures input { c.new.bytes ≡ c.old.bytes }
    ensures ran { Ran result good.new (run B.sections (length (rest c.old)) state good.old c.old.at (rest c.old)) }
    ensures end { OnOk result (c.new.at ≡ length c.new.bytes.now) }
{
    for _ in 0..c.bytes.len() - c.at {
        if c.at == c.bytes.len() {
            return finish(c, state, good);
        }
        note_end(c, &state, good);
        let part = state.read_part(alloc, c)?;
        state.add(part)?;
    }
    finish(c, state, good)
}

/// Reads sections to the end of the bytes.
pub fn read_to_the_end<B: Building>(alloc: Global, c: &mut Cursor<'_>, state: B) -> Result<B, Stop>
    ensures input { c.new.bytes ≡ c.old.bytes }
    ensures value { Reads result c.new (ended (place c.old) (run B.sections (length (rest c.old)) state 0 c.old.at (rest c.old)).outcome) }
{
    let mut good = 0;
    read_sections(alloc, c, state, &mut good)
}
