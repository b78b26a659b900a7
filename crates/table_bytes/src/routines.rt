//! The routines that take and free a place of a slot table.

ghost use Rattle.std.specs.Prelude.{◌≡◌, [], ◌∷◌, IfOk};
ghost use Rattle.adapter_code.specs.declared.statement.Statement.{Const};
ghost use Rattle.adapter_code.specs.Code.{Stop, Then, code_of};
ghost use Rattle.adapter_code.specs.Placed.{placed};
ghost use Rattle.table_bytes.specs.Routines.{own_places, to_spot, enter_code, take_code, free_code};

use crate::{element, minus, placed_at, plus, unless, when};
use adapter_code::{Field, Statements, append, constant, less, load, store};
use std::alloc::Global;
use virt_base::NoMemory;

/// The locals that the routines on slot tables use, each of 32 bits but the last, and no two of them one.
#[derive(Clone, Copy, Debug)]
pub struct TableLocals {
    /// Where the table begins, when a routine ends.
    pub base: u32,
    /// The place that is taken or freed.
    pub place: u32,
    /// This one is lost.
    pub scratch: u32,
    /// This one is lost.
    pub spot: u32,
    /// Whether a place was taken: 1, or 0 where every place is used.
    pub found: u32,
    /// The entry for which a place is taken.
    pub tag: u32,
    pub word: u32,
    pub long: u32,
}

/// The locals by their own numbers, before a routine is put at other places.
pub const OWN: TableLocals = TableLocals {
    base: 0,
    place: 1,
    scratch: 2,
    spot: 3,
    found: 4,
    tag: 5,
    word: 6,
    long: 7,
};

/// Where a table names its first free place.
pub const HEAD: Field = Field {
    offset: 0,
    width: 4,
};

/// The tag of a place, from the place in `spot` on.
pub const TAG: Field = Field {
    offset: 8,
    width: 1,
};

pub const WORD: Field = Field {
    offset: 12,
    width: 4,
};

pub const LONG: Field = Field {
    offset: 16,
    width: 8,
};

/// Takes the first free place of the table at `base`, in at most 19 statements.
pub fn take(
    alloc: Global,
    base: u32,
    capacity: u32,
    l: &TableLocals,
) -> Result<Statements, NoMemory>
    ensures { IfOk result (λ list. code_of list.items ≡ placed (own_places l.now) (take_code base capacity)) }
{
    let own = own_take(alloc, base, capacity)?;
    let places = places_of(l);
    placed_at(alloc, &places, &own)
}

/// Frees a place of the table at `base`, in at most 13 statements.
pub fn free(alloc: Global, base: u32, l: &TableLocals) -> Result<Statements, NoMemory>
    ensures { IfOk result (λ list. code_of list.items ≡ placed (own_places l.now) (free_code base)) }
{
    let own = own_free(alloc, base)?;
    let places = places_of(l);
    placed_at(alloc, &places, &own)
}

fn places_of(l: &TableLocals) -> [u32; 8]
    ensures { result ≡ own_places l.now }
{
    [
        l.base, l.place, l.scratch, l.spot, l.found, l.tag, l.word, l.long,
    ]
}

fn own_take(alloc: Global, base: u32, capacity: u32) -> Result<Statements, NoMemory>
    ensures { IfOk result (λ list. code_of list.items ≡ take_code base capacity) }
{
    // a head that is not 0 names the place of one less
    let lowered = minus(alloc, OWN.place, OWN.place, 1, OWN.scratch)?;
    let entered = enter(alloc)?;
    let list = vec![in alloc;
        constant(OWN.base, base as u64),
        load(OWN.place, OWN.base, HEAD),
        when(alloc, OWN.place, lowered),
        constant(OWN.scratch, capacity as u64),
        less(OWN.found, OWN.place, OWN.scratch),
        when(alloc, OWN.found, entered),
    ]?;
    Ok(list)
}

// The place leaves the chain, and the entry is written.
fn enter(alloc: Global) -> Result<Statements, NoMemory>
    ensures { IfOk result (λ list. code_of list.items ≡ enter_code) }
{
    // the head becomes the link of the place, or the place after where that was never written
    let stepped = plus(alloc, OWN.scratch, OWN.place, 2)?;
    let rest = vec![in alloc;
        load(OWN.scratch, OWN.spot, WORD),
        unless(alloc, OWN.scratch, stepped),
        store(OWN.scratch, OWN.base, HEAD),
        store(OWN.tag, OWN.spot, TAG),
        store(OWN.word, OWN.spot, WORD),
        store(OWN.long, OWN.spot, LONG),
    ]?;
    let mut list = spot(alloc)?;
    append(&mut list, rest)?;
    Ok(list)
}

/// The same over the own locals, which are those of `OWN`.
pub fn own_free(alloc: Global, base: u32) -> Result<Statements, NoMemory>
    ensures { IfOk result (λ list. code_of list.items ≡ free_code base) }
{
    let first = vec![in alloc; constant(OWN.scratch, 1)]?;
    let linked = vec![in alloc;
        load(OWN.scratch, OWN.base, HEAD),
        unless(alloc, OWN.scratch, first),
        store(OWN.scratch, OWN.spot, WORD),
        constant(OWN.scratch, 0),
        store(OWN.scratch, OWN.spot, TAG),
    ]?;
    let mut list = to_place(alloc, base)?;
    append(&mut list, linked)?;
    append(&mut list, plus(alloc, OWN.scratch, OWN.place, 1)?)?;
    append(
        &mut list,
        vec![in alloc; store(OWN.scratch, OWN.base, HEAD)]?,
    )?;
    Ok(list)
}

/// Finds the spot of a place of the table at `base`: eight bytes before it begins.
pub fn to_place(alloc: Global, base: u32) -> Result<Statements, NoMemory>
    ensures { IfOk result (λ list. code_of list.items ≡ Then (Const 0 base) (to_spot Stop)) }
{
    let mut list = vec![in alloc; constant(OWN.base, base as u64)]?;
    append(&mut list, spot(alloc)?)?;
    Ok(list)
}

fn spot(alloc: Global) -> Result<Statements, NoMemory>
    ensures { IfOk result (λ list. code_of list.items ≡ to_spot Stop) }
{
    element(alloc, OWN.spot, OWN.base, OWN.place, 16, OWN.scratch)
}
