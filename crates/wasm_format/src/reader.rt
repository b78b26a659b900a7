//! What a reader is, and the readers that are made of others: a count and that many, a size and content that fills it, a value with the
//! part of the input where it stands.

ghost use Rattle.std.specs.Prelude.{◌≡◌, ℕ, List};
ghost use Rattle.virt_base.specs.Place.{place};
ghost use Rattle.wasm_format.specs.Format.{Format, vec, vec_of, read_items, sized, spanned};
ghost use Rattle.wasm_format.specs.Reads.{Reads};

use crate::numbers::U32;
use crate::stop::Stop;
use crate::trim::trimmed;
use std::alloc::Global;
use virt_base::{Cursor, Items};

/// Reads values of a type.
pub trait Reader {
    type Value: Drop;

    /// How they are spelled.
    ghost format: { Self → Format Self.Value };

    /// Reads one at the cursor.
    fn read(&self, alloc: Global, c: &mut Cursor<'_>) -> Result<Self::Value, Stop>
        ensures input { c.new.bytes ≡ c.old.bytes }
        ensures value { Reads result c.new ((format self.now).read (place c.old)) };
}

fn items_of<R: Reader>(
    reader: &R,
    alloc: Global,
    c: &mut Cursor<'_>,
    count: u32,
) -> Result<Items<R::Value>, Stop>
    ensures input { c.new.bytes ≡ c.old.bytes }
    ensures value { Reads result c.new (read_items (R.format reader.now) count (place c.old)) }
{
    let mut items = Vec::new(alloc);
    for _ in 0..count {
        let item = reader.read(alloc, c)?;
        items.push(item)?;
    }
    let whole = trimmed(alloc, items)?;
    Ok(Items::new(whole))
}

/// A count, and that many. No memory is reserved by the count.
#[derive(Drop)]
pub struct Vecs<R>(pub R);

impl<R: Reader> Reader for Vecs<R> {
    type Value = Items<R::Value>;

    ghost format = { λ s. vec (R.format s.0) };

    fn read(&self, alloc: Global, c: &mut Cursor<'_>) -> Result<Items<R::Value>, Stop> {
        let count = U32.read(alloc, c)?;
        items_of(&self.0, alloc, c, count)
    }
}

/// A count that must be this one, and that many.
#[derive(Drop)]
pub struct CountedVecs<R> {
    pub count: usize,
    pub item: R,
}

impl<R: Reader> Reader for CountedVecs<R> {
    type Value = Items<R::Value>;

    ghost format = { λ s. vec_of s.count (R.format s.item) };

    fn read(&self, alloc: Global, c: &mut Cursor<'_>) -> Result<Items<R::Value>, Stop> {
        let count = U32.read(alloc, c)?;
        if count as usize != self.count {
            return Err(Stop::Malformed);
        }
        items_of(&self.item, alloc, c, count)
    }
}

/// A size, and content that fills it.
#[derive(Drop)]
pub struct Sized<R>(pub R);

impl<R: Reader> Reader for Sized<R> {
    type Value = R::Value;

    ghost format = { λ s. sized (R.format s.0) };

    fn read(&self, alloc: Global, c: &mut Cursor<'_>) -> Result<R::Value, Stop> {
        sized_by(&self.0, alloc, c)
    }
}

fn sized_by<R: Reader>(reader: &R, alloc: Global, c: &mut Cursor<'_>) -> Result<R::Value, Stop>
    ensures input { c.new.bytes ≡ c.old.bytes }
    ensures value { Reads result c.new ((sized (R.format reader.now)).read (place c.old)) }
{
    let size = U32.read(alloc, c)? as usize;
    if c.bytes.len() - c.at < size {
        return Err(Stop::Malformed);
    }
    let end = c.at + size;
    let mut inside = Cursor {
        bytes: &c.bytes[..end],
        at: c.at,
    };
    let content = reader.read(alloc, &mut inside)?;
    if inside.at != end {
        return Err(Stop::Malformed);
    }
    c.at = end;
    Ok(content)
}

/// Puts beside a value the part of the input where it stands, from one offset up to another.
pub trait Spanning<A> {
    type Whole: Drop;

    ghost put: { ℕ → ℕ → A → Self.Whole };

    fn put(&self, from: u64, to: u64, content: A) -> Self::Whole
        ensures { result ≡ put from to content };
}

/// A value, with the part of the input where it stands.
#[derive(Drop)]
pub struct Spanned<R, M> {
    pub item: R,
    pub make: M,
}

impl<R: Reader, M: Spanning<R::Value>> Reader for Spanned<R, M> {
    type Value = M::Whole;

    ghost format = { λ s. spanned M.put (R.format s.item) };

    fn read(&self, alloc: Global, c: &mut Cursor<'_>) -> Result<M::Whole, Stop> {
        let from = c.at;
        let content = self.item.read(alloc, c)?;
        Ok(self.make.put(from as u64, c.at as u64, content))
    }
}
