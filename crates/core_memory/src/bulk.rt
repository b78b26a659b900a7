//! Many bytes are written, set or copied in the pages of a memory, page by page. Their pages are made first, so that nothing is written
//! where memory runs out.

ghost use Rattle.std.specs.Prelude.{◌≡◌, ◌+◌, ◌-◌, ◌*◌, ◌/◌, ◌≤◌, ◌<◌, ◌^◌, ◌++◌, length, take, drop, replicate, true, false, OnOk, OnErr, slice_index_or, ◌%◌};
ghost use Rattle.core_memory.specs.Page.{zeros};
ghost use Rattle.core_memory.specs.Pages.{bytes_in, made_in, Edits, IsPaged, Ready};
ghost use Rattle.core_memory.specs.Linear.{MakesSome, pages_of, touched};
ghost use Rattle.core_memory.specs.Replaced.{replaced, repeated};

use crate::page::{PAGE, Page};
use std::alloc::Global;
use std::mem;
use virt_base::NoMemory;

/// Makes the pages on which `len` bytes lie.
pub fn make_pages(
    pages: &mut Vec<Page>,
    alloc: Global,
    at: usize,
    len: usize,
) -> Result<(), NoMemory>
    requires paged { IsPaged pages.old.items }
    requires some { 0 < len }
    requires within { at + len ≤ 65536 * length pages.old.items }
    requires few { length pages.old.items < 2 ^ 32 }
    ensures bytes { bytes_in pages.new.items ≡ bytes_in pages.old.items }
    ensures len { length pages.new.items ≡ length pages.old.items }
    ensures paged { IsPaged pages.new.items }
    ensures ok { OnOk result (made_in pages.new.items ≡ touched (made_in pages.old.items) at len) }
    ensures ready { OnOk result (Ready (made_in pages.new.items) at len) }
    ensures err { OnErr result (MakesSome (made_in pages.old.items) (made_in pages.new.items) (at / 65536) (pages_of at len)) }
{
    for index in at / PAGE..(at + len - 1) / PAGE + 1 {
        pages[index].make(alloc)?;
    }
    Ok(())
}

/// Writes bytes at a place where the pages are made.
pub fn write_all(pages: &mut Vec<Page>, at: usize, bytes: &[u8])
    requires paged { IsPaged pages.old.items }
    requires within { at + length bytes.now ≤ 65536 * length pages.old.items }
    requires ready { Ready (made_in pages.old.items) at (length bytes.now) }
    requires few { length pages.old.items < 2 ^ 32 }
    ensures { Edits pages.old.items pages.new.items at bytes.now }
{
    let mut done = 0;
    while done < bytes.len() {
        let place = at + done;
        let count = (bytes.len() - done).min(PAGE - place % PAGE);
        write_piece(pages, place, &bytes[done..done + count]);
        done += count;
    }
}

// Writes bytes that lie on one page.
#[tactic(auto, using(crate::proofs::Sequence::made_there))]
fn write_piece(pages: &mut Vec<Page>, at: usize, bytes: &[u8])
    requires paged { IsPaged pages.old.items }
    requires place { at / 65536 < length pages.old.items }
    requires within { at % 65536 + length bytes.now ≤ 65536 }
    requires ready { slice_index_or (made_in pages.old.items) (at / 65536) false ≡ true }
    ensures { Edits pages.old.items pages.new.items at bytes.now }
{
    pages[at / PAGE].write(at % PAGE, bytes);
}

/// Sets bytes at a place to one value where the pages are made.
pub fn fill_all(pages: &mut Vec<Page>, at: usize, value: u8, len: usize)
    requires paged { IsPaged pages.old.items }
    requires within { at + len ≤ 65536 * length pages.old.items }
    requires ready { Ready (made_in pages.old.items) at len }
    requires few { length pages.old.items < 2 ^ 32 }
    ensures { Edits pages.old.items pages.new.items at (repeated len value) }
{
    let mut done = 0;
    while done < len {
        let place = at + done;
        let count = (len - done).min(PAGE - place % PAGE);
        fill_piece(pages, place, value, count);
        done += count;
    }
}

// Sets bytes that lie on one page to one value.
#[tactic(auto, using(crate::proofs::Sequence::made_there))]
fn fill_piece(pages: &mut Vec<Page>, at: usize, value: u8, len: usize)
    requires paged { IsPaged pages.old.items }
    requires place { at / 65536 < length pages.old.items }
    requires within { at % 65536 + len ≤ 65536 }
    requires ready { slice_index_or (made_in pages.old.items) (at / 65536) false ≡ true }
    ensures { Edits pages.old.items pages.new.items at (repeated len value) }
{
    pages[at / PAGE].fill(at % PAGE, len, value);
}

/// Copies bytes to a place where the pages are made, as if by way of another list.
pub fn copy_all(pages: &mut Vec<Page>, alloc: Global, to: usize, from: usize, len: usize)
    requires paged { IsPaged pages.old.items }
    requires to { to + len ≤ 65536 * length pages.old.items }
    requires from { from + len ≤ 65536 * length pages.old.items }
    requires ready { Ready (made_in pages.old.items) to len }
    requires few { length pages.old.items < 2 ^ 32 }
    ensures { Edits pages.old.items pages.new.items to (take len (drop from (bytes_in pages.old.items))) }
{
    if to <= from {
        copy_up(pages, alloc, to, from, len);
    } else {
        copy_down(pages, alloc, to, from, len);
    }
}

// Copies the lowest bytes first.
fn copy_up(pages: &mut Vec<Page>, alloc: Global, to: usize, from: usize, len: usize)
    requires paged { IsPaged pages.old.items }
    requires down { to ≤ from }
    requires from { from + len ≤ 65536 * length pages.old.items }
    requires ready { Ready (made_in pages.old.items) to len }
    requires few { length pages.old.items < 2 ^ 32 }
    ensures { Edits pages.old.items pages.new.items to (take len (drop from (bytes_in pages.old.items))) }
{
    let mut done = 0;
    while done < len {
        let room = (PAGE - (to + done) % PAGE).min(PAGE - (from + done) % PAGE);
        let count = (len - done).min(room);
        copy_piece(pages, alloc, to + done, from + done, count);
        done += count;
    }
}

// Copies the highest bytes first.
fn copy_down(pages: &mut Vec<Page>, alloc: Global, to: usize, from: usize, len: usize)
    requires paged { IsPaged pages.old.items }
    requires up { from ≤ to }
    requires to { to + len ≤ 65536 * length pages.old.items }
    requires ready { Ready (made_in pages.old.items) to len }
    requires few { length pages.old.items < 2 ^ 32 }
    ensures { Edits pages.old.items pages.new.items to (take len (drop from (bytes_in pages.old.items))) }
{
    let mut left = len;
    while left > 0 {
        let room = ((to + left - 1) % PAGE + 1).min((from + left - 1) % PAGE + 1);
        let count = left.min(room);
        left -= count;
        copy_piece(pages, alloc, to + left, from + left, count);
    }
}

// Copies bytes that lie on one page to bytes that lie on one page.
#[tactic(auto, using(crate::proofs::Sequence::made_there))]
fn copy_piece(pages: &mut Vec<Page>, alloc: Global, to: usize, from: usize, len: usize)
    requires paged { IsPaged pages.old.items }
    requires to { to % 65536 + len ≤ 65536 }
    requires from { from % 65536 + len ≤ 65536 }
    requires to_within { to / 65536 < length pages.old.items }
    requires from_within { from / 65536 < length pages.old.items }
    requires ready { slice_index_or (made_in pages.old.items) (to / 65536) false ≡ true }
    ensures { Edits pages.old.items pages.new.items to (take len (drop from (bytes_in pages.old.items))) }
{
    if to / PAGE == from / PAGE {
        pages[to / PAGE].copy(to % PAGE, from % PAGE, len);
    } else {
        let source = mem::replace(&mut pages[from / PAGE], Page::new(alloc));
        copy_over(&mut pages[to / PAGE], to % PAGE, &source, from % PAGE, len);
        pages[from / PAGE] = source;
    }
}

// Copies bytes of one page to another.
fn copy_over(target: &mut Page, to: usize, source: &Page, from: usize, len: usize)
    requires made { target.old.made ≡ true }
    requires to { to + len ≤ 65536 }
    requires from { from + len ≤ 65536 }
    ensures { target.new ≡ record target.old { bytes = replaced target.old.bytes to (take len (drop from source.now.bytes)) } }
{
    let bytes = source.bytes();
    if bytes.is_empty() {
        target.fill(to, len, 0);
    } else {
        target.write(to, &bytes[from..from + len]);
    }
}
