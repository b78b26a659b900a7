//! wasi:io/streams, where the stream is from or to a file of the scratch folder.

#![tactic(auto, using(wit_types::proofs::ValueLemmas::values, crate::proofs::RowLemmas::by_found))]

ghost use Rattle.std.specs.Prelude.{◌≡◌, ◌+◌, ◌<◌, ◌^◌, IfOk, IfSome, IsSome, length, unwrap_or, option_map};
ghost use Rattle.tree_table.specs.Tables.{Forest};
ghost use Rattle.tree_table.specs.Scratches.{content_at, file_at};
ghost use Rattle.reference_step.specs.InputStreams as input;
ghost use Rattle.reference_step.specs.OutputStreams as output;
ghost use Rattle.reference_step.specs.Handles.{ScratchIn, ScratchOut};
ghost use Rattle.reference_step.specs.State.{View};
ghost use Rattle.ref_answers.specs.Shown.{shown};
ghost use Rattle.ref_scratch.specs.Told.{told, settled};

use crate::folder::Folder;
use ref_answers::{Row, bytes, closed, done, moves, number, ok, returns};
use ref_rules::Content;
use std::alloc::Global;
use virt_base::NoMemory;

/// `read` and `blocking-read`: the next bytes, that many at most; at the end the stream is closed.
pub fn read_stream_row(
    alloc: Global,
    folder: &Folder,
    file: u32,
    place: u64,
    len: u64,
) -> Result<Row, NoMemory>
    requires { IsSome (file_at folder.now file) }
    ensures { IfOk result (λ row. (f : Forest) (v : View) → shown f row ≡ input.read (record v { scratch = folder.now }) (ScratchIn file place) len) }
{
    if folder.size(file) <= place {
        return Ok(returns(closed(alloc)?));
    }
    let next = folder.read(alloc, file, place, len)?;
    let at = place + next.len() as u64;
    Ok(moves(Content::ScratchIn(file, at), ok(alloc, bytes(next))?))
}

/// `skip` and `blocking-skip`: how many bytes are passed over.
pub fn skip_stream_row(
    alloc: Global,
    folder: &Folder,
    file: u32,
    place: u64,
    len: u64,
) -> Result<Row, NoMemory>
    requires { IsSome (file_at folder.now file) }
    ensures { IfOk result (λ row. (f : Forest) (v : View) → shown f row ≡ input.skip (record v { scratch = folder.now }) (ScratchIn file place) len) }
{
    let size = folder.size(file);
    if size <= place {
        return Ok(returns(closed(alloc)?));
    }
    let count = len.min(size - place);
    Ok(moves(
        Content::ScratchIn(file, place + count),
        ok(alloc, number(count))?,
    ))
}

/// Where a stream writes next: at its place, or at the end of its file.
fn place_in(folder: &Folder, file: u32, place: Option<u64>) -> u64
    requires { IsSome (file_at folder.now file) }
    ensures { result ≡ unwrap_or place (length (content_at folder.now file)) }
{
    match place {
        Some(place) => place,
        None => folder.size(file),
    }
}

/// The place of a stream after that many bytes.
fn moved(place: Option<u64>, len: u64) -> Option<u64>
    requires { IfSome place (λ p. p + len < 2 ^ 64) }
    ensures { result ≡ option_map (λ p. p + len) place }
{
    match place {
        Some(place) => Some(place + len),
        None => None,
    }
}

/// `write` and `blocking-write-and-flush`.
pub fn write_stream_row(
    alloc: Global,
    folder: &mut Folder,
    file: u32,
    place: Option<u64>,
    bytes: &[u8],
) -> Result<Row, NoMemory>
    requires { IsSome (file_at folder.old file) }
    ensures { IfOk result (λ row. (f : Forest) (v : View) → told f row folder.new ≡ settled folder.old (output.write (record v { scratch = folder.old }) (ScratchOut file place) bytes.now)) }
{
    let at = place_in(folder, file, place);
    match folder.write(file, at, bytes) {
        Ok(()) => {
            let next = moved(place, bytes.len() as u64);
            Ok(moves(Content::ScratchOut(file, next), done()))
        }
        Err(_) => Ok(returns(closed(alloc)?)),
    }
}

/// `write-zeroes` and `blocking-write-zeroes-and-flush`.
pub fn write_zeroes_row(
    alloc: Global,
    folder: &mut Folder,
    file: u32,
    place: Option<u64>,
    len: u64,
) -> Result<Row, NoMemory>
    requires { IsSome (file_at folder.old file) }
    ensures { IfOk result (λ row. (f : Forest) (v : View) → told f row folder.new ≡ settled folder.old (output.write-zeroes (record v { scratch = folder.old }) (ScratchOut file place) len)) }
{
    let at = place_in(folder, file, place);
    match folder.write_zeroes(file, at, len) {
        Ok(()) => Ok(moves(Content::ScratchOut(file, moved(place, len)), done())),
        Err(_) => Ok(returns(closed(alloc)?)),
    }
}
