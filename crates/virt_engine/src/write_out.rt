//! The output file: it is created, and its three parts are added in pieces, each by one call.

ghost use Rattle.std.specs.Prelude.{◌≡◌, ◌++◌};
ghost use Rattle.virt_engine.specs.Writing.{Adds, Writes};

use outside::{Files, WriteFailed};
use virt_base::Text;

/// This many bytes are added to a file in one call.
const PIECE: usize = 65_536;

/// Adds bytes to the end of a file, piece by piece.
fn add_pieces<F: Files>(name: &Text, bytes: &[u8], files: &mut F) -> Result<(), WriteFailed>
    ensures { Adds name.now bytes.now (F.state files.old) (F.state files.new) result }
{
    let mut at = 0;
    while at < bytes.len() {
        let end = at + PIECE.min(bytes.len() - at);
        files.append(name, &bytes[at..end])?;
        at = end;
    }
    Ok(())
}

/// Adds three parts, one after another.
fn add_parts<F: Files>(
    name: &Text,
    front: &[u8],
    middle: &[u8],
    back: &[u8],
    files: &mut F,
) -> Result<(), WriteFailed>
    ensures { Adds name.now (front.now ++ (middle.now ++ back.now)) (F.state files.old) (F.state files.new) result }
{
    files.append(name, front)?;
    add_pieces(name, middle, files)?;
    files.append(name, back)
}

/// Writes a file of three parts anew.
pub fn write_out<F: Files>(
    name: &Text,
    front: &[u8],
    middle: &[u8],
    back: &[u8],
    files: &mut F,
) -> Result<(), WriteFailed>
    ensures { Writes name.now (front.now ++ (middle.now ++ back.now)) (F.state files.old) (F.state files.new) result }
{
    files.create(name)?;
    add_parts(name, front, middle, back, files)
}
