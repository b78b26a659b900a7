//! The lines of a text, each put to a sink by a call of its own.

ghost use Rattle.virt_words.specs.Lines.{PutsAll, cut, text_of};

use outside::{PutFailed, Sink};

/// Puts the lines of a text, which are so long, each by one `put`. After a failure a prefix of their text was written.
pub fn put_lines<S: Sink>(text: &[u8], sizes: &[usize], out: &mut S) -> Result<(), PutFailed>
    ensures { PutsAll (text_of (cut sizes.now text.now)) (S.state out.old) (S.state out.new) result }
{
    let mut rest = text;
    for size in sizes {
        let (line, behind) = rest.split_at((*size).min(rest.len()));
        out.put(line)?;
        rest = behind;
    }
    Ok(())
}
