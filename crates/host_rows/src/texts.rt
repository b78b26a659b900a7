//! Texts of rows.

use std::alloc::Global;
use std::test::Fail;

/// What stands before a mark and after it: nothing after it where there is no mark.
pub fn halves<'a>(text: &'a str, mark: &str) -> (&'a str, &'a str) {
    match text.split_once(mark) {
        Some(halves) => halves,
        None => (text, ""),
    }
}

/// Adds a piece that many times, each time with the next number from 0 on for a `#`.
fn push_times(alloc: Global, all: &mut String, piece: &str, count: u32) -> Result<(), Fail> {
    let (before, behind) = halves(piece, "#");
    for number in 0..count {
        all.push_str(before)?;
        if piece.len() > before.len() {
            all.push_str(format!(in alloc; "{number}")?.as_str())?;
        }
        all.push_str(behind)?;
    }
    Ok(())
}

/// A text in which a piece between two back quotes, as `3*ab#`, stands for `ab0ab1ab2`.
pub fn written_out(alloc: Global, text: &str) -> Result<String, Fail> {
    let mut all = String::new(alloc);
    for piece in text.split('`') {
        match piece.split_once('*') {
            Some((count, piece)) => push_times(alloc, &mut all, piece, count.parse::<u32>()?)?,
            None => all.push_str(piece)?,
        }
    }
    Ok(all)
}
