//! Texts of rows.

use std::alloc::Global;
use std::test::Fail;

/// What stands in front of a mark, and after it: nothing where there is no mark.
pub fn halves<'a>(text: &'a str, mark: &str) -> (&'a str, &'a str) {
    match text.split_once(mark) {
        Some(halves) => halves,
        None => (text, ""),
    }
}

fn push_times(all: &mut String, piece: &str, count: u32) -> Result<(), Fail> {
    for _ in 0..count {
        all.push_str(piece)?;
    }
    Ok(())
}

/// A text in which a piece between two back quotes, as `5*ab`, stands for that many times what is after its star.
pub fn written_out(alloc: Global, text: &str) -> Result<String, Fail> {
    let mut all = String::new(alloc);
    for piece in text.split('`') {
        match piece.split_once('*') {
            Some((count, piece)) => push_times(&mut all, piece, count.parse::<u32>()?)?,
            None => all.push_str(piece)?,
        }
    }
    Ok(all)
}
