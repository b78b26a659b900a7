//! The words of the command line.

use std::{env, io};
use thiserror::Error;
use virt_base::Text;

/// Why the words were not read.
#[derive(Debug, Drop, Error)]
pub enum WordsError {
    #[error("a word isn't UTF-8")]
    NotUtf8,
    #[error("no memory for the words")]
    NoMemory,
}

/// The words after the program's name.
pub fn words_of(rt: &HostRuntime) -> Result<Vec<Text>, WordsError> {
    let words = match env::args(rt) {
        Ok(words) => words,
        Err(e) if e.kind() == io::ErrorKind::OutOfMemory => return Err(WordsError::NoMemory),
        Err(_) => return Err(WordsError::NotUtf8),
    };
    let mut texts = Vec::new(rt.alloc());
    for word in words.skip(1) {
        if texts.push(Text::from_string(word)).is_err() {
            return Err(WordsError::NoMemory);
        }
    }
    Ok(texts)
}
