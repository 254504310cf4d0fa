//! The words of the command line.
use std::alloc::AllocError;
use std::env::FillError;
use std::rt::Env;

/// The size of a word's buffer at first, in bytes.
const FIRST_SIZE: usize = 256;

/// The words of the command line, the first of which is the program's name.
pub(crate) fn read_words(rt: &HostRuntime) -> Result<Vec<Vec<u8>>, AllocError> {
    let mut words = Vec::new(rt.alloc());
    for place in 0..usize::MAX {
        match read_word(rt, place)? {
            Some(word) => words.push(word)?,
            None => break,
        }
    }
    Ok(words)
}

// The word at a place, or `None` if there are fewer words. Its buffer doubles until it holds the word. After as many
// doublings as a size has bits no larger buffer is possible, so then the word does not fit into memory.
fn read_word(rt: &HostRuntime, place: usize) -> Result<Option<Vec<u8>>, AllocError> {
    let mut size = FIRST_SIZE;
    for _ in 0..usize::BITS {
        match read_word_into(rt, place, size)? {
            FoundWord::There(word) => return Ok(Some(word)),
            FoundWord::NoMore => return Ok(None),
            FoundWord::TooLong => size = size.saturating_add(size),
        }
    }
    Err(AllocError)
}

/// The word at a place, as far as a buffer holds it.
#[derive(Drop)]
enum FoundWord {
    There(Vec<u8>),
    NoMore,
    TooLong,
}

// Reads the word at a place into a buffer of this size.
fn read_word_into(rt: &HostRuntime, place: usize, size: usize) -> Result<FoundWord, AllocError> {
    let mut word = Vec::new(rt.alloc());
    word.resize(size, 0)?;
    match rt.arg(place, word.as_mut_slice()) {
        Ok(length) => {
            word.truncate(length);
            Ok(FoundWord::There(word))
        }
        Err(FillError::TooLong) => Ok(FoundWord::TooLong),
        Err(FillError::NotPresent) => Ok(FoundWord::NoMore),
    }
}
