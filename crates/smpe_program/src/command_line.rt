//! The words of the command line.
use std::alloc::AllocError;
use std::env::FillError;
use std::rt::Env;

// The initial size of a word's buffer, in bytes; it doubles until it holds the word.
const FIRST_SIZE: usize = 256;

/// Reads the words, the first of which is the program's name. Here and below, an error means that memory runs out.
pub(crate) fn read_words(rt: &HostRuntime) -> Result<Vec<Vec<u8>>, AllocError> {
    let mut words = Vec::new(rt.alloc());
    for place in 0..usize::MAX {
        match read_argument(rt, place)? {
            Some(word) => words.push(word)?,
            None => break,
        }
    }
    Ok(words)
}

// Reads the word at this place of the command line, or returns `None` if there are not that many words.
fn read_argument(rt: &HostRuntime, place: usize) -> Result<Option<Vec<u8>>, AllocError> {
    let mut size = FIRST_SIZE;
    for _ in 0..usize::BITS {
        match read_argument_within(rt, place, size)? {
            Argument::Word(word) => return Ok(Some(word)),
            Argument::None => return Ok(None),
            Argument::TooLong => size = size.saturating_add(size),
        }
    }
    // (after so many doublings, no memory holds the buffer)
    Err(AllocError)
}

// What the system has at a place of the command line: a word that the buffer holds, none, or a longer one.
#[derive(Drop)]
enum Argument {
    Word(Vec<u8>),
    None,
    TooLong,
}

// Reads the word at this place of the command line into a buffer of this size.
fn read_argument_within(
    rt: &HostRuntime,
    place: usize,
    size: usize,
) -> Result<Argument, AllocError> {
    let mut word = Vec::new(rt.alloc());
    word.resize(size, 0)?;
    match rt.arg(place, word.as_mut_slice()) {
        Ok(length) => {
            word.truncate(length);
            Ok(Argument::Word(word))
        }
        Err(FillError::TooLong) => Ok(Argument::TooLong),
        Err(FillError::NotPresent) => Ok(Argument::None),
    }
}
