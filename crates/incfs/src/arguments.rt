use std::alloc::AllocError;
use std::env::{Env, FillError};

/// The bytes of the longest word that can fit a command, and more.
const MOST_BYTES: usize = 4096;

/// The words after the program's name. One that is not UTF-8, or is longer than every word of a command, becomes the empty word, which
/// fits nowhere.
pub fn words_after_name(rt: &(impl Env + AllocGlobal)) -> Result<Vec<String>, AllocError> {
    let alloc = rt.alloc();
    let mut words = Vec::new(alloc);
    let mut room = [0u8; MOST_BYTES];
    for number in 1..usize::MAX {
        match rt.arg(number, &mut room) {
            Ok(count) => words.push(text_of(rt, &room[..count])?)?,
            Err(FillError::TooLong) => words.push(String::new(alloc))?,
            Err(FillError::NotPresent) => break,
        }
    }
    Ok(words)
}

fn text_of(rt: &impl AllocGlobal, bytes: &[u8]) -> Result<String, AllocError> {
    match std::str::from_utf8(bytes) {
        Ok(text) => String::from_str(rt.alloc(), text),
        Err(_) => Ok(String::new(rt.alloc())),
    }
}
