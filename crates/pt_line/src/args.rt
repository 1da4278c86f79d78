//! The words of the command line, as the system gives them.

use crate::line::LineError;
use crate::texts::Texts;
use std::env::{Env, FillError};
use std::str;

/// The bytes that a word may have before the room for one is doubled.
const FIRST_ROOM: usize = 256;

/// The words after the program's name, or why the first that can't be taken isn't: `NotText` where it isn't UTF-8, else `Memory`.
// Of std's `env::args` each has a buffer of 256 bytes.
pub fn take_words<R: Env + AllocGlobal>(rt: &R) -> Result<Texts, LineError> {
    let mut words = Texts::new(rt.alloc());
    let mut room = Vec::new(rt.alloc());
    room.resize(FIRST_ROOM, 0)?;
    for index in 0..usize::MAX {
        match word_at(rt, index, &mut room)? {
            Some(word) if index > 0 => words.push(word)?,
            Some(_) => {}
            None => break,
        }
    }
    Ok(words)
}

/// The word in a place, where there is one.
fn word_at<'a, R: Env>(
    rt: &R,
    index: usize,
    room: &'a mut Vec<u8>,
) -> Result<Option<&'a str>, LineError> {
    for _ in 0..usize::BITS {
        match rt.arg(index, room.as_mut_slice()) {
            Ok(length) => return text_of(&room[..length]),
            Err(FillError::NotPresent) => return Ok(None),
            Err(FillError::TooLong) => room.resize(room.len().saturating_mul(2), 0)?,
        }
    }
    Err(LineError::Memory)
}

fn text_of(bytes: &[u8]) -> Result<Option<&str>, LineError> {
    match str::from_utf8(bytes) {
        Ok(word) => Ok(Some(word)),
        Err(_) => Err(LineError::NotText),
    }
}
