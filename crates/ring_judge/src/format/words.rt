//! The words of a line.

use crate::format::fault::LineFault;
use crate::format::numbers::number_of;

/// The words of a line that were not taken yet. Spaces separate them.
#[derive(Drop)]
pub struct Words<'a> {
    rest: &'a [u8],
}

impl<'a> Words<'a> {
    /// All words of a line.
    pub fn of(line: &'a [u8]) -> Self {
        Words { rest: line }
    }

    /// Takes the next word. Returns `None` after the last one.
    pub fn next_word(&mut self) -> Option<&'a [u8]> {
        let start = self.rest.iter().position(|letter| *letter != b' ')?;
        let rest = &self.rest[start..];
        match rest.iter().position(|letter| *letter == b' ') {
            Some(end) => {
                self.rest = &rest[end..];
                Some(&rest[..end])
            }
            None => {
                self.rest = &[];
                Some(rest)
            }
        }
    }

    /// Takes a number.
    pub fn number(&mut self) -> Result<u64, LineFault> {
        match self.next_word() {
            Some(word) => number_of(word),
            None => Err(LineFault::TooFewWords),
        }
    }

    /// Takes the number of a producer or of a receiver.
    pub fn client(&mut self) -> Result<u16, LineFault> {
        let number = self.number()?;
        u16::try_from(number).map_err(|_too_large| LineFault::TooLarge)
    }

    /// Takes a number, or `-`, which means that there is none.
    pub fn number_or_dash(&mut self) -> Result<Option<u64>, LineFault> {
        match self.next_word() {
            Some(b"-") => Ok(None),
            Some(word) => Ok(Some(number_of(word)?)),
            None => Err(LineFault::TooFewWords),
        }
    }

    /// Takes the type id of a message.
    pub fn type_id(&mut self) -> Result<i32, LineFault> {
        let number = self.number()?;
        i32::try_from(number).map_err(|_too_large| LineFault::TooLarge)
    }

    /// Takes the length of a message.
    pub fn length(&mut self) -> Result<u32, LineFault> {
        let number = self.number()?;
        u32::try_from(number).map_err(|_too_large| LineFault::TooLarge)
    }

    /// Takes a number, or returns 0 if there is no word left.
    pub fn number_or_zero(&mut self) -> Result<u64, LineFault> {
        match self.next_word() {
            Some(word) => number_of(word),
            None => Ok(0),
        }
    }

    /// Tests whether no word is left.
    pub fn end(&mut self) -> Result<(), LineFault> {
        match self.next_word() {
            Some(_) => Err(LineFault::TooManyWords),
            None => Ok(()),
        }
    }
}
