//! The form in which text from outside is printed.
use std::fmt;

/// A text in which each control character is a backslash, an `x`, and its number in hexadecimal digits. So the text
/// cannot change a terminal.
#[derive(Clone, Copy, Debug, PartialEq, Eq)]
pub struct Printable<'a>(pub &'a str);

/// Tests whether a character is a control character.
pub fn is_control(letter: char) -> bool {
    letter < ' ' || ('\u{7f}'..='\u{9f}').contains(&letter)
}

/// Writes one character.
fn write_letter<W: fmt::Write>(f: &mut fmt::Formatter<W>, letter: char) -> fmt::Result {
    if is_control(letter) {
        let number = u32::from(letter);
        write!(f, "\\x{number:02x}")
    } else {
        write!(f, "{letter}")
    }
}

impl<'a> fmt::Display for Printable<'a> {
    fn fmt<W: fmt::Write>(&self, f: &mut fmt::Formatter<W>) -> fmt::Result {
        for letter in self.0.chars() {
            write_letter(f, letter)?;
        }
        Ok(())
    }
}
