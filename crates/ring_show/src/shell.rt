//! Words of a command line, as a shell reads them.
use ring_report::is_control;
use std::fmt;

/// The name of a file as a word of a command line, for a shell. It is between quotes if a shell would change it. It has
/// `./` before it if it would be an option. Control characters are numbers, so that they cannot change a terminal.
#[derive(Clone, Copy)]
pub struct Quoted<'a>(pub &'a str);

/// Tests whether a shell takes a character as it is.
fn is_plain(letter: char) -> bool {
    letter.is_ascii_alphanumeric()
        || matches!(
            letter,
            '/' | '.' | '_' | '-' | '+' | ',' | ':' | '@' | '%' | '='
        )
}

/// Writes a character between single quotes.
fn write_quoted<W: fmt::Write>(f: &mut fmt::Formatter<W>, letter: char) -> fmt::Result {
    if letter == '\'' {
        write!(f, "'\\''")
    } else {
        write!(f, "{letter}")
    }
}

/// Writes the bytes of a control character, which has one byte or two bytes in UTF-8.
fn write_control<W: fmt::Write>(f: &mut fmt::Formatter<W>, letter: char) -> fmt::Result {
    let number = u32::from(letter);
    if number < 0x80 {
        write!(f, "\\x{number:02x}")
    } else {
        write!(f, "\\xc2\\x{number:02x}")
    }
}

/// Writes a character between `$'` and `'`.
fn write_escaped<W: fmt::Write>(f: &mut fmt::Formatter<W>, letter: char) -> fmt::Result {
    match letter {
        '\'' | '\\' => write!(f, "\\{letter}"),
        _ if is_control(letter) => write_control(f, letter),
        _ => write!(f, "{letter}"),
    }
}

/// Writes each character between single quotes.
fn write_all_quoted<W: fmt::Write>(f: &mut fmt::Formatter<W>, text: &str) -> fmt::Result {
    write!(f, "'")?;
    for letter in text.chars() {
        write_quoted(f, letter)?;
    }
    write!(f, "'")
}

/// Writes each character between `$'` and `'`.
fn write_all_escaped<W: fmt::Write>(f: &mut fmt::Formatter<W>, text: &str) -> fmt::Result {
    write!(f, "$'")?;
    for letter in text.chars() {
        write_escaped(f, letter)?;
    }
    write!(f, "'")
}

impl<'a> fmt::Display for Quoted<'a> {
    fn fmt<W: fmt::Write>(&self, f: &mut fmt::Formatter<W>) -> fmt::Result {
        let text = self.0;
        if text.len() > 1 && text.starts_with('-') {
            write!(f, "./")?;
        }
        if text.chars().any(is_control) {
            return write_all_escaped(f, text);
        }
        if !text.is_empty() && text.chars().all(is_plain) {
            return write!(f, "{text}");
        }
        write_all_quoted(f, text)
    }
}
