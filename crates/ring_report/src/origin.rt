//! The file of a report, and its place in the file.
use std::alloc::AllocError;
use std::fmt::Write;

/// The file of a report, and its place in the file. They are labels of its metrics and members of its JSON.
#[derive(Clone, Copy, Debug)]
pub struct Origin<'a> {
    /// The name of the file. The name `-` is standard input, and `/proc/PID/mem` is the memory of a process.
    pub file: &'a str,
    /// The byte of the file at which the memory begins. In the memory of a process this is the address.
    pub at: u64,
    /// The name that the user gave to it.
    pub name: Option<&'a str>,
}

/// Tests whether a text is a number.
fn is_number(text: &str) -> bool {
    !text.is_empty() && text.bytes().all(|byte| byte.is_ascii_digit())
}

/// Returns the number of the process whose memory a file is, or `None` if it is another file.
pub fn process_of(file: &str) -> Option<&str> {
    let pid = file.strip_prefix("/proc/")?.strip_suffix("/mem")?;
    if is_number(pid) { Some(pid) } else { None }
}

impl<'a> Origin<'a> {
    /// Returns the kind of the source, which is `pid` or `file`, and its number or its name.
    pub(crate) fn source(self) -> (&'static str, &'a str) {
        match process_of(self.file) {
            Some(pid) => ("pid", pid),
            None => ("file", self.file),
        }
    }

    /// Adds the labels without the brackets, and with commas between them.
    pub(crate) fn push_labels(self, text: &mut String) -> Result<(), AllocError> {
        let (what, source) = self.source();
        write!(text, "{what}=\"")?;
        push_escaped(text, source)?;
        write!(text, "\",address=\"0x{:x}\"", self.at)?;
        if let Some(name) = self.name {
            text.push_str(",name=\"")?;
            push_escaped(text, name)?;
            text.push('"')?;
        }
        Ok(())
    }
}

/// Returns the escaped form of a letter of a label's value, if the letter must be escaped.
fn escaped(letter: char) -> Option<&'static str> {
    match letter {
        '\\' => Some("\\\\"),
        '"' => Some("\\\""),
        '\n' => Some("\\n"),
        _ => None,
    }
}

/// Adds a letter of a label's value.
fn push_letter(text: &mut String, letter: char) -> Result<(), AllocError> {
    match escaped(letter) {
        Some(escape) => text.push_str(escape),
        None => text.push(letter),
    }
}

/// Adds a label's value in the form that it has between quotes. There is a backslash before each backslash, quote and
/// line end.
pub(crate) fn push_escaped(text: &mut String, value: &str) -> Result<(), AllocError> {
    for letter in value.chars() {
        push_letter(text, letter)?;
    }
    Ok(())
}
