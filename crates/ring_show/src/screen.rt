//! The properties of standard output.
use std::env;
use std::env::Env;

/// The largest number of pieces in which a buffer is drawn if no width is known.
const WIDTH: u32 = 64;

/// The number of brackets of a picture and of letters of its positions.
const SIGNS: u32 = 6;

/// The properties of standard output.
#[derive(Clone, Copy)]
pub struct Screen {
    pub is_terminal: bool,
    /// Whether standard output is a terminal that may show colours.
    pub is_colored: bool,
    /// The largest number of pieces in which a buffer is drawn.
    pub width: u32,
}

/// Returns the number of pieces for which a terminal has room. The variable COLUMNS says how wide the terminal is.
fn width<R: AllocGlobal + Env>(rt: &R) -> Option<u32> {
    let columns = env::var(rt, "COLUMNS").ok()?;
    let columns: u32 = columns.as_str().parse().ok()?;
    Some(columns.saturating_sub(SIGNS).max(8))
}

/// Returns whether the variable NO_COLOR has a value.
fn has_no_color<R: AllocGlobal + Env>(rt: &R) -> bool {
    match env::var(rt, "NO_COLOR") {
        Ok(value) => !value.is_empty(),
        Err(_unset) => false,
    }
}

/// Returns the properties of standard output. Only a terminal has colours and a width.
pub fn screen_of<R: AllocGlobal + Env>(rt: &R, is_terminal: bool) -> Screen {
    Screen {
        is_terminal,
        is_colored: is_terminal && !has_no_color(rt),
        width: if is_terminal {
            width(rt).unwrap_or(WIDTH)
        } else {
            WIDTH
        },
    }
}
