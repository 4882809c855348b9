//! The numbers of a line.

use crate::format::fault::LineFault;

/// The number that decimal digits spell.
pub fn number_of(word: &[u8]) -> Result<u64, LineFault> {
    if word.is_empty() {
        return Err(LineFault::NotANumber);
    }
    let mut value: u64 = 0;
    for letter in word {
        value = with_digit(value, *letter)?;
    }
    Ok(value)
}

/// The number with one more digit.
fn with_digit(value: u64, letter: u8) -> Result<u64, LineFault> {
    let digit = match letter {
        b'0'..=b'9' => letter - b'0',
        _ => return Err(LineFault::NotANumber),
    };
    match value.checked_mul(10) {
        Some(shifted) => shifted
            .checked_add(u64::from(digit))
            .ok_or(LineFault::TooLarge),
        None => Err(LineFault::TooLarge),
    }
}
