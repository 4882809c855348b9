//! A buffer that is drawn as one line.
use std::alloc::AllocError;

/// The largest number of pieces of a buffer.
const MAX_WIDTH: usize = 512;

/// The marks of the pieces of a buffer, the weakest first. If a piece has two marks, the stronger one is shown.
#[derive(Clone, Copy, PartialEq, Eq, PartialOrd, Ord)]
pub enum Mark {
    Free,
    AbortedOrPadding,
    Aborted,
    Lapped,
    Committed,
    Unstored,
    Open,
}

impl Mark {
    fn letter(self) -> char {
        match self {
            Mark::Free => '.',
            Mark::AbortedOrPadding => '-',
            Mark::Aborted => 'x',
            Mark::Lapped => '~',
            Mark::Committed => '=',
            Mark::Unstored => '?',
            Mark::Open => 'O',
        }
    }
}

/// A buffer in equal pieces.
#[derive(Clone, Copy)]
pub struct Picture {
    capacity: u32,
    width: u32,
    /// The marks of the pieces. The marks after them are unused.
    marks: [Mark; MAX_WIDTH],
}

impl Picture {
    /// Returns an empty buffer in at most `width` pieces.
    pub fn new(capacity: u32, width: u32) -> Picture {
        Picture {
            capacity,
            width: (capacity / 8).min(width.min(MAX_WIDTH as u32)).max(1),
            marks: [Mark::Free; MAX_WIDTH],
        }
    }

    /// Returns the piece of a byte index.
    fn piece(&self, index: u64) -> usize {
        let capacity = u64::from(self.capacity.max(1));
        (index.min(capacity) * u64::from(self.width) / capacity) as usize
    }

    /// Marks bytes from a byte index on, as far as the buffer goes.
    pub fn mark(&mut self, index: u32, bytes: u64, mark: Mark) {
        let first = self.piece(u64::from(index));
        let end = u64::from(index).saturating_add(bytes.max(1) - 1);
        let last = self.piece(end.min(u64::from(self.capacity.max(1)) - 1));
        for k in first..=last {
            if let Some(own) = self.marks.get_mut(k) {
                if *own < mark {
                    *own = mark;
                }
            }
        }
    }

    /// Adds the letters of the byte indexes that are in this piece.
    fn push_signs(
        &self,
        line: &mut String,
        piece: usize,
        signs: &[(char, u64)],
    ) -> Result<(), AllocError> {
        for (letter, index) in signs {
            if self.piece(*index) == piece {
                line.push(*letter)?;
            }
        }
        Ok(())
    }

    /// Adds the pieces.
    fn push_pieces(&self, line: &mut String, signs: &[(char, u64)]) -> Result<(), AllocError> {
        for (k, mark) in self.marks.iter().enumerate().take(self.width as usize) {
            self.push_signs(line, k, signs)?;
            line.push(mark.letter())?;
        }
        Ok(())
    }

    /// Adds the line, with letters before the pieces of these byte indexes.
    pub fn push_line(&self, line: &mut String, signs: &[(char, u64)]) -> Result<(), AllocError> {
        line.push('[')?;
        self.push_pieces(line, signs)?;
        line.push(']')
    }
}
