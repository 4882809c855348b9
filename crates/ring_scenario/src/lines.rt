//! The lines of an input, the words of a line, and the calls that they ask for.
ghost use Rattle.std.specs.Prelude.{◌≡◌, ◌+◌, ◌<◌, ◌≤◌, [], ◌∷◌, length, MatchOption, OnSome, IfSome, IfNone, IfErr, OnErr};
ghost use Rattle.std.specs.Prelude.{IfOk, List, OnOk, ℕ, map, ◌==◌, ◌≢◌, not};
ghost use Rattle.ring_words.specs.declared.read.action.Action.{Action};
ghost use Rattle.ring_scenario.specs.Words.{SpellsActions, SpellsBy, SpellsBytes, SpellsI32, SpellsI64, SpellsUnsigned};
ghost use Rattle.ring_scenario.specs.Words.{RefusedBy, letter_of};
ghost use Rattle.std.specs.List.{position};

mod call;
mod fault;
mod moment;
mod name;
mod service_call;

pub use call::{Call, Line};
pub use fault::{LineError, LineFault};
pub use moment::Moment;
use ring_words::Action;
pub use service_call::ServiceCall;
use std::alloc::Global;
use std::str;
use std::str::FromStr;

/// The largest number of bytes of an input.
pub const MAX_INPUT: usize = 1_048_576;

/// The lines of an input that were not yet taken.
#[derive(Drop)]
pub struct Lines<'a> {
    rest: &'a [u8],
    taken: u32,
    ghost short: { taken + length rest.now ≤ 1048576 },
}

impl<'a> Lines<'a> {
    ghost use Rattle.ring_scenario.specs.Taking.{lines_in};

    /// Returns all lines of a text. Each line ends with a line feed, which may be missing after the last line.
    pub fn of(text: &'a [u8]) -> Self
        requires { length text.now ≤ MAX_INPUT }
        ensures all { result.rest.now ≡ text.entry.now }
        ensures none { result.taken ≡ 0 }
    {
        Lines {
            rest: text,
            taken: 0,
        }
    }

    /// Returns the number of lines that were taken. This is also the number of the last line that was taken.
    pub fn taken(&self) -> u32
        ensures { result ≡ self.now.taken }
    {
        self.taken
    }

    /// Takes the next line, without its line feed.
    pub fn next_line(&mut self) -> Option<&'a [u8]>
        ensures line { MatchOption result (lines_in self.old ≡ [])
            (λ line. lines_in self.old ≡ line.now ∷ lines_in self.new) }
        ensures taken { IfSome result (λ _. self.new.taken ≡ self.old.taken + 1) }
        ensures same { IfNone result (self.new ≡ self.old) }
        ensures shorter { OnSome result (length self.new.rest.now < length self.old.rest.now) }
    {
        if self.rest.is_empty() {
            return None;
        }
        self.taken += 1;
        let Some(end) = index_of(self.rest, b'\n') else {
            let line = self.rest;
            self.rest = &[];
            return Some(line);
        };
        let line = &self.rest[..end];
        self.rest = &self.rest[end + 1..];
        Some(line)
    }
}

/// Returns the action that a letter means.
fn action_of(letter: u8) -> Option<Action>
    ensures { MatchOption result ((action : Action) → letter_of action ≢ letter) (λ action. letter_of action ≡ letter) }
{
    match letter {
        b'a' => Some(Action::Abort),
        b'b' => Some(Action::Break),
        b'c' => Some(Action::Commit),
        b'n' => Some(Action::Continue),
        _ => None,
    }
}

/// Returns the actions that the letters mean.
fn actions_of(alloc: Global, letters: &[u8]) -> Result<Vec<Action>, LineFault>
    ensures actions { IfOk result (λ actions. map letter_of actions.items ≡ letters.now) }
    ensures bad { IfErr result (λ fault. fault ≢ LineFault.OutOfMemory
        → (actions : List Action) → map letter_of actions ≢ letters.now) }
{
    let mut actions = Vec::new(alloc);
    for letter in letters {
        let Some(action) = action_of(*letter) else {
            return Err(LineFault::Bad(LineError::NotALetter));
        };
        actions.push(action)?;
    }
    Ok(actions)
}

/// Returns the reason why a word is not an allowed number.
fn error_of(word: &[u8]) -> LineError {
    let digits = match word.first() {
        Some(b'-') => &word[1..],
        _ => word,
    };
    if digits.is_empty() || digits.iter().any(|digit| !digit.is_ascii_digit()) {
        LineError::NotANumber
    } else {
        LineError::OutOfRange
    }
}

/// The words of a line that were not yet taken.
#[derive(Drop)]
pub struct Words<'a> {
    rest: &'a [u8],
}

impl<'a> Words<'a> {
    ghost use Rattle.ring_scenario.specs.Forms.{HasNone, actions, bytes, moment, signed_32, signed_64, unsigned_32, unsigned_64};
    ghost use Rattle.ring_scenario.specs.Taking.{HasWord, TakesWord, words_in};

    /// Returns all words of a line. Spaces are between words, and may also come before and after them.
    pub fn of(line: &'a [u8]) -> Self
        ensures { result.rest.now ≡ line.entry.now }
    {
        Words { rest: line }
    }

    /// Takes a word, if there is one.
    pub fn next_word(&mut self) -> Option<&'a [u8]>
        ensures { MatchOption result (words_in self.old ≡ [])
            (λ word. words_in self.old ≡ word.now ∷ words_in self.new) }
    {
        let start = index_of_other(self.rest, b' ')?;
        let text = &self.rest[start..];
        let end = index_of(text, b' ').unwrap_or(text.len());
        self.rest = &text[end..];
        Some(&text[..end])
    }

    /// Takes a word that must be there.
    fn word(&mut self) -> Result<&'a [u8], LineFault>
        ensures word { IfOk result (λ word. words_in self.old ≡ word.now ∷ words_in self.new) }
        ensures bad { OnErr result (words_in self.old ≡ []) }
    {
        self.next_word()
            .ok_or(LineFault::Bad(LineError::MissingWord))
    }

    /// Takes a number. A number is decimal digits, with `-` before them if it is negative.
    fn number<N: FromStr>(&mut self) -> Result<N, LineFault>
    where
        N: Drop,
        N::Err: Drop,
        ensures number { IfOk result (λ n. TakesWord
            (λ word. SpellsBy N.FromStr.from_str_gives word n) self.old self.new) }
        ensures bad { OnErr result ((word : List ℕ) (more : List (List ℕ)) → words_in self.old ≡ word ∷ more
            → RefusedBy N.FromStr.from_str_gives word) }
    {
        let word = self.word()?;
        let refused = LineFault::Bad(error_of(word));
        if word.first() == Some(&b'+') {
            return Err(refused);
        }
        match str::from_utf8(word) {
            Ok(digits) => digits.parse().map_err(|_| refused),
            Err(_) => Err(refused),
        }
    }

    /// Takes a number of 32 bits, which may be negative.
    pub fn i32(&mut self) -> Result<i32, LineFault>
        ensures number { IfOk result (λ n. TakesWord (λ word. SpellsI32 word n) self.old self.new) }
        ensures bad { OnErr result (HasNone signed_32 self.old) }
    {
        self.number()
    }

    /// Takes a number of 64 bits, which may be negative.
    pub fn i64(&mut self) -> Result<i64, LineFault>
        ensures number { IfOk result (λ n. TakesWord (λ word. SpellsI64 word n) self.old self.new) }
        ensures bad { OnErr result (HasNone signed_64 self.old) }
    {
        self.number()
    }

    /// Takes a number of 32 bits that is not negative.
    pub fn u32(&mut self) -> Result<u32, LineFault>
        ensures number { IfOk result (λ n. TakesWord (λ word. SpellsUnsigned 32 word n) self.old self.new) }
        ensures bad { OnErr result (HasNone unsigned_32 self.old) }
    {
        self.number()
    }

    /// Takes a number of 64 bits that is not negative.
    pub fn u64(&mut self) -> Result<u64, LineFault>
        ensures number { IfOk result (λ n. TakesWord (λ word. SpellsUnsigned 64 word n) self.old self.new) }
        ensures bad { OnErr result (HasNone unsigned_64 self.old) }
    {
        self.number()
    }

    /// Takes a length, an offset, or the number of something that is kept.
    pub fn usize(&mut self) -> Result<usize, LineFault>
        ensures number { IfOk result (λ n. TakesWord (λ word. SpellsUnsigned 64 word n) self.old self.new) }
        ensures bad { OnErr result (HasNone unsigned_64 self.old) }
    {
        self.number()
    }

    /// Takes a moment.
    pub fn moment(&mut self) -> Result<Moment, LineFault>
        ensures moment { IfOk result (λ now. TakesWord (λ word. SpellsUnsigned 64 word now.ms) self.old self.new) }
        ensures bad { OnErr result (HasNone moment self.old) }
    {
        let ms = self.u64()?;
        Moment::new(ms).ok_or(LineFault::Bad(LineError::OutOfRange))
    }

    /// Takes bytes. They are hexadecimal digits, two for each byte, or `-` for no bytes.
    pub fn bytes(&mut self, alloc: Global) -> Result<Vec<u8>, LineFault>
        ensures bytes { IfOk result (λ bytes. TakesWord (λ word. SpellsBytes word bytes.items) self.old self.new) }
        ensures bad { IfErr result (λ fault. fault ≢ LineFault.OutOfMemory → HasNone bytes self.old) }
    {
        let word = self.word()?;
        if word == b"-".as_slice() {
            return Ok(Vec::new(alloc));
        }
        Ok(hex::decode(alloc, word)?)
    }

    /// Takes actions. They are a letter for each action, or `-` for no actions.
    pub fn actions(&mut self, alloc: Global) -> Result<Vec<Action>, LineFault>
        ensures actions { IfOk result
            (λ actions. TakesWord (λ word. SpellsActions word actions.items) self.old self.new) }
        ensures bad { IfErr result (λ fault. fault ≢ LineFault.OutOfMemory → HasNone actions self.old) }
    {
        let word = self.word()?;
        if word == b"-".as_slice() {
            return Ok(Vec::new(alloc));
        }
        actions_of(alloc, word)
    }

    /// Tests that no word is left.
    pub fn finish(&mut self) -> Result<(), LineFault>
        ensures done { OnOk result (words_in self.old ≡ []) }
        ensures bad { OnErr result (HasWord self.old) }
    {
        match self.next_word() {
            None => Ok(()),
            Some(_) => Err(LineFault::Bad(LineError::ExtraWord)),
        }
    }
}

/// Returns the index of the first `byte`.
fn index_of(text: &[u8], byte: u8) -> Option<usize>
    ensures { result ≡ position (λ b. b == byte) text.now }
{
    text.iter().position(|b| *b == byte)
}

/// Returns the index of the first byte other than `byte`.
fn index_of_other(text: &[u8], byte: u8) -> Option<usize>
    ensures { result ≡ position (λ b. not (b == byte)) text.now }
{
    text.iter().position(|b| *b != byte)
}
