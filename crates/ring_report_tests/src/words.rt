//! Words and bytes of a list of words.
use ring_snapshot::{Body, Words};
use std::process::Abort;

/// Words of 0 but for these, each after its index.
pub type Changes = &'static [(usize, u64)];

/// Stores words at their indexes.
pub fn change(words: &mut [u64], changes: &[(usize, u64)]) {
    for (index, value) in changes {
        if let Some(word) = words.get_mut(*index) {
            *word = *value;
        }
    }
}

/// Copies the words of a list, which has to have this many.
pub fn copy<S: Words>(rt: &impl Abort, source: &S, words: &mut [u64]) {
    for (index, word) in words.iter_mut().enumerate() {
        *word = source.word_at(index).expect(rt, "a word");
    }
    assert!(rt; source.word_at(words.len()).is_none());
}

/// Tests whether these are the bytes, and the number of them.
pub fn has_bytes(body: Body<'_>, wanted: &[u8]) -> bool {
    if body.len() != wanted.len() || body.is_empty() != wanted.is_empty() {
        return false;
    }
    for (byte, own) in body.zip(wanted) {
        if byte != *own {
            return false;
        }
    }
    true
}
