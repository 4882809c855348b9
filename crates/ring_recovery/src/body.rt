//! The body of a message.
use ring_layout::get_byte_word;
use std::marker::Model;

/// The bytes of a body, which are read in place from slots. As an iterator it returns the bytes in order.
#[derive(Debug, Drop)]
pub struct Body<'a> {
    slots: &'a [u64],
    from: usize,
    left: usize,
}

impl<'a> Model for Body<'a> {
    ghost use Rattle.std.specs.Prelude.{ℕ, ◌+◌, ◌*◌, ◌≤◌, List, length};
    ghost use Rattle.ring_counters.specs.Records.{bytes_at};

    ghost Value = { List ℕ };

    ghost view = { λ b. bytes_at b.slots.now b.from b.left };

    ghost invariant = { λ b. b.from + b.left ≤ 8 * length b.slots.now };
}

impl<'a> Body<'a> {
    ghost use Rattle.std.specs.Prelude.{◌≡◌, ◌+◌, ◌*◌, ◌≤◌, ◌↔◌, [], IsTrue, length};
    ghost use Rattle.ring_counters.specs.Records.{bytes_at};

    /// Returns the `len` bytes of these slots from the byte `from` on.
    pub(crate) fn new(slots: &'a [u64], from: usize, len: usize) -> Self
        requires { from + len ≤ 8 * length slots.now }
        ensures { result ≡ bytes_at slots.now from len }
    {
        Body {
            slots,
            from,
            left: len,
        }
    }

    /// Returns the number of bytes that are left.
    pub fn len(&self) -> usize
        ensures { result ≡ length self.now }
    {
        self.left
    }

    /// Tests whether there is no byte.
    pub fn is_empty(&self) -> bool
        ensures { IsTrue result ↔ (self.now ≡ []) }
    {
        self.len() == 0
    }
}

impl<'a> Iterator for Body<'a> {
    ghost use Rattle.std.specs.Iterator.{YieldsFirst, item_count};

    type Item = u8;

    ghost next_gives = { YieldsFirst (λ bytes. bytes) };

    ghost remaining = { item_count (λ bytes. bytes) };

    fn next(&mut self) -> Option<u8> {
        if self.left == 0 {
            return None;
        }
        let byte = get_byte_word(self.slots[self.from / 8], self.from % 8);
        self.from += 1;
        self.left -= 1;
        Some(byte)
    }
}
