//! Where the bodies of messages lie. No value of these types is made.
ghost use Rattle.ring_table.specs.Staged.{Bodies, elsewhere, in_words};

/// Where a ring's bodies lie.
pub trait Mode {
    ghost bodies: { Bodies };
}

/// Bodies lie in the words of their records. The table has no slots.
pub struct InWords;

impl Mode for InWords {
    ghost bodies = { in_words };
}

/// Bodies lie in slots, one for each word of the records, which begin with their headers. The words are marks.
pub struct InSlots;

impl Mode for InSlots {
    ghost bodies = { elsewhere };
}
