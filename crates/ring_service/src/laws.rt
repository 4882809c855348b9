//! Laws of the fold of commands.
ghost use Rattle.std.specs.Prelude.{◌≡◌, ◌++◌, ℕ, List};
ghost use Rattle.ring_layout.specs.{declared.message.Message.Message, Lists.Begins};
ghost use Rattle.ring_board.specs.declared.shared.view.{Joined.Joined, Taken.Taken};
ghost use Rattle.ring_service.specs.Fold.{Ledger, fold_of, with_receivers};

/// States that a fold of two lists of messages, one after the other, is a fold of the second list from the end of the
/// first.
pub fn fold_of_fold()
    ensures { (l : Ledger) (first second : List (ℕ × Message))
        → fold_of l (first ++ second) ≡ fold_of (fold_of l first) second }
{}

/// States that a fold only lengthens the transmitted list.
pub fn fold_lengthens()
    ensures { (l : Ledger) (messages : List (ℕ × Message)) → Begins l.board.sent (fold_of l messages).board.sent }
{}

/// States that a fold does not depend on what the transmitter knows of its shares, nor on the receivers that it took
/// back.
pub fn fold_ignores_receivers()
    ensures { (l : Ledger) (shares from : ℕ) (copies : List Taken) (heard : List Joined) (messages : List (ℕ × Message))
        → fold_of (with_receivers shares from copies heard l) messages
        ≡ with_receivers shares from copies heard (fold_of l messages) }
{}
