//! The laws of the encoding. Bytes encode at most one message, and a message that was encoded is decoded again.
ghost use Rattle.std.specs.Prelude.{◌≡◌, ◌≤◌, length, ℕ, ℤ, List, take, Some, Ok};
ghost use Rattle.ring_protocol.specs.declared.reply.Reply.{Reply as AnyReply};
ghost use Rattle.ring_protocol.specs.Command.{Instruction, spelling_of, type_id_of, HasLawfulTexts, Spells};
ghost use Rattle.ring_protocol.specs.Reply as reply;
ghost use Rattle.ring_protocol.specs.{Reading.command_of, Reading.reply_of, Writing.Encodes, Writing.EncodesReply};

/// States that a type id and a body together encode at most one command.
pub fn one_command()
    ensures { (type_id : ℤ) (body : List ℕ) (c d : Instruction)
        → Spells type_id body c → Spells type_id body d → c ≡ d }
{}

/// States that a type id and a body together encode at most one reply.
pub fn one_reply()
    ensures { (type_id : ℤ) (body : List ℕ) (r s : AnyReply)
        → reply.Spells type_id body r → reply.Spells type_id body s → r ≡ s }
{}

/// States that a command takes at most `LONGEST_COMMAND` bytes if its key and its label are not too long for a counter.
pub fn longest_command()
    ensures { (c : Instruction) → HasLawfulTexts c.request → length (spelling_of c) ≤ 520 }
{}

/// States that a command that was encoded is decoded again, and that the bytes of a decoded command are encoded again.
pub fn command_round_trip()
    ensures command { (c : Instruction) (old new : List ℕ) (n : ℕ) → Encodes c old new (Some n)
        → command_of (type_id_of c) (take n new) ≡ Ok c }
    ensures bytes { (type_id : ℤ) (body : List ℕ) (c : Instruction) (old new : List ℕ) (n : ℕ)
        → Spells type_id body c → Encodes c old new (Some n) → take n new ≡ body }
{}

/// States that a reply that was encoded is decoded again, and that the bytes of a decoded reply are encoded again.
pub fn reply_round_trip()
    ensures reply { (r : AnyReply) (old new : List ℕ) (n : ℕ) → EncodesReply r old new n
        → reply_of (reply.type_id_of r) (take n new) ≡ Ok r }
    ensures bytes { (type_id : ℤ) (body : List ℕ) (r : AnyReply) (old new : List ℕ) (n : ℕ)
        → reply.Spells type_id body r → EncodesReply r old new n → take n new ≡ body }
{}
