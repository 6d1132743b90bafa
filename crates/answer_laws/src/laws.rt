//! What bytes come to, whatever they are.
ghost use Rattle.std.specs.Prelude.{◌≡◌, ℕ, true, List, Some};
ghost use Rattle.device_defs.specs.Cells.{Cells, reads};
ghost use Rattle.device_defs.specs.Faults.{Rose};
ghost use Rattle.machine_defs.specs.Events.{AreBytes};
ghost use Rattle.command_defs.specs.Forms.{Command};
ghost use Rattle.command_defs.specs.Seen.{Seen, Ending};
ghost use Rattle.command_defs.specs.Commands.{Answers};
ghost use Rattle.command_laws.specs.Ends.{opens_store};
ghost use Rattle.answer_laws.specs.Judged.{Judged, JudgedByInit, AnsweredFor};

/// Any bytes are no store, or those of a store whose records a start accepts, or there is a first place at
/// which they are neither. An init finds them free, or a store, or bad at a first place.
pub fn any_bytes_are_judged()
    ensures start { (bytes : List ℕ) → AreBytes bytes → Judged bytes }
    ensures init { (bytes : List ℕ) → AreBytes bytes → JudgedByInit bytes }
{}

/// Whatever bytes a disk tells that does not fail, a command over a store tells what they are, or it runs
/// over the records that they stand for, or it found no memory.
pub fn any_disk_is_answered_for()
    ensures { (command : Command) (cells : Cells) (old new : Seen) (end : Ending)
        → Answers command old new end → opens_store command ≡ true →
        old.disk ≡ Some cells → AreBytes (reads cells) → (Rose old.disk_faults new.disk_faults → ⊥)
        → AnsweredFor cells old end }
{}
