//! What follows for a get over a store of the rows.
ghost use Rattle.std.specs.Prelude.{◌≡◌, ◌≢◌, ◌≤◌, ℕ, List, [], length, Some};
ghost use Rattle.device_defs.specs.Cells.{Cells, reads};
ghost use Rattle.record_defs.specs.Journal.{text};
ghost use Rattle.machine_defs.specs.Heard.{HoldsForgery};
ghost use Rattle.machine_defs.specs.Setups.{object_of};
ghost use Rattle.command_defs.specs.Forms.{GetOf};
ghost use Rattle.command_defs.specs.Seen.{Seen, Ending};
ghost use Rattle.command_defs.specs.Commands.{Answers};
ghost use Rattle.forged_stores.specs.Stored.{setup_numbers, stored_bytes, name_of_file, records_of};
ghost use Rattle.forged_stores.specs.declared.stored.Stored.{Stored as Kept};

use command_laws::ends::gets_give_the_file;

/// A get of the file of a store whose journal the disk reads, and that is handed enough providers, whatever
/// they are: where it ended with 0 and wrote other bytes than the file's, what it heard holds a forgery
/// against the file.
pub fn other_bytes_are_a_forgery()
    ensures { (s : Kept) (old new : Seen) (end : Ending) (cells : Cells) (written : List ℕ)
        → Answers (GetOf name_of_file) old new end →
        old.disk ≡ Some cells → reads cells ≡ text (records_of s)
        → (setup_numbers s).n ≤ length old.providers → old.sink ≡ Some [] →
        new.sink ≡ Some written → end.status ≡ 0 → written ≢ stored_bytes s
        → HoldsForgery (object_of (setup_numbers s) 1) (stored_bytes s) 1 end.heard }
{
    gets_give_the_file();
}
