//! A file over several commands: who may be damaged between them, and who can make a get give other bytes.
ghost use Rattle.std.specs.Prelude.{◌≡◌, ◌≢◌, ◌≤◌, ◌<◌, ◌&&◌, ℕ, Bool, List, String, Option, Some, not, true, false, is_some, length};
ghost use Rattle.std.specs.declared.alloc.Global.{Global};
ghost use Rattle.device_defs.specs.Faults.{Rose};
ghost use Rattle.stories.specs.Words.{is_flagged, told_then, AreBytes, HoldsForgery, Record, next_audit, GetOf, AuditAll, RepairAll, UpgradeJournal, ScrubAll, PackJournal, IsForm, IsTold, audit_lines, setup_in_effect, object_in_effect, Seen, Ending, provider_at, Follows, HasRightFile, IsUntouched, IsSteady, spoilt_below, IsDone, IsKnown, GivesUnlessMemory, put_of, AnswersWords};

use command_laws::after::{
    done_commands_leave_known_stores, files_stay, gets_tell_what_stands, put_files_are_got,
    stores_stay_known,
};
use command_laws::ends::gets_give_the_file;

/// A file put by one command, with a profile of its own or without, is got by the next, though at most b
/// providers were damaged in between, or fail: the get gives the bytes, or finds no memory, unless the disk
/// or the sink failed. A stop between the two does no harm.
pub fn the_next_command_gets_the_file()
    ensures { (put get : List (String Global)) (name bytes : List ℕ) (own : Option ℕ)
        (records : List Record) (spoilt : ℕ → Bool) (a b c d : Seen) (first last : Ending)
        → AnswersWords put a b first → IsForm put (put_of name own) → AnswersWords get c d last
        → IsForm get (GetOf name) → IsKnown a records → a.source ≡ Some bytes
        → ((j : ℕ) → j < (setup_in_effect records).n → spoilt j ≡ false
        → is_some (provider_at a.providers j).held ≡ true) → IsDone first → Follows b c
        → IsUntouched (setup_in_effect records).n spoilt b c
        → IsSteady (setup_in_effect records).n spoilt c d
        → spoilt_below (setup_in_effect records).n spoilt ≤ (setup_in_effect records).b
        → (Rose c.disk_faults d.disk_faults → ⊥) → (Rose c.sink_faults d.sink_faults → ⊥)
        → GivesUnlessMemory bytes c d last }
{
    put_files_are_got();
}

/// After an audit that flags and a repair another b providers may go. A file is put, with a profile of its
/// own or without; at most b providers are spoilt; an audit is done, and the repair of those whom it flagged,
/// which tell what they hold. Then any others may be spoilt, at most b with those that were and were not
/// flagged: a get still gives the bytes, or finds no memory, unless the disk or the sink failed.
pub fn others_may_go_after_a_repair()
    ensures { (put audit repair get : List (String Global)) (name bytes : List ℕ) (own : Option ℕ)
        (records : List Record) (spoilt : ℕ → Bool) (a b c d e f g h : Seen)
        (first second third last : Ending)
        → AnswersWords put a b first → IsForm put (put_of name own)
        → AnswersWords audit c d second → IsForm audit AuditAll
        → AnswersWords repair e f third → IsForm repair RepairAll
        → AnswersWords get g h last → IsForm get (GetOf name)
        → Follows b c → Follows d e → Follows f g → IsKnown a records → a.source ≡ Some bytes
        → IsDone first → IsDone second → IsDone third
        → ((j : ℕ) → j < (setup_in_effect records).n → spoilt j ≡ false
        → is_some (provider_at a.providers j).held ≡ true)
        → IsUntouched (setup_in_effect records).n spoilt b c
        → IsUntouched (setup_in_effect records).n spoilt d e
        → IsSteady (setup_in_effect records).n spoilt e f
        → spoilt_below (setup_in_effect records).n spoilt ≤ (setup_in_effect records).b
        → (undecided : ℕ) × (counts : List ℕ)
        × IsTold (audit_lines (setup_in_effect records).tolerance (next_audit records) undecided counts) c d
        second
        × (((j : ℕ) → j < (setup_in_effect records).n
        → is_flagged (setup_in_effect records).tolerance counts j ≡ true
        → is_some (provider_at e.providers j).held ≡ true) → (later : ℕ → Bool)
        → ((j : ℕ) → later j ≡ false → (spoilt j && not (is_flagged (setup_in_effect records).tolerance counts
        j)) ≡ false)
        → IsUntouched (setup_in_effect records).n later f g
        → IsSteady (setup_in_effect records).n later g h
        → spoilt_below (setup_in_effect records).n later ≤ (setup_in_effect records).b
        → (Rose g.disk_faults h.disk_faults → ⊥) → (Rose g.sink_faults h.sink_faults → ⊥)
        → GivesUnlessMemory bytes g h last) }
{
    put_files_are_got();
}

/// After a scrub all others may go. A file is put, with a profile of its own or without; at most b providers
/// are spoilt; a scrub is done. Then at most b providers, whichever they are, may be spoilt, where the others
/// tell what they hold: a get still gives the bytes, or finds no memory, unless the disk or the sink failed.
pub fn all_others_may_go_after_a_scrub()
    ensures { (put scrub get : List (String Global)) (name bytes : List ℕ) (own : Option ℕ)
        (records : List Record) (spoilt later : ℕ → Bool) (a b c d e f : Seen)
        (first second last : Ending)
        → AnswersWords put a b first → IsForm put (put_of name own)
        → AnswersWords scrub c d second → IsForm scrub ScrubAll
        → AnswersWords get e f last → IsForm get (GetOf name)
        → Follows b c → Follows d e → IsKnown a records → a.source ≡ Some bytes
        → IsDone first → IsDone second
        → ((j : ℕ) → j < (setup_in_effect records).n → spoilt j ≡ false
        → is_some (provider_at a.providers j).held ≡ true)
        → IsUntouched (setup_in_effect records).n spoilt b c
        → IsSteady (setup_in_effect records).n spoilt c d
        → spoilt_below (setup_in_effect records).n spoilt ≤ (setup_in_effect records).b
        → ((j : ℕ) → j < (setup_in_effect records).n → later j ≡ false
        → is_some (provider_at c.providers j).held ≡ true)
        → IsUntouched (setup_in_effect records).n later d e
        → IsSteady (setup_in_effect records).n later e f
        → spoilt_below (setup_in_effect records).n later ≤ (setup_in_effect records).b
        → (Rose e.disk_faults f.disk_faults → ⊥) → (Rose e.sink_faults f.sink_faults → ⊥)
        → GivesUnlessMemory bytes e f last }
{
    put_files_are_got();
}

/// A pack takes no file away. A file is put, with a profile of its own or without; the journal is given its
/// second version and packed. Then, though at most b providers were damaged in between, or fail, a get gives
/// the bytes, or finds no memory, unless the disk or the sink failed. Stops between the commands do no harm.
pub fn packed_files_are_got()
    ensures { (put upgrade pack get : List (String Global)) (name bytes : List ℕ) (own : Option ℕ)
        (records : List Record) (spoilt : ℕ → Bool) (a b c d e f g h : Seen)
        (first second third last : Ending)
        → AnswersWords put a b first → IsForm put (put_of name own)
        → AnswersWords upgrade c d second → IsForm upgrade UpgradeJournal
        → AnswersWords pack e f third → IsForm pack PackJournal
        → AnswersWords get g h last → IsForm get (GetOf name)
        → Follows b c → Follows d e → Follows f g → IsKnown a records → a.source ≡ Some bytes
        → IsDone first → IsDone second → IsDone third
        → ((j : ℕ) → j < (setup_in_effect records).n → spoilt j ≡ false
        → is_some (provider_at a.providers j).held ≡ true)
        → IsUntouched (setup_in_effect records).n spoilt b c
        → IsUntouched (setup_in_effect records).n spoilt d e
        → IsUntouched (setup_in_effect records).n spoilt f g
        → IsSteady (setup_in_effect records).n spoilt g h
        → spoilt_below (setup_in_effect records).n spoilt ≤ (setup_in_effect records).b
        → (Rose g.disk_faults h.disk_faults → ⊥) → (Rose g.sink_faults h.sink_faults → ⊥)
        → GivesUnlessMemory bytes g h last }
{
    done_commands_leave_known_stores();
    stores_stay_known();
    files_stay();
    gets_tell_what_stands();
}

/// n - b colluding providers are the forgery that the theorem names. Where all providers but b hold the
/// blocks of another file of the same length under the name's number, a get of status 0 gives that other
/// file, and what it heard holds a forgery against the one that was put.
pub fn colluders_are_the_forgery()
    ensures { (get : List (String Global)) (name bytes other : List ℕ) (records : List Record)
        (honest : ℕ → Bool) (old new : Seen) (end : Ending)
        → AnswersWords get old new end → IsForm get (GetOf name) → IsKnown old records
        → (theirs : HasRightFile old records name other honest) → AreBytes bytes
        → length bytes ≡ length other → bytes ≢ other → IsSteady (setup_in_effect records).n honest old new
        → spoilt_below (setup_in_effect records).n honest ≤ (setup_in_effect records).b
        → is_some old.sink ≡ true → end.status ≡ 0
        → (new.sink ≡ told_then old.sink other)
        × HoldsForgery (object_in_effect records theirs.file) bytes 1 end.heard }
{
    gets_tell_what_stands();
    gets_give_the_file();
}
